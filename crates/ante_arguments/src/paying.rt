// Steps for bytes.
ghost use Rattle.std.specs.Prelude.{◌≡◌, ◌<◌, ◌/◌, ◌-◌, not, nat_lt, if◌then◌else◌};

/// Pays for the bytes that are moved, if there are the steps for it.
pub fn pay(left: &mut u64, moved: usize) -> bool
    ensures paid { nat_lt left.old (moved / 64) ≡ not result }
    ensures left { left.new ≡ (if result then left.old - moved / 64 else 0) }
{
    let steps = (moved / 64) as u64;
    if *left < steps {
        *left = 0;
        return false;
    }
    *left -= steps;
    true
}
