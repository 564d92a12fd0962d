// Steps, as they are paid.
ghost use Rattle.std.specs.Prelude.{◌≡◌, ◌-◌, nat_lt, not, if◌then◌else◌};

/// Takes so many steps off those that are left. Where they don't fit, it takes all and says no.
pub(crate) fn pay(left: &mut u64, steps: u64) -> bool
    ensures fits { result ≡ not (nat_lt left.old steps) }
    ensures left { left.new ≡ (if nat_lt left.old steps then 0 else left.old - steps) }
{
    if *left < steps {
        *left = 0;
        return false;
    }
    *left -= steps;
    true
}
