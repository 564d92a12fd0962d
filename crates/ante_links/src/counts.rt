//! Counts that stay at their end.

ghost use Rattle.ante_base.specs.Faults.{Rose};
ghost use Rattle.std.specs.Prelude.{◌≡◌, ◌^◌, ◌≤◌};
ghost use Rattle.ante_base.specs.Stops.{looked};

/// A count of faults or waits that rises.
pub fn risen(count: u64) -> u64
    ensures { Rose count result }
{
    count.saturating_add(1)
}

/// The count of reads stays here.
const MOST_READS: u64 = 1 << 63;

/// A count of reads after one more.
pub fn read_once(count: u64) -> u64
    ensures { result ≡ looked count 1 }
{
    if count < MOST_READS { count + 1 } else { count }
}
