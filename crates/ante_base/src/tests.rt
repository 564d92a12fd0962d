use crate::{Clock, CountClock, FixedClock, Gate, GatePoint, OpenGate, SystemClock};
use std::test::Fail;

const LATEST: u64 = (1 << 63) - 1;

/// 2020-01-01T00:00:00.
const IN_2020: u64 = 631_152_000_000_000;

#[test]
fn clocks_tell_their_moments(rt: HostRuntime) -> Result<(), Fail> {
    let ticking = CountClock::new(5, 3);
    let (one, two, three) = (ticking.now(), ticking.now(), ticking.now());
    assert!(rt; one == 5 && two == 8 && three == 11);
    let late = CountClock::new(LATEST - 3, 2);
    let (one, two, three) = (late.now(), late.now(), late.now());
    assert!(rt; one == LATEST - 3 && two == LATEST - 1 && three == LATEST - 1);
    let fixed = FixedClock { moment: 7 };
    assert!(rt; fixed.now() == 7);
    let system = SystemClock::new(&rt);
    assert!(rt; system.now() > IN_2020);
    OpenGate.pass(GatePoint::Claimed, 0);
    Ok(())
}
