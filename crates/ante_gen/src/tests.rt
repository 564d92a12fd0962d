// The first and the last numbers of seeds, which were computed apart from the program.
use crate::make_workload;
use std::alloc::{AllocError, Global};
use std::process::Abort;

#[derive(Clone, Copy, Debug)]
struct Drawn {
    seed: u64,
    first: (u64, u64),
    last: (u64, u64),
    first_key: u64,
    last_key: u64,
}

const DRAWN: [Drawn; 2] = [
    Drawn {
        seed: 1,
        first: (774, 53),
        last: (618, 11),
        first_key: 137,
        last_key: 519,
    },
    Drawn {
        seed: u64::MAX,
        first: (488, 43),
        last: (712, 66),
        first_key: 436,
        last_key: 271,
    },
];

fn check(rt: &impl Abort, alloc: Global, drawn: Drawn) -> Result<(), AllocError> {
    let workload = make_workload(alloc, drawn.seed)?;
    let (adds, keys) = (workload.adds.as_slice(), workload.keys.as_slice());
    assert_eq!(rt; adds.len(), 2000);
    assert_eq!(rt; keys.len(), 2000);
    assert_eq!(rt; adds.first().copied(), Some(drawn.first));
    assert_eq!(rt; adds.last().copied(), Some(drawn.last));
    assert_eq!(rt; keys.first().copied(), Some(drawn.first_key));
    assert_eq!(rt; keys.last().copied(), Some(drawn.last_key));
    Ok(())
}

#[test]
fn seeds_draw_the_expected_numbers(rt: HostRuntime) -> Result<(), AllocError> {
    for drawn in DRAWN {
        check(&rt, rt.alloc(), drawn)?;
    }
    Ok(())
}
