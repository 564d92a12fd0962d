ghost use Rattle.std.specs.Prelude.{◌≡◌};

use crate::{Outcome, run_log};
use ante_base::{FixedClock, OpenGate, Stop};
use ante_pool::PoolEnd;
use ante_port::{ReadEnd, ReadState};
use std::alloc::{AllocError, Global};
use std::test::Fail;

/// Gives each job's own number as its reply.
#[derive(Drop)]
struct Echo;

impl ReadState for Echo {
    type Job = u64;

    type Reply = u64;

    ghost answer = { λ state job. job };

    fn read<P: Stop>(
        &self,
        _alloc: Global,
        job: &u64,
        _stop: &mut P,
    ) -> Result<ReadEnd<u64>, AllocError> {
        Ok(ReadEnd::Done(*job))
    }
}

#[test]
fn four_readers_read_each_job_once(rt: HostRuntime) -> Result<(), Fail> {
    let jobs = [1, 2, 4, 8, 16, 32, 64, 128];
    let clock = FixedClock { moment: 5 };
    let report = run_log(&rt, rt.alloc(), &Echo, &jobs, 4, &clock, 10, &OpenGate)?;
    assert!(rt;
        report.end
            == PoolEnd {
                drawn: 12,
                rung: None
            }
    );
    let mut sum: u64 = 0;
    for entry in report.log.as_slice() {
        if let Outcome::Done(reply) = entry.outcome {
            sum = sum.wrapping_add(reply);
        }
    }
    assert!(rt; sum == 255 && report.log.as_slice().len() == 8);
    Ok(())
}

#[test]
fn no_job_is_claimed_past_the_deadline(rt: HostRuntime) -> Result<(), Fail> {
    let clock = FixedClock { moment: 10 };
    let report = run_log(&rt, rt.alloc(), &Echo, &[1, 2], 2, &clock, 10, &OpenGate)?;
    assert!(rt;
        report.log.as_slice().is_empty()
            && report.end
                == PoolEnd {
                    drawn: 0,
                    rung: Some(10)
                }
    );
    Ok(())
}
