//! Windows whose ends are known in full.
ghost use Rattle.std.specs.Prelude.{◌≤◌};

use crate::bench::Turnstile;
use crate::jobs::{Bench, FIRST, Work};
use ante_base::{CountClock, FixedClock, OpenGate};
use ante_window::{NOBODY, Outcome, WindowEvent, run_window};
use std::alloc::{AllocError, Global};
use std::test::Fail;
use std::thread::Threads;

/// A job of so many steps, with this reply.
fn work(steps: u64, reply: u64) -> Work {
    Work {
        steps,
        reply,
        starves: false,
    }
}

#[test]
fn no_job_is_claimed_at_the_deadline(rt: HostRuntime) -> Result<(), Fail> {
    let jobs = [work(1, 7), work(1, 8)];
    let clock = FixedClock { moment: 10 };
    let report = run_window(&rt, rt.alloc(), &FIRST, &jobs, 1, &clock, 10, &OpenGate)?;
    assert!(rt;
        report.outcomes.as_slice()
            == [Outcome::Back { at: 10 }, Outcome::Back { at: 10 }].as_slice()
    );
    assert!(rt; report.owners.as_slice() == [NOBODY, NOBODY].as_slice());
    let events = [
        WindowEvent::Ring {
            reader: 0,
            moment: 10,
        },
        WindowEvent::Close,
    ];
    assert!(rt; report.events.as_slice() == events.as_slice());
    Ok(())
}

#[test]
fn one_reader_is_cut_in_its_second_job(rt: HostRuntime) -> Result<(), Fail> {
    let jobs = [work(1, 7), work(200, 8), work(1, 9)];
    let clock = CountClock::new(0, 1);
    let report = run_window(&rt, rt.alloc(), &FIRST, &jobs, 1, &clock, 4, &OpenGate)?;
    assert!(rt;
        report.outcomes.as_slice()
            == [
                Outcome::Done(7),
                Outcome::Back { at: 4 },
                Outcome::Back { at: 4 }
            ]
            .as_slice()
    );
    assert!(rt; report.owners.as_slice() == [0, 0, NOBODY].as_slice());
    let events = [
        WindowEvent::Claim { reader: 0, job: 0 },
        WindowEvent::Finish { reader: 0, job: 0 },
        WindowEvent::Claim { reader: 0, job: 1 },
        WindowEvent::Ring {
            reader: 0,
            moment: 4,
        },
        WindowEvent::Cut { reader: 0, job: 1 },
        WindowEvent::Close,
    ];
    assert!(rt; report.events.as_slice() == events.as_slice());
    Ok(())
}

#[test]
fn a_job_lacks_memory_in_its_middle(rt: HostRuntime) -> Result<(), Fail> {
    let starving = Work {
        steps: 400,
        reply: 8,
        starves: true,
    };
    let jobs = [work(1, 7), starving, work(1, 9)];
    let clock = FixedClock { moment: 5 };
    let report = run_window(&rt, rt.alloc(), &FIRST, &jobs, 1, &clock, 10, &OpenGate)?;
    assert!(rt;
        report.outcomes.as_slice()
            == [Outcome::Done(7), Outcome::OutOfMemory, Outcome::Done(9)].as_slice()
    );
    let events = [
        WindowEvent::Claim { reader: 0, job: 0 },
        WindowEvent::Finish { reader: 0, job: 0 },
        WindowEvent::Claim { reader: 0, job: 1 },
        WindowEvent::Starve { reader: 0, job: 1 },
        WindowEvent::Claim { reader: 0, job: 2 },
        WindowEvent::Finish { reader: 0, job: 2 },
        WindowEvent::Close,
    ];
    assert!(rt; report.events.as_slice() == events.as_slice());
    Ok(())
}

/// Whether the jobs that were cut are done over the state of a later position.
fn are_done_later<R: Threads + Sync>(
    rt: &R,
    alloc: Global,
    workers: u32,
) -> Result<bool, AllocError>
    requires { (1 ≤ workers) × (workers ≤ 16) }
{
    let later = Bench { position: 100 };
    let jobs = [work(20_000, 9), work(20_000, 10)];
    let clock = FixedClock { moment: 5 };
    let report = run_window(rt, alloc, &later, &jobs, workers, &clock, 10, &OpenGate)?;
    Ok(report.outcomes.as_slice() == [Outcome::Done(109), Outcome::Done(110)].as_slice())
}

#[test]
fn jobs_that_were_cut_are_done_at_a_later_position(rt: HostRuntime) -> Result<(), Fail> {
    assert!(rt; are_done_later(&rt, rt.alloc(), 4)?);
    assert!(rt; are_done_later(&rt, rt.alloc(), 1)?);
    Ok(())
}

#[test]
fn four_readers_have_four_jobs_at_once(rt: HostRuntime) -> Result<(), Fail> {
    let jobs = [
        work(20_000, 7),
        work(20_000, 8),
        work(20_000, 9),
        work(20_000, 10),
    ];
    let gate = Turnstile::new(2);
    let report = run_window(&rt, rt.alloc(), &FIRST, &jobs, 4, &gate, 10, &gate)?;
    assert!(rt; !gate.has_failed());
    assert!(rt;
        report.outcomes.as_slice()
            == [
                Outcome::Done(7),
                Outcome::Done(8),
                Outcome::Back { at: 10 },
                Outcome::Back { at: 10 }
            ]
            .as_slice()
    );
    let mut seen = [false; 4];
    for owner in report.owners.as_slice() {
        let Some(mark) = seen.get_mut(*owner as usize) else {
            panic!(rt; "a job without a reader")
        };
        assert!(rt; !*mark);
        *mark = true;
    }
    assert!(rt; report.events.as_slice().len() == 10);
    Ok(())
}
