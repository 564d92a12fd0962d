//! Windows over clocks that come to the deadline at each reading.
ghost use Rattle.std.specs.Prelude.{◌≤◌};

use crate::jobs::{FIRST, Work};
use ante_base::{CountClock, OpenGate};
use ante_window::{NOBODY, Outcome, WindowEvent, WindowReport, run_window};
use std::alloc::{AllocError, Global};
use std::test::Fail;
use std::thread::Threads;

const COUNT: usize = 12;

/// Whether each outcome is the job's reply or a cut at the deadline or later, and the events are of these outcomes.
fn is_sound(report: &WindowReport<u64>, deadline: u64, workers: u32) -> bool {
    let mut done = 0usize;
    let mut reply = 100;
    for (outcome, owner) in report
        .outcomes
        .as_slice()
        .iter()
        .zip(report.owners.as_slice())
    {
        let fits = match outcome {
            Outcome::Done(got) => *got == reply && *owner < workers,
            Outcome::Back { at } => *at >= deadline && (*owner < workers || *owner == NOBODY),
            Outcome::OutOfMemory => false,
        };
        if !fits {
            return false;
        }
        if matches!(outcome, Outcome::Done(_)) {
            done = done.wrapping_add(1);
        }
        reply = reply.wrapping_add(1);
    }
    let mut finished = 0usize;
    for event in report.events.as_slice() {
        if matches!(event, WindowEvent::Finish { .. }) {
            finished = finished.wrapping_add(1);
        }
    }
    report.outcomes.as_slice().len() == COUNT && done == finished
}

/// One window over a clock that comes to the deadline at this reading.
fn window<R: Threads + Sync>(
    rt: &R,
    alloc: Global,
    workers: u32,
    deadline: u64,
) -> Result<bool, AllocError>
    requires { (1 ≤ workers) × (workers ≤ 16) }
{
    let mut jobs = [Work {
        steps: 250,
        reply: 0,
        starves: false,
    }; COUNT];
    let mut reply = 100u64;
    for job in &mut jobs {
        job.reply = reply;
        reply = reply.wrapping_add(1);
    }
    let clock = CountClock::new(0, 1);
    let report = run_window(
        rt, alloc, &FIRST, &jobs, workers, &clock, deadline, &OpenGate,
    )?;
    Ok(is_sound(&report, deadline, workers))
}

#[test]
fn windows_that_end_at_each_look(rt: HostRuntime) -> Result<(), Fail> {
    for workers in [1, 2, 4, 16] {
        for deadline in 0..60 {
            assert!(rt; window(&rt, rt.alloc(), workers, deadline)?);
        }
    }
    Ok(())
}
