//! One window from its jobs to its events.

ghost use Rattle.std.specs.Prelude.{◌≡◌, ℕ, ◌≤◌, length, IfOk};
ghost use Rattle.ante_window.specs.Windows.{IsWindow};
ghost use Rattle.ante_window.specs.InCore.{begun_over, RunsIn, after_window, Leaves};

use crate::fates::fates;
use crate::outcome::Outcome;
use crate::readers::{Report, run_log};
use crate::schedule::{WindowEvent, schedule, turns};
use ante_base::{Clock, Gate};
use ante_pack::Seq;
use ante_port::ReadState;
use std::alloc::{AllocError, Global};
use std::thread::Threads;

/// What a window came to.
#[derive(Debug, Drop)]
pub struct WindowReport<R> {
    /// One for each job, in their order.
    pub outcomes: Seq<Outcome<R>>,
    /// The reader that claimed each job, from 0, or [`NOBODY`](crate::NOBODY).
    pub owners: Seq<u32>,
    pub events: Seq<WindowEvent>,
}

/// Reads the jobs on the state with so many workers in threads of their own, until all are read or the clock has come to the deadline, in
/// microseconds since 2000-01-01T00:00:00. It returns once all of them have ended.
pub fn run_window<R: Threads + Sync, S: ReadState + Sync, C: Clock + Sync, G: Gate + Sync>(
    rt: &R,
    alloc: Global,
    state: &S,
    jobs: &[S::Job],
    workers: u32,
    clock: &C,
    deadline: u64,
    gate: &G,
) -> Result<WindowReport<S::Reply>, AllocError>
    requires workers { (1 ≤ workers) × (workers ≤ 16) }
    requires jobs { length jobs.now ≤ 64 }
    ensures window { IfOk result (λ r.
        IsWindow (S.answer state.now) jobs.now (C.told clock.now) deadline workers r.outcomes r.owners r.events) }
    ensures runs { IfOk result (λ r. RunsIn S.answer (begun_over state.now jobs.now deadline) r.events) }
    ensures done { IfOk result (λ r. let s = begun_over state.now jobs.now deadline in
        Leaves r.outcomes s (after_window S.answer s r.events)) }
{
    let Report { log, bell, end } = run_log(
        rt, alloc, state, jobs, workers, clock, deadline, gate,
    )?;
    let (outcomes, owners) = fates(alloc, log, jobs.len() as u32, end.rung)?;
    let turns = turns(alloc, owners.as_slice(), outcomes.as_slice())?;
    let events = schedule(alloc, turns.as_slice(), bell)?;
    Ok(WindowReport {
        outcomes: Seq::from_vec(outcomes),
        owners: Seq::from_vec(owners),
        events: Seq::from_vec(events),
    })
}
