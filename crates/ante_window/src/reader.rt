ghost use Rattle.std.specs.Prelude.{◌≡◌, ℕ, ◌+◌, ◌^◌, ◌<◌, true, false, [], length, MatchBool, IfOk, IfSome, None};
ghost use Rattle.ante_pool.specs.Pools.{IsSeatOf};
ghost use Rattle.ante_pool.specs.Seats.{whole_share};
ghost use Rattle.std.specs.Thread.{IsSync};
ghost use Rattle.ante_window.specs.Watching.{Watches, Claims, IsOver};
ghost use Rattle.ante_window.specs.Stops.{IsSameStop};
ghost use Rattle.ante_window.specs.Reads.{IsAnswer, IsOutcome, IsRun, IsFresh, IsBy, IsBellOf, IsBrought, Goes};

use crate::outcome::{Bell, Entry, Outcome};
use crate::pool_stop::PoolStop;
use ante_base::{Clock, Gate, GatePoint, Stop};
use ante_pool::{Pool, PoolSeat};
use ante_port::{ReadEnd, ReadState};
use std::alloc::{AllocError, Global};

/// Reads one job.
fn ask<S: ReadState, C: Clock>(
    alloc: Global,
    state: &S,
    job: &S::Job,
    stop: &mut PoolStop<'_, C>,
) -> Result<ReadEnd<S::Reply>, AllocError>
    ensures same { IsSameStop stop.old stop.new }
    ensures watched { Watches (C.told stop.old.clock.now) stop.old.deadline stop.old.seat.known stop.new.seat.known }
    ensures going { stop.new.seat.known.ended ≡ stop.old.seat.known.ended }
    ensures answer { IsAnswer (S.answer state.now job.now) stop.new.seat.known.moments result }
{
    state.read(alloc, job, stop)
}

/// What one job comes to.
fn read_job<S: ReadState, C: Clock>(
    alloc: Global,
    state: &S,
    job: &S::Job,
    stop: &mut PoolStop<'_, C>,
) -> Outcome<S::Reply>
    ensures same { IsSameStop stop.old stop.new }
    ensures watched { Watches (C.told stop.old.clock.now) stop.old.deadline stop.old.seat.known stop.new.seat.known }
    ensures going { stop.new.seat.known.ended ≡ stop.old.seat.known.ended }
    ensures outcome { IsOutcome (S.answer state.now job.now) stop.new.seat.known.moments result }
{
    match ask(alloc, state, job, stop) {
        Ok(ReadEnd::Done(reply)) => Outcome::Done(reply),
        Ok(ReadEnd::Cut { at }) => Outcome::Back { at },
        Err(AllocError) => Outcome::OutOfMemory,
    }
}

/// The next job, where one is left and the time isn't over.
fn claim_one<C: Clock>(stop: &mut PoolStop<'_, C>) -> Option<u32>
    requires going { stop.old.seat.known.ended ≡ false }
    ensures same { IsSameStop stop.old stop.new }
    ensures claimed { Claims (C.told stop.old.clock.now) stop.old.deadline stop.old.seat.known result stop.new.seat.known }
    ensures job { IfSome result (λ n. n < stop.old.pool.now.jobs) }
{
    if stop.look().is_some() {
        return None;
    }
    stop.pool.claim(&mut stop.seat)
}

/// What the readers of a window share.
#[derive(Drop)]
pub struct Window<'a, S: ReadState, C, G> {
    pub state: &'a S,
    pub jobs: &'a [S::Job],
    pub clock: &'a C,
    pub deadline: u64,
    pub gate: &'a G,
    pub pool: &'a Pool,
    pub ghost fits: { pool.now.jobs ≡ length jobs.now },
}

/// What a reader brings back: its seat, and an entry for each job that it claimed.
#[derive(Drop)]
pub struct Brought<R> {
    pub seat: PoolSeat,
    pub log: Vec<Entry<R>>,
    /// Its ring, where that was the first.
    pub bell: Option<Bell>,
}

/// Claims a job and reads it, and says whether there was one.
fn read_next<S: ReadState, C: Clock, G: Gate>(
    alloc: Global,
    window: &Window<'_, S, C, G>,
    stop: &mut PoolStop<'_, C>,
    log: &mut Vec<Entry<S::Reply>>,
    reader: u32,
) -> Result<bool, AllocError>
    requires pool { stop.old.pool.now ≡ window.now.pool.now }
    requires clock { (stop.old.clock.now ≡ window.now.clock.now) × (stop.old.deadline ≡ window.now.deadline) }
    requires run { IsRun (S.answer window.now.state.now) window.now.jobs.now (C.told window.now.clock.now) window.now.deadline
        stop.old.seat.known log.old.items }
    requires going { stop.old.seat.known.ended ≡ false }
    requires by { IsBy (λ r. r ≡ reader) log.old.items }
    ensures same { IsSameStop stop.old stop.new }
    ensures by { IfOk result (λ more. IsBy (λ r. r ≡ reader) log.new.items) }
    ensures run { IfOk result (λ more. IsRun (S.answer window.now.state.now) window.now.jobs.now (C.told window.now.clock.now)
        window.now.deadline stop.new.seat.known log.new.items) }
    ensures goes { IfOk result (λ more. Goes stop.old.seat.known more stop.new.seat.known) }
{
    let Some(job) = claim_one(stop) else {
        return Ok(false);
    };
    window.gate.pass(GatePoint::Claimed, job);
    let outcome = read_job(alloc, window.state, &window.jobs[job as usize], stop);
    window.gate.pass(GatePoint::Finished, job);
    log.push(Entry {
        job,
        reader,
        outcome,
    })?;
    Ok(true)
}

/// The ring of this reader.
fn bell_of(reader: u32, won: Option<u64>) -> Option<Bell>
    ensures { IsBellOf (λ r. r ≡ reader) won result }
{
    match won {
        Some(moment) => Some(Bell { reader, moment }),
        None => None,
    }
}

/// Claims jobs and reads them, until none is left or the time is over.
pub fn read_alone<S: ReadState, C: Clock, G: Gate>(
    alloc: Global,
    window: &Window<'_, S, C, G>,
    seat: PoolSeat,
    reader: u32,
) -> Result<Brought<S::Reply>, AllocError>
    requires here { IsSeatOf window.now.pool.now seat }
    requires fresh { IsFresh seat.known }
    ensures here { IfOk result (λ b. IsSeatOf window.now.pool.now b.seat × (b.seat.known.share ≡ seat.known.share)) }
    ensures brought { IfOk result (λ b. IsBrought (S.answer window.now.state.now) window.now.jobs.now (C.told window.now.clock.now)
        window.now.deadline (λ r. r ≡ reader) b.seat.known b.log.items b.bell) }
{
    let mut log = Vec::new(alloc);
    let mut stop = PoolStop {
        pool: window.pool,
        clock: window.clock,
        deadline: window.deadline,
        seat,
        won: None,
    };
    for _ in 0..u64::MAX {
        if !read_next(alloc, window, &mut stop, &mut log, reader)? {
            let PoolStop {
                pool: _,
                clock: _,
                deadline: _,
                seat,
                won,
            } = stop;
            let bell = bell_of(reader, won);
            return Ok(Brought { seat, log, bell });
        }
    }
    unreachable!()
}
