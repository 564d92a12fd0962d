ghost use Rattle.std.specs.Prelude.{◌≡◌, ℕ, ◌+◌, ◌^◌, ◌<◌, ◌≤◌, false, [], length, IfOk};
ghost use Rattle.std.specs.Thread.{IsSync};
ghost use Rattle.ante_pool.specs.Pools.{IsSeatOf};
ghost use Rattle.ante_window.specs.Reads.{IsFresh, IsBrought, IsReport};

use crate::outcome::{Bell, Entry};
use crate::reader::{Brought, Window, read_alone};
use ante_base::{Clock, Gate};
use ante_pool::{Pool, PoolEnd, PoolSeat};
use ante_port::ReadState;
use std::alloc::{AllocError, Global};
use std::thread::{Threads, join};

/// Puts together what the readers below the last one and that one brought back.
fn together<S: ReadState, C: Clock, G: Gate>(
    window: &Window<'_, S, C, G>,
    all: Brought<S::Reply>,
    one: Brought<S::Reply>,
    _last: u32,
) -> Result<Brought<S::Reply>, AllocError>
    requires all { IsSeatOf window.now.pool.now all.seat × IsBrought (S.answer window.now.state.now) window.now.jobs.now
        (C.told window.now.clock.now) window.now.deadline (λ r. r < _last) all.seat.known all.log.items all.bell }
    requires one { IsSeatOf window.now.pool.now one.seat × IsBrought (S.answer window.now.state.now) window.now.jobs.now
        (C.told window.now.clock.now) window.now.deadline (λ r. r ≡ _last) one.seat.known one.log.items one.bell }
    ensures here { IfOk result (λ b. IsSeatOf window.now.pool.now b.seat × (b.seat.known.share ≡ all.seat.known.share + one.seat.known.share)) }
    ensures brought { IfOk result (λ b. IsBrought (S.answer window.now.state.now) window.now.jobs.now (C.told window.now.clock.now)
        window.now.deadline (λ r. r < _last + 1) b.seat.known b.log.items b.bell) }
{
    let Brought {
        mut seat,
        mut log,
        bell,
    } = all;
    let Brought {
        seat: other,
        log: mut more,
        bell: own,
    } = one;
    window.pool.join(&mut seat, other);
    log.append(&mut more)?;
    let bell = bell.or(own);
    Ok(Brought { seat, log, bell })
}

/// Reads with so many readers, each in a thread of its own.
pub fn read_all<R: Threads + Sync, S: ReadState + Sync, C: Clock + Sync, G: Gate + Sync>(
    rt: &R,
    alloc: Global,
    window: &Window<'_, S, C, G>,
    seat: PoolSeat,
    readers: u32,
) -> Result<Brought<S::Reply>, AllocError>
    requires here { IsSeatOf window.now.pool.now seat }
    requires fresh { IsFresh seat.known }
    requires readers { 1 ≤ readers }
    requires share { 2 ^ readers ≤ seat.known.share }
    ensures here { IfOk result (λ b. IsSeatOf window.now.pool.now b.seat × (b.seat.known.share ≡ seat.known.share)) }
    ensures brought { IfOk result (λ b. IsBrought (S.answer window.now.state.now) window.now.jobs.now (C.told window.now.clock.now)
        window.now.deadline (λ r. r < readers) b.seat.known b.log.items b.bell) }
{
    if readers == 1 {
        return read_alone(alloc, window, seat, 0);
    }
    let mut seat = seat;
    let other = window.pool.split(alloc, &mut seat)?;
    let last = readers - 1;
    let (one, all) = join(
        rt,
        move || -> Result<Brought<S::Reply>, AllocError>
            requires { IsSeatOf window.now.pool.now other × IsFresh other.known }
            ensures here { IfOk result (λ b. IsSeatOf window.entry.now.pool.now b.seat × (b.seat.known.share ≡ other.known.share)) }
            ensures brought { IfOk result (λ b. IsBrought (S.answer window.entry.now.state.now) window.entry.now.jobs.now
                (C.told window.entry.now.clock.now) window.entry.now.deadline (λ r. r ≡ last) b.seat.known b.log.items b.bell) }
        { read_alone(alloc, window, other, last) },
        move || -> Result<Brought<S::Reply>, AllocError>
            requires { IsSync R.row × IsSeatOf window.now.pool.now seat × IsFresh seat.known × (2 ^ last ≤ seat.known.share) × (0 < last) }
            ensures here { IfOk result (λ b. IsSeatOf window.entry.now.pool.now b.seat × (b.seat.known.share ≡ seat.known.share)) }
            ensures brought { IfOk result (λ b. IsBrought (S.answer window.entry.now.state.now) window.entry.now.jobs.now
                (C.told window.entry.now.clock.now) window.entry.now.deadline (λ r. r < last) b.seat.known b.log.items b.bell) }
        { read_all(rt, alloc, window, seat, last) },
    );
    together(window, all?, one?, last)
}

/// What the readers of a window did: an entry for each claimed job, and how the pool ended.
#[derive(Drop)]
pub struct Report<R> {
    pub log: Vec<Entry<R>>,
    pub bell: Option<Bell>,
    pub end: PoolEnd,
}

/// Reads the jobs with so many readers, until all are read or the clock has come to the deadline.
pub fn run_log<R: Threads + Sync, S: ReadState + Sync, C: Clock + Sync, G: Gate + Sync>(
    rt: &R,
    alloc: Global,
    state: &S,
    jobs: &[S::Job],
    readers: u32,
    clock: &C,
    deadline: u64,
    gate: &G,
) -> Result<Report<S::Reply>, AllocError>
    requires readers { (1 ≤ readers) × (readers ≤ 16) }
    requires jobs { length jobs.now ≤ 64 }
    ensures { IfOk result (λ r. IsReport (S.answer state.now) jobs.now (C.told clock.now) deadline readers r.log.items r.bell r.end) }
{
    let (pool, seat) = Pool::new(alloc, jobs.len() as u32)?;
    let Brought { seat, log, bell } = {
        let window = Window {
            state,
            jobs,
            clock,
            deadline,
            gate,
            pool: &pool,
        };
        read_all(rt, alloc, &window, seat, readers)?
    };
    let end = pool.close(seat);
    Ok(Report { log, bell, end })
}
