ghost use Rattle.std.specs.Prelude.{◌≡◌, ℕ, ◌+◌, ◌++◌, false, length, min, IfOk};
ghost use Rattle.std.specs.Thread.{IsSync};
ghost use Rattle.ante_pool.specs.Seats.{times};
ghost use Rattle.ante_pool.specs.Standing.{below};
ghost use Rattle.ante_pool.specs.Pools.{IsSeatOf};

use crate::{Looked, Pool, PoolEnd, PoolSeat, Ringing};
use std::alloc::{AllocError, Global};
use std::test::Fail;
use std::thread::{Threads, join};

const JOBS: u32 = 10_000;

#[test]
fn two_seats_share_two_jobs_and_one_moment(rt: HostRuntime) -> Result<(), Fail> {
    let (pool, mut a) = Pool::new(rt.alloc(), 2)?;
    let mut b = pool.split(rt.alloc(), &mut a)?;
    let Some(first) = pool.claim(&mut a) else {
        panic!(rt; "no job for the first seat")
    };
    let second = pool.claim(&mut b);
    let third = pool.claim(&mut a);
    assert!(rt; first == 0 && second == Some(1) && third == None);
    let won = pool.ring(&mut b, 7);
    let lost = pool.ring(&mut a, 9);
    let looked = pool.look(&mut a);
    assert!(rt;
        won == Ringing::Won && lost == Ringing::Lost { at: 7 } && looked == Looked::Rung { at: 7 }
    );
    pool.join(&mut a, b);
    let end = pool.close(a);
    assert!(rt;
        end == PoolEnd {
            drawn: 3,
            rung: Some(7)
        }
    );
    Ok(())
}

/// Claims jobs until none is left.
fn drain(alloc: Global, pool: &Pool, mut seat: PoolSeat) -> Result<(PoolSeat, Vec<u32>), AllocError>
    requires here { IsSeatOf pool.now seat }
    requires going { seat.known.ended ≡ false }
    ensures here { IfOk result (λ r. IsSeatOf pool.now r.0) }
    ensures share { IfOk result (λ r. r.0.known.share ≡ seat.known.share) }
    ensures jobs { IfOk result (λ r. r.0.known.numbers ≡ seat.known.numbers ++ r.1.items) }
{
    let mut jobs = Vec::new(alloc);
    for _ in 0..u64::MAX {
        let Some(job) = pool.claim(&mut seat) else {
            return Ok((seat, jobs));
        };
        jobs.push(job)?;
    }
    Ok((seat, jobs))
}

/// What two threads claim together: each job once, and none left out.
#[tactic(auto, using(crate::proofs::Totals::times_append))]
fn drain_by_two<R: Threads + Sync>(
    rt: &R,
    alloc: Global,
    jobs: u32,
) -> Result<(Vec<u32>, Vec<u32>, PoolEnd), AllocError>
    ensures { IfOk result (λ r. (x : ℕ) → times x r.0.items + times x r.1.items ≡ below x (min r.2.drawn jobs)) }
{
    let (pool, mut first) = Pool::new(alloc, jobs)?;
    let second = pool.split(alloc, &mut first)?;
    let (one, two) = {
        let pool = &pool;
        join(
            rt,
            move || -> Result<(PoolSeat, Vec<u32>), AllocError>
                requires { IsSeatOf pool.now first × (first.known.ended ≡ false) }
                ensures here { IfOk result (λ r. IsSeatOf pool.entry.now r.0) }
                ensures share { IfOk result (λ r. r.0.known.share ≡ first.known.share) }
                ensures jobs { IfOk result (λ r. r.0.known.numbers ≡ first.known.numbers ++ r.1.items) }
            { drain(alloc, pool, first) },
            move || -> Result<(PoolSeat, Vec<u32>), AllocError>
                requires { IsSeatOf pool.now second × (second.known.ended ≡ false) }
                ensures here { IfOk result (λ r. IsSeatOf pool.entry.now r.0) }
                ensures share { IfOk result (λ r. r.0.known.share ≡ second.known.share) }
                ensures jobs { IfOk result (λ r. r.0.known.numbers ≡ second.known.numbers ++ r.1.items) }
            { drain(alloc, pool, second) },
        )
    };
    let (mut seat, one) = one?;
    let (other, two) = two?;
    pool.join(&mut seat, other);
    Ok((one, two, pool.close(seat)))
}

#[test]
fn two_threads_claim_each_job_once(rt: HostRuntime) -> Result<(), Fail> {
    let (mut all, other, end) = drain_by_two(&rt, rt.alloc(), JOBS)?;
    for job in other.as_slice() {
        all.push(*job)?;
    }
    all.as_mut_slice().sort_unstable();
    assert!(rt;
        all.as_slice().len() == JOBS as usize
            && end
                == PoolEnd {
                    drawn: 10_002,
                    rung: None
                }
    );
    let mut wanted = 0;
    for job in all.as_slice() {
        assert!(rt; *job == wanted);
        wanted = wanted.wrapping_add(1);
    }
    Ok(())
}
