//! One outcome a job, in the order of the jobs.

ghost use Rattle.std.specs.Prelude.{◌≡◌, ℕ, ◌<◌, length, slice_index_or, IfSome, IfNone, IfOk, None};
ghost use Rattle.ante_pool.specs.Seats.{times};
ghost use Rattle.ante_window.specs.Fates.{jobs_of, IsTaken, AreFates};

use crate::outcome::{Entry, NOBODY, Outcome};
use std::alloc::{AllocError, Global};

/// Where the log has the job's entry.
fn place_of<R>(log: &[Entry<R>], job: u32) -> Option<usize>
    ensures some { IfSome result (λ k. (k < length log.now) × ((d : Entry R) → (slice_index_or log.now k d).job ≡ job)) }
    ensures none { IfNone result (times job (jobs_of log.now) ≡ 0) }
{
    for (place, entry) in log.iter().enumerate() {
        if entry.job == job {
            return Some(place);
        }
    }
    None
}

/// Takes the job's entry out of the log. A job that has none was never claimed, and came Back when the bell was rung.
fn fate_of<R: Drop>(log: &mut Vec<Entry<R>>, job: u32, rung: Option<u64>) -> Entry<R>
    requires { rung ≡ None → 0 < times job (jobs_of log.old.items) }
    ensures { IsTaken job rung log.old.items log.new.items result }
{
    if let Some(place) = place_of(log.as_slice(), job) {
        return log.remove(place);
    }
    let Some(at) = rung else { unreachable!() };
    Entry {
        job,
        reader: NOBODY,
        outcome: Outcome::Back { at },
    }
}

/// What each of so many jobs came to, and who claimed it.
pub fn fates<R: Drop>(
    alloc: Global,
    log: Vec<Entry<R>>,
    count: u32,
    rung: Option<u64>,
) -> Result<(Vec<Outcome<R>>, Vec<u32>), AllocError>
    requires { rung ≡ None → (job : ℕ) → job < count → 0 < times job (jobs_of log.items) }
    ensures { IfOk result (λ r. AreFates log.items count rung r.1.items r.0.items) }
{
    let mut left = log;
    let mut outcomes = Vec::new(alloc);
    let mut owners = Vec::new(alloc);
    for job in 0..count {
        let Entry {
            job: _,
            reader,
            outcome,
        } = fate_of(&mut left, job, rung);
        outcomes.push(outcome)?;
        owners.push(reader)?;
    }
    Ok((outcomes, owners))
}
