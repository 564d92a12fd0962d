ghost use Rattle.std.specs.Prelude.{◌≡◌, ℕ, ◌+◌, ◌-◌, ◌*◌, ◌/◌, ◌^◌, ◌<◌, ◌≤◌};

use std::marker::Model;
use std::sync::atomic::{AtomicU64, Ordering};

/// Tells the time, in microseconds since 2000-01-01T00:00:00. Two readings needn't be in order.
pub trait Clock {
    /// The moments that the clock may tell.
    ghost told: { Self → ℕ → Type 0 };

    fn now(&self) -> u64
        ensures told { told self.now result }
        ensures small { result < 2 ^ 63 };
}

/// The latest moment that a clock tells.
const LATEST: u64 = (1 << 63) - 1;

/// The microseconds from 1970-01-01T00:00:00 to 2000-01-01T00:00:00.
const FROM_1970_TO_2000: u128 = 946_684_800_000_000;

/// Always tells one moment.
#[derive(Clone, Copy, Debug, PartialEq, Eq)]
pub struct FixedClock {
    pub moment: u64,
    pub ghost small: { moment < 2 ^ 63 },
}

impl Clock for FixedClock {
    ghost told = { λ clock moment. moment ≡ clock.moment };

    fn now(&self) -> u64 {
        self.moment
    }
}

/// Tells its start, then a moment later by a fixed time at each reading, and stays at the last one below 2^63.
#[derive(Drop)]
pub struct CountClock {
    start: u64,
    by: u64,
    readings: AtomicU64,
}

impl Model for CountClock {
    ghost use Rattle.ante_base.specs.Clocks.{Ticks};
    ghost use Rattle.std.specs.Prelude.{◌^◌, ◌<◌};

    ghost Value = { Ticks };

    ghost view = { λ c. record { start = c.start; by = c.by } };

    ghost invariant = { λ c. (0 < c.by) × (c.start < 2 ^ 63) };
}

impl CountClock {
    /// A clock that tells `start` first and then `by` more at each reading, both in microseconds.
    pub fn new(start: u64, by: u64) -> CountClock
        requires start { start < 2 ^ 63 }
        requires by { 1 ≤ by }
        ensures { result ≡ record { start = start; by = by } }
    {
        CountClock {
            start,
            by,
            readings: AtomicU64::new(0),
        }
    }
}

/// So many ticks, but no more than fit into the span.
#[tactic(auto, using(crate::proofs::Ticking::fit))]
fn ticked(ticks: u64, by: u64, span: u64) -> u64
    requires { 0 < by }
    ensures ticks { (n : ℕ) × (result ≡ n * by) }
    ensures span { result ≤ span }
{
    let most = span / by;
    if ticks < most { ticks * by } else { most * by }
}

impl Clock for CountClock {
    ghost use Rattle.ante_base.specs.Clocks.{IsTick};

    ghost told = { IsTick };

    fn now(&self) -> u64 {
        let readings = self.readings.fetch_add(1, Ordering::SeqCst);
        self.start + ticked(readings, self.by, LATEST - self.start)
    }
}

/// The system's clock. It tells 0 where it stands before 2000, or where it can't be read.
#[derive(Drop)]
pub struct SystemClock<'a, R> {
    rt: &'a R,
}

impl<'a, R> SystemClock<'a, R> {
    /// The system's clock, through `rt`.
    pub fn new(rt: &'a R) -> SystemClock<'a, R> {
        SystemClock { rt }
    }
}

impl<'a, R: std::time::Clock> Clock for SystemClock<'a, R> {
    ghost told = { λ clock moment. Unit {0} };

    fn now(&self) -> u64 {
        match self.rt.since_1970() {
            Ok(since) => moment(since.as_micros()),
            Err(_) => 0,
        }
    }
}

/// The moment that lies so many microseconds after 1970.
fn moment(since_1970: u128) -> u64
    ensures { result < 2 ^ 63 }
{
    let since_2000 = since_1970.saturating_sub(FROM_1970_TO_2000);
    if since_2000 < LATEST as u128 {
        since_2000 as u64
    } else {
        LATEST
    }
}
