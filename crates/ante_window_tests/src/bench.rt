//! A gate that holds readers until all four jobs are in their hands, and a clock that tells the deadline once some are done.

ghost use Rattle.std.specs.Prelude.{◌≡◌, ◌⊎◌};

use ante_base::{Clock, Gate, GatePoint};
use std::sync::atomic::{AtomicU64, Ordering};
use std::thread::yield_now;

/// A held job goes on after so many turns, and the test has failed. They last a minute or so where nothing else runs.
const MOST_TURNS: u64 = 200_000_000;

/// What the readers of four jobs have come to.
#[derive(Drop)]
pub struct Turnstile {
    /// How many jobs are done before the deadline, the first ones.
    first: u32,
    claimed: AtomicU64,
    finished: AtomicU64,
    failed: AtomicU64,
}

impl Turnstile {
    pub fn new(first: u32) -> Turnstile {
        Turnstile {
            first,
            claimed: AtomicU64::new(0),
            finished: AtomicU64::new(0),
            failed: AtomicU64::new(0),
        }
    }

    /// Whether a job was held for too many turns.
    pub fn has_failed(&self) -> bool {
        self.failed.load(Ordering::SeqCst) != 0
    }

    /// Waits until the count is so high.
    fn hold(&self, count: &AtomicU64, until: u64) {
        for _ in 0..MOST_TURNS {
            if count.load(Ordering::SeqCst) >= until {
                return;
            }
            yield_now();
        }
        self.failed.store(1, Ordering::SeqCst);
    }
}

impl Gate for Turnstile {
    fn pass(&self, point: GatePoint, job: u32) {
        match point {
            GatePoint::Claimed => {
                self.claimed.fetch_add(1, Ordering::SeqCst);
                self.hold(&self.claimed, 4);
                if job >= self.first {
                    self.hold(&self.finished, u64::from(self.first));
                }
            }
            GatePoint::Finished => {
                self.finished.fetch_add(1, Ordering::SeqCst);
            }
        }
    }
}

impl Clock for Turnstile {
    ghost told = { λ clock moment. (moment ≡ 5) ⊎ (moment ≡ 10) };

    fn now(&self) -> u64 {
        if self.finished.load(Ordering::SeqCst) >= u64::from(self.first) {
            10
        } else {
            5
        }
    }
}
