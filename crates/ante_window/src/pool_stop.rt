ghost use Rattle.std.specs.Prelude.{◌≡◌};
ghost use Rattle.ante_pool.specs.Pools.{IsSeatOf};

use ante_base::{Clock, Stop};
use ante_pool::{Looked, Pool, PoolSeat, Ringing};

/// A reader's stop: it asks to end once the pool's bell is rung, and rings it where the clock has come to the deadline.
#[derive(Drop)]
pub struct PoolStop<'a, C> {
    pub pool: &'a Pool,
    pub clock: &'a C,
    pub deadline: u64,
    pub seat: PoolSeat,
    /// The moment with which this reader rang the bell, where it was the first.
    pub won: Option<u64>,
    pub ghost here: { IsSeatOf pool.now seat },
    pub ghost rang: { won ≡ seat.known.won },
}

impl<'a, C: Clock> Stop for PoolStop<'a, C> {
    ghost use Rattle.ante_window.specs.Stops.{StopLooks};
    ghost use Rattle.std.specs.Prelude.{None};

    ghost may = { StopLooks C.told };

    ghost looks = { λ stop. None };

    fn look(&mut self) -> Option<u64> {
        if let Looked::Rung { at } = self.pool.look(&mut self.seat) {
            return Some(at);
        }
        let moment = self.clock.now();
        if moment < self.deadline {
            return None;
        }
        match self.pool.ring(&mut self.seat, moment) {
            Ringing::Won => {
                self.won = Some(moment);
                Some(moment)
            }
            Ringing::Lost { at } => Some(at),
        }
    }

    ghost counted = { λ old answer new may. tt };
}
