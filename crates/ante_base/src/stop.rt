ghost use Rattle.std.specs.Prelude.{◌≡◌, ℕ, ◌^◌, ◌<◌, ◌==◌, if◌then◌else◌, Option, Some, None};
ghost use Rattle.std.proofs.Common.{refl};
ghost use Rattle.ante_base.specs.Stops.{OneAnswer, looked, Rises};

use std::marker::Model;

/// Whether a run is to stop, asked again and again while it lasts. Who is lent a stop changes it by `look` alone.
pub trait Stop {
    // What a look may answer, and what it makes of the stop.
    ghost may: { Self → Option ℕ → Self → Type 0 };

    /// How many looks there were, where the stop tells it.
    ghost looks: { Self → Option ℕ };

    /// `Some(moment)` asks the run to stop.
    fn look(&mut self) -> Option<u64>
        ensures answer { may self.old result self.new }
        ensures count { Rises 1 (looks self.old) (looks self.new) };

    // Each look that may be raises the count by one.
    ghost counted: { (old : Self) (answer : Option ℕ) (new : Self) → may old answer new → Rises 1 (looks old) (looks new) };
}

/// Never asks a run to stop, and doesn't tell the count of its looks.
#[derive(Clone, Copy, Debug, PartialEq, Eq)]
pub struct NeverStop;

impl Stop for NeverStop {
    ghost may = { λ old answer new. (answer ≡ None) × (new ≡ old) };

    ghost looks = { λ stop. None };

    fn look(&mut self) -> Option<u64> {
        None
    }

    ghost counted = { λ old answer new may. tt };
}

/// Asks the run to stop at the look of one number, and at no other.
#[derive(Debug, Drop)]
pub struct AtLook {
    number: u64,
    moment: u64,
    looks: u64,
}

impl Model for AtLook {
    ghost use Rattle.ante_base.specs.Stops.{OneAnswer};
    ghost use Rattle.std.specs.Prelude.{◌^◌, ◌<◌, ◌≤◌};

    ghost Value = { OneAnswer };

    ghost view = { λ s. record { number = s.number; moment = s.moment; looks = s.looks } };

    ghost invariant = { λ s. (s.number < 2 ^ 63) × (s.looks ≤ 2 ^ 63) };
}

/// The count of looks stays here, past every number that can be answered.
const MOST_LOOKS: u64 = 1 << 63;

impl AtLook {
    /// Looks are numbered from 0.
    pub fn new(number: u64, moment: u64) -> AtLook
        requires { number < 2 ^ 63 }
        ensures { result ≡ record { number = number; moment = moment; looks = 0 } }
    {
        AtLook {
            number,
            moment,
            looks: 0,
        }
    }

    /// How many looks there were.
    pub fn looks(&self) -> u64
        ensures { result ≡ self.now.looks }
    {
        self.looks
    }
}

impl Stop for AtLook {
    ghost may = { λ old answer new. (answer ≡ (if old.looks == old.number then Some old.moment else None)) ×
        (new ≡ record old { looks = looked old.looks 1 }) };

    ghost looks = { λ stop. Some stop.looks };

    fn look(&mut self) -> Option<u64> {
        let number = self.looks;
        if number < MOST_LOOKS {
            self.looks += 1;
        }
        if number == self.number {
            Some(self.moment)
        } else {
            None
        }
    }

    ghost counted = { λ old answer new may. Prim.cc };
}
