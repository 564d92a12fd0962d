ghost use Rattle.std.specs.Prelude.{◌≡◌, ◌++◌, ◌∷◌, [], OnOk, OnErr};

use ante_journal::{NodeEvent, Waiting};
use std::alloc::{AllocError, AllocFailed};

/// Why a run ends early.
#[derive(Clone, Copy, Debug, PartialEq, Eq)]
pub enum Stop {
    JournalFull,
    OutOfMemory,
}

impl From<AllocError> for Stop {
    ghost use Rattle.std.specs.Prelude.{◌≡◌};
    ghost use Rattle.ante_driver.specs.declared.front.Stop.{Stop};

    ghost from_gives = { λ error stop. stop ≡ Stop.OutOfMemory };

    fn from(_error: AllocError) -> Stop {
        Stop::OutOfMemory
    }
}

impl<T: Drop> From<AllocFailed<T>> for Stop {
    ghost use Rattle.std.specs.Prelude.{◌≡◌};
    ghost use Rattle.ante_driver.specs.declared.front.Stop.{Stop};

    ghost from_gives = { λ error stop. stop ≡ Stop.OutOfMemory };

    fn from(_error: AllocFailed<T>) -> Stop {
        Stop::OutOfMemory
    }
}

/// A link as the driver keeps it, at the place of its number.
#[derive(Debug, Drop)]
pub struct Slot {
    /// What was read and isn't taken.
    pub held: Vec<u8>,
    /// What isn't written of its last reply.
    pub output: Vec<u8>,
    pub is_open: bool,
    /// Whether it closes after its last reply.
    pub is_last: bool,
}

/// What the driver keeps beside chain and links.
#[derive(Debug, Drop)]
pub struct Front {
    pub slots: Vec<Slot>,
    pub queue: Vec<Waiting>,
    pub turn: u64,
    /// Whether a request was taken in this turn.
    pub took: bool,
    pub journal: Vec<NodeEvent>,
}

/// The most events of a journal.
const MOST_EVENTS: usize = 8_388_608;

/// Notes an event.
pub fn note(journal: &mut Vec<NodeEvent>, event: NodeEvent) -> Result<(), Stop>
    ensures ok { OnOk result (journal.new.items ≡ journal.old.items ++ event ∷ []) }
    ensures err { OnErr result (journal.new.items ≡ journal.old.items) }
{
    if journal.as_slice().len() >= MOST_EVENTS {
        return Err(Stop::JournalFull);
    }
    journal.push(event)?;
    Ok(())
}
