//! Kept blocks as a tree above genesis, and which of its branches is the head's.
#![tactic(auto)]

ghost use Rattle.std.specs.Prelude.{◌≡◌};
ghost use Rattle.ante_fork.specs.declared.AddError.TheVariants.{OutOfMemory};

mod agreement;
mod genesis;
mod kept;
mod node;
mod settling;
mod tree;
mod walks;

pub use genesis::genesis_head;
use std::alloc::{AllocError, AllocFailed};
pub use tree::{ForkPath, ForkTree};

/// Why a block isn't kept.
#[derive(Clone, Copy, Debug, PartialEq, Eq)]
pub enum AddError {
    OutOfMemory,
    /// A kept block has its id.
    Known,
    /// Its predecessor isn't kept, or has the last number.
    Unlinkable { previous: ante_pack::Digest },
    /// Its receipts don't have its root.
    BadRoot,
    /// Its slot isn't above its predecessor's.
    BadSlot,
    /// Its slot is another producer's.
    BadProducer,
}

impl From<AllocError> for AddError {
    ghost from_gives = { λ _ e. e ≡ OutOfMemory };

    fn from(_refused: AllocError) -> AddError {
        AddError::OutOfMemory
    }
}

impl<T: Drop> From<AllocFailed<T>> for AddError {
    ghost from_gives = { λ _ e. e ≡ OutOfMemory };

    fn from(_refused: AllocFailed<T>) -> AddError {
        AddError::OutOfMemory
    }
}
