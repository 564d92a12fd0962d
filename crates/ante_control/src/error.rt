ghost use Rattle.std.specs.Prelude.{◌≡◌};
ghost use Rattle.ante_control.specs.Errors.{pushed_error};

use ante_fork::AddError;
use ante_pack::Digest;

/// What an accepted block does.
#[derive(Clone, Copy, Debug, PartialEq, Eq)]
pub enum Pushed {
    /// It is the head, at this place of the applied list.
    Head { position: u64 },
    /// It is kept, and its branch isn't longer than the head's.
    Kept,
}

/// Why a block is refused.
#[derive(Clone, Copy, Debug, PartialEq, Eq)]
pub enum PushError {
    OutOfMemory,
    /// A kept block has its id.
    Known,
    /// Its predecessor isn't kept, or has the last number.
    Unlinkable { previous: Digest },
    /// Its receipts don't have its root.
    BadRoot,
    /// Its slot isn't above its predecessor's.
    BadSlot,
    /// Its slot is another producer's.
    BadProducer,
    /// Its seal isn't its producer's.
    BadSeal,
    /// The first block of its branch that fails, and the failure's number.
    Invalid { block: Digest, code: u16 },
}

impl From<AddError> for PushError {
    ghost from_gives = { λ refused e. e ≡ pushed_error refused };

    fn from(refused: AddError) -> PushError {
        match refused {
            AddError::OutOfMemory => PushError::OutOfMemory,
            AddError::Known => PushError::Known,
            AddError::Unlinkable { previous } => PushError::Unlinkable { previous },
            AddError::BadRoot => PushError::BadRoot,
            AddError::BadSlot => PushError::BadSlot,
            AddError::BadProducer => PushError::BadProducer,
        }
    }
}
