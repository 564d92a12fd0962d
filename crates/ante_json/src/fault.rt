ghost use Rattle.std.specs.Prelude.{◌≡◌};
ghost use Rattle.ante_json.specs.declared.fault.BodyError.TheVariants.{OutOfMemory};

use ante_http::HeadKind;
use ante_types::Label;
use std::alloc::{AllocError, AllocFailed};

/// What of a body is at fault. A field is its name.
#[derive(Debug, Drop)]
pub enum BodyKind {
    /// The body isn't UTF-8, isn't JSON, nests too deep, or is no object.
    NotJson,
    Missing { field: Label },
    /// Another kind of value, or one out of its range.
    Wrong { field: Label },
    /// A text that isn't hex of whole bytes.
    NotHex { field: Label },
    Compressed,
    ContextFree,
    /// The packed value has a fault at this byte of it, from 0.
    Packed { at: u64 },
}

/// Why a body isn't read.
#[derive(Debug, Drop)]
pub enum BodyError {
    OutOfMemory,
    BadBody(BodyKind),
}

impl From<AllocError> for BodyError {
    ghost from_gives = { λ _ e. e ≡ OutOfMemory };

    fn from(_: AllocError) -> BodyError {
        BodyError::OutOfMemory
    }
}

impl<T: Drop> From<AllocFailed<T>> for BodyError {
    ghost from_gives = { λ _ e. e ≡ OutOfMemory };

    fn from(_: AllocFailed<T>) -> BodyError {
        BodyError::OutOfMemory
    }
}

/// Why a block is refused.
#[derive(Clone, Copy, Debug, PartialEq, Eq)]
pub enum Refused {
    Known,
    Unlinkable,
    BadRoot,
    BadSlot,
    BadProducer,
    BadSeal,
    /// A transaction of it, or its seal, fails; the code is the failure's.
    Invalid { code: u16 },
}

/// Why a request isn't answered.
#[derive(Debug, Drop)]
pub enum ApiFault {
    OutOfMemory,
    /// Of a body that is too large it is `TooLarge`.
    BadHead(HeadKind),
    BadBody(BodyKind),
    UnknownPath,
    UnknownBlock,
    UnknownAccount,
    TooLarge { length: u64 },
    /// The caller has seen this position, and the last one is `last`.
    Ahead { seen: u64, last: u64 },
    NotProducing,
    Push(Refused),
}
