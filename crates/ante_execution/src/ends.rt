ghost use Rattle.std.specs.Prelude.{◌≡◌};
ghost use Rattle.ante_execution.specs.declared.ends.ApplyEnd.TheVariants as apply;
ghost use Rattle.ante_execution.specs.declared.ends.GenesisFault.TheVariants as genesis;
ghost use Rattle.ante_execution.specs.declared.ends.NativeFault.TheVariants as native;

use ante_pack::{Level, Name};
use ante_types::Failure;
use std::alloc::AllocError;
use thiserror::Error;

/// Why an action may not be sent.
#[derive(Clone, Copy, Debug, PartialEq, Eq, Error)]
pub enum AuthFault {
    #[error("out of memory")]
    OutOfMemory,
    /// The action's account isn't there.
    #[error("unknown account")]
    UnknownAccount { name: Name },
    /// The permission isn't there, or isn't satisfied.
    #[error("missing authority")]
    MissingAuth { level: Level },
    /// The permission is neither what the action asks for nor above it.
    #[error("irrelevant authority")]
    Irrelevant { level: Level },
    /// More permissions would have to be visited than may be.
    #[error("too many permissions to visit")]
    AuthWork,
}

/// Why a native action isn't done.
#[derive(Debug, Drop, Error)]
pub enum NativeFault {
    #[error("out of memory")]
    OutOfMemory,
    #[error("native action failed")]
    Failed(Failure),
}

impl From<AllocError> for NativeFault {
    ghost from_gives = { λ _ e. e ≡ native.OutOfMemory };

    fn from(_: AllocError) -> NativeFault {
        NativeFault::OutOfMemory
    }
}

/// Why an action ended before it was done.
#[derive(Debug, Drop, Error)]
pub enum ApplyEnd {
    #[error("out of memory")]
    OutOfMemory,
    #[error("action failed")]
    Failed(Failure),
    /// A look asked it to stop, and told this moment.
    #[error("cut at {at}")]
    Cut { at: u64 },
}

impl From<AllocError> for ApplyEnd {
    ghost from_gives = { λ _ e. e ≡ apply.OutOfMemory };

    fn from(_: AllocError) -> ApplyEnd {
        ApplyEnd::OutOfMemory
    }
}

/// Why a genesis isn't one: the first of these that holds.
#[derive(Clone, Copy, Debug, PartialEq, Eq, Error)]
pub enum GenesisFault {
    #[error("out of memory")]
    OutOfMemory,
    #[error("unknown version {found}")]
    Version { found: u32 },
    /// None or more than 21 producers, two the same, or one without a name.
    #[error("bad list of producers")]
    Producers,
    /// The accounts don't rise by their numbers.
    #[error("accounts out of order")]
    AccountOrder,
    /// The system's account isn't there.
    #[error("no account of the system")]
    NoSystem,
    #[error("bad authority")]
    BadAuthority { account: Name },
    #[error("bad code")]
    BadCode { account: Name },
}

impl From<AllocError> for GenesisFault {
    ghost from_gives = { λ _ e. e ≡ genesis.OutOfMemory };

    fn from(_: AllocError) -> GenesisFault {
        GenesisFault::OutOfMemory
    }
}
