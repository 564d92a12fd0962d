ghost use Rattle.std.specs.Prelude.{◌≡◌};
ghost use Rattle.ante_modcache.specs.declared.fault.ModuleError.TheVariants.{OutOfMemory};
ghost use Rattle.ante_modcache.specs.Modules.{of_decoding, of_validation};

use ante_wdecode::{DecodeError, DecodeKind};
use ante_wvalid::{InvalidKind, ValidateError};
use std::alloc::{AllocError, AllocFailed};
use thiserror::Error;

/// What is wrong with a code.
#[derive(Clone, Copy, PartialEq, Eq, Debug, Error)]
pub enum CodeFault {
    /// It encodes no module: the first fault in reading order.
    #[error("{kind} at byte {at}")]
    Decode { at: usize, kind: DecodeKind },
    /// The module that it encodes isn't valid: the first kind that is wrong with it.
    #[error(transparent)]
    Invalid(InvalidKind),
}

/// Why a code has no module.
#[derive(Clone, Copy, PartialEq, Eq, Debug, Error)]
pub enum ModuleError {
    #[error("out of memory")]
    OutOfMemory,
    #[error(transparent)]
    BadCode(CodeFault),
}

impl From<AllocError> for ModuleError {
    ghost from_gives = { λ _ e. e ≡ OutOfMemory };

    fn from(_: AllocError) -> ModuleError {
        ModuleError::OutOfMemory
    }
}

impl<T: Drop> From<AllocFailed<T>> for ModuleError {
    ghost from_gives = { λ _ e. e ≡ OutOfMemory };

    fn from(_: AllocFailed<T>) -> ModuleError {
        ModuleError::OutOfMemory
    }
}

impl From<DecodeError> for ModuleError {
    ghost from_gives = { λ why e. e ≡ of_decoding why };

    fn from(why: DecodeError) -> ModuleError {
        match why {
            DecodeError::OutOfMemory => ModuleError::OutOfMemory,
            DecodeError::Fault { at, kind } => {
                ModuleError::BadCode(CodeFault::Decode { at, kind })
            }
        }
    }
}

impl From<ValidateError> for ModuleError {
    ghost from_gives = { λ why e. e ≡ of_validation why };

    fn from(why: ValidateError) -> ModuleError {
        match why {
            ValidateError::OutOfMemory => ModuleError::OutOfMemory,
            ValidateError::Invalid(kind) => ModuleError::BadCode(CodeFault::Invalid(kind)),
        }
    }
}
