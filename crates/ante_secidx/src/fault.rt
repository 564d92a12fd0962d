ghost use Rattle.std.specs.Prelude.{◌≡◌};
ghost use Rattle.ante_secidx.specs.declared.fault.SecFault.TheVariants.{OutOfMemory};

use std::alloc::AllocError;
use thiserror::Error;

/// Why a row isn't written.
#[derive(Clone, Copy, Debug, PartialEq, Eq, Error)]
pub enum SecFault {
    #[error("out of memory")]
    OutOfMemory,
    /// The table has a row with the primary key already.
    #[error("the row is there already")]
    KeyExists,
    /// The table has no row with the primary key.
    #[error("the row is not there")]
    Missing,
}

impl From<AllocError> for SecFault {
    ghost from_gives = { λ _ e. e ≡ OutOfMemory };

    fn from(_: AllocError) -> SecFault {
        SecFault::OutOfMemory
    }
}
