ghost use Rattle.std.specs.Prelude.{◌≡◌};
ghost use Rattle.ante_base.specs.declared.failure.ReadFailure.TheVariants.{OutOfMemory};

use std::alloc::AllocError;
use std::error::Error;
use std::fmt;

/// Why reading stopped before its end.
#[derive(Clone, Copy, Debug, PartialEq, Eq)]
pub enum ReadFailure {
    /// There was no room for what was read.
    OutOfMemory,
    /// A read of the source failed.
    Failed,
}

impl fmt::Display for ReadFailure {
    fn fmt<W: fmt::Write>(&self, f: &mut fmt::Formatter<W>) -> fmt::Result {
        match self {
            ReadFailure::OutOfMemory => write!(f, "out of memory"),
            ReadFailure::Failed => write!(f, "a read failed"),
        }
    }
}

impl Error for ReadFailure {}

impl From<AllocError> for ReadFailure {
    ghost from_gives = { λ _ failure. failure ≡ OutOfMemory };

    fn from(_: AllocError) -> ReadFailure {
        ReadFailure::OutOfMemory
    }
}

/// A write of the sink failed before all bytes were written.
#[derive(Clone, Copy, Debug, PartialEq, Eq)]
pub struct SinkFailed;

impl fmt::Display for SinkFailed {
    fn fmt<W: fmt::Write>(&self, f: &mut fmt::Formatter<W>) -> fmt::Result {
        write!(f, "a write failed")
    }
}

impl Error for SinkFailed {}
