ghost use Rattle.std.specs.Prelude.{◌≡◌};
ghost use Rattle.ante_pack.specs.declared.fault.ReadFault.TheVariants.{OutOfMemory, Pack};

use std::alloc::{AllocError, AllocFailed};
use std::error::Error;
use std::fmt;

/// Why packed bytes can't be read: the first fault from left to right, at the place `at`, which counts bytes from 0.
#[derive(Clone, Copy, Debug, PartialEq, Eq)]
pub enum PackFault {
    /// The field that begins at `at` doesn't fit in the bytes.
    Short { at: usize },
    /// The varuint that begins at `at` isn't the shortest spelling of a number below 2^32.
    LongVaruint { at: usize },
    /// The key that begins at `at` has a kind byte other than 0 and 1.
    KeyKind { at: usize },
    /// The value is over at `at`, and bytes are left.
    Trailing { at: usize },
}

/// Why a value can't be read.
#[derive(Clone, Copy, Debug, PartialEq, Eq)]
pub enum ReadFault {
    OutOfMemory,
    Pack(PackFault),
}

impl fmt::Display for PackFault {
    fn fmt<W: fmt::Write>(&self, f: &mut fmt::Formatter<W>) -> fmt::Result {
        match self {
            PackFault::Short { at } => write!(f, "the field at byte {at} doesn't fit"),
            PackFault::LongVaruint { at } => write!(
                f,
                "the varuint at byte {at} isn't the shortest spelling of a number of 32 bits"
            ),
            PackFault::KeyKind { at } => write!(f, "the key at byte {at} is of no known kind"),
            PackFault::Trailing { at } => write!(f, "the value ends before byte {at}"),
        }
    }
}

impl Error for PackFault {}

impl fmt::Display for ReadFault {
    fn fmt<W: fmt::Write>(&self, f: &mut fmt::Formatter<W>) -> fmt::Result {
        match self {
            ReadFault::OutOfMemory => f.write_str("out of memory"),
            ReadFault::Pack(fault) => write!(f, "{fault}"),
        }
    }
}

impl Error for ReadFault {}

impl From<AllocError> for ReadFault {
    ghost from_gives = { λ _ e. e ≡ OutOfMemory };

    fn from(_: AllocError) -> ReadFault {
        ReadFault::OutOfMemory
    }
}

impl<T: Drop> From<AllocFailed<T>> for ReadFault {
    ghost from_gives = { λ _ e. e ≡ OutOfMemory };

    fn from(_: AllocFailed<T>) -> ReadFault {
        ReadFault::OutOfMemory
    }
}

impl From<PackFault> for ReadFault {
    ghost from_gives = { λ fault e. e ≡ Pack fault };

    fn from(fault: PackFault) -> ReadFault {
        ReadFault::Pack(fault)
    }
}
