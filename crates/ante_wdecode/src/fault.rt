ghost use Rattle.std.specs.Prelude.{◌≡◌, ◌+◌, ◌<◌, ◌^◌, length};
ghost use Rattle.ante_wdecode.specs.Rules.{misfit_of, answered, left_of, moved_as};
ghost use Rattle.ante_wdecode.specs.declared.fault.Unread.TheVariants.{OutOfMemory};

use std::alloc::{AllocError, AllocFailed};
use thiserror::Error;

/// What is wrong with the bytes of a module.
#[derive(Clone, Copy, PartialEq, Eq, Debug, Error)]
pub enum DecodeKind {
    /// Not the magic or the version.
    #[error("not the magic or the version")]
    Magic,
    /// An unknown, repeated or misplaced section, or one whose contents don't end at its size.
    #[error("malformed section")]
    Section,
    /// An integer of too many bytes, or with bits that its width doesn't have.
    #[error("malformed integer")]
    Leb,
    /// A byte that is no opcode.
    #[error("unknown opcode")]
    Opcode,
    /// A floating-point opcode or kind.
    #[error("floating-point opcode or type")]
    Float,
    /// A name that isn't UTF-8.
    #[error("name that is not UTF-8")]
    Utf8,
    /// Another byte that the grammar doesn't have in its place, or counts that differ.
    #[error("unexpected byte or count")]
    Form,
    /// Fewer bytes than the magic, the version, a section's size or its contents take.
    #[error("unexpected end")]
    Short,
    /// More than the profile allows.
    #[error("limit exceeded")]
    Limit,
}

/// Why a module can't be read: the first fault, at the first byte of its item. An item that goes past its section's end is
/// at fault as `Section`, at the section's number, and one that goes past its body's end as `Form`, where it begins.
#[derive(Clone, Copy, PartialEq, Eq, Debug, Error)]
pub enum DecodeError {
    #[error("out of memory")]
    OutOfMemory,
    #[error("{kind} at byte {at}")]
    Fault { at: usize, kind: DecodeKind },
}

/// Why a part of a module can't be read. The item at fault begins with the last `left` bytes.
#[derive(Clone, Copy, PartialEq, Eq, Debug)]
pub enum Unread {
    OutOfMemory,
    /// The bytes end within the item.
    Ended { left: usize },
    Fault { left: usize, kind: DecodeKind },
}

impl From<AllocError> for Unread {
    ghost from_gives = { λ _ e. e ≡ OutOfMemory };

    fn from(_: AllocError) -> Unread {
        Unread::OutOfMemory
    }
}

impl<T: Drop> From<AllocFailed<T>> for Unread {
    ghost from_gives = { λ _ e. e ≡ OutOfMemory };

    fn from(_: AllocFailed<T>) -> Unread {
        Unread::OutOfMemory
    }
}

/// A fault at the front of the bytes.
pub fn fault(bytes: &[u8], kind: DecodeKind) -> Unread
    ensures { result ≡ Unread.Fault (length bytes.now) kind }
{
    Unread::Fault {
        left: bytes.len(),
        kind,
    }
}

/// The bytes end within the item at their front.
pub fn ended(bytes: &[u8]) -> Unread
    ensures { result ≡ Unread.Ended (length bytes.now) }
{
    Unread::Ended { left: bytes.len() }
}

/// An item that doesn't fit its part: of a function at its place, and of a section at the section's number, before that
/// many last bytes.
pub fn misfit(section: Option<usize>, left: usize) -> Unread
    ensures { result ≡ answered (misfit_of section left) }
{
    match section {
        Some(whole) => Unread::Fault {
            left: whole,
            kind: DecodeKind::Section,
        },
        None => Unread::Fault {
            left,
            kind: DecodeKind::Form,
        },
    }
}

/// A fault within a part, after which so many more bytes stand.
pub fn moved(section: Option<usize>, more: usize, why: Unread) -> Unread
    requires { left_of why + more < 2 ^ 63 }
    ensures { result ≡ moved_as section more why }
{
    match why {
        Unread::OutOfMemory => Unread::OutOfMemory,
        Unread::Ended { left } => misfit(section, left + more),
        Unread::Fault { left, kind } => Unread::Fault {
            left: left + more,
            kind,
        },
    }
}
