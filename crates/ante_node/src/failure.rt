ghost use Rattle.std.specs.Prelude.{◌≡◌};
ghost use Rattle.ante_node.specs.declared.failure.AnswerFailure.TheVariants as failures;
ghost use Rattle.ante_node.specs.Requests.{of_pack, of_source};

use crate::fault::{InputFault, InputKind};
use ante_base::ReadFailure;
use ante_pack::{PackFault, ReadFault};
use std::alloc::AllocError;

/// Why a command has no answer to its input.
#[derive(Clone, Copy, Debug, PartialEq, Eq)]
pub enum AnswerFailure {
    OutOfMemory,
    SourceFault,
    Input(InputFault),
}

impl From<AllocError> for AnswerFailure {
    ghost from_gives = { λ _ failure. failure ≡ failures.OutOfMemory };

    fn from(_: AllocError) -> AnswerFailure {
        AnswerFailure::OutOfMemory
    }
}

impl From<ReadFailure> for AnswerFailure {
    ghost from_gives = { λ read failure. failure ≡ of_source read };

    fn from(read: ReadFailure) -> AnswerFailure {
        match read {
            ReadFailure::OutOfMemory => AnswerFailure::OutOfMemory,
            ReadFailure::Failed => AnswerFailure::SourceFault,
        }
    }
}

impl From<InputFault> for AnswerFailure {
    ghost from_gives = { λ fault failure. failure ≡ failures.Input fault };

    fn from(fault: InputFault) -> AnswerFailure {
        AnswerFailure::Input(fault)
    }
}

impl From<ReadFault> for AnswerFailure {
    ghost from_gives = { λ read failure. failure ≡ of_pack read };

    fn from(read: ReadFault) -> AnswerFailure {
        let (at, kind) = match read {
            ReadFault::OutOfMemory => return AnswerFailure::OutOfMemory,
            ReadFault::Pack(PackFault::Short { at }) => (at, InputKind::Short),
            ReadFault::Pack(PackFault::LongVaruint { at }) => (at, InputKind::Varuint),
            ReadFault::Pack(PackFault::KeyKind { at }) => (at, InputKind::KeyKind),
            ReadFault::Pack(PackFault::Trailing { at }) => (at, InputKind::Trailing),
        };
        AnswerFailure::Input(InputFault {
            at: at as u64,
            kind,
        })
    }
}
