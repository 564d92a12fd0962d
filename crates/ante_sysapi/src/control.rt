// Calls that end a run.
ghost use Rattle.std.specs.Prelude.{◌≡◌, ◌≤◌};
ghost use Rattle.ante_calls.specs.Control as control;
ghost use Rattle.ante_sysapi.specs.Answers.{Tells};
ghost use Rattle.ante_wmem.specs.Linear.{LinearMemory};

use crate::text::text;
use ante_arguments::{arg, arg32, first, pay, range};
use ante_pack::Bytes;
use ante_types::Failure;
use ante_wmem::{HostAnswer, Memory};
use std::alloc::Global;

/// An assertion's message is cut there.
const MOST_MESSAGE: usize = 1024;

pub(crate) fn eosio_assert(
    args: &[u64],
    memory: &Memory,
    alloc: Global,
    left: &mut u64,
) -> HostAnswer<Failure>
    ensures answer { Tells (λ v. control.eosio_assert v args.now memory.now left.old) result memory.now left.new }
    ensures falls { left.new ≤ left.old }
{
    if arg32(args, 0) != 0 {
        return HostAnswer::Nothing;
    }
    let Some(message) = text(args, 1, memory) else {
        return HostAnswer::Refused(Failure::BadPointer);
    };
    if !pay(left, message.len()) {
        return HostAnswer::StepLimit;
    }
    match Bytes::from_slice(alloc, first(message, MOST_MESSAGE)) {
        Ok(message) => HostAnswer::Refused(Failure::Assert { message }),
        Err(_) => HostAnswer::OutOfMemory,
    }
}

pub(crate) fn eosio_assert_message(
    args: &[u64],
    memory: &Memory,
    alloc: Global,
    left: &mut u64,
) -> HostAnswer<Failure>
    ensures answer { Tells (λ v. control.eosio_assert_message v args.now memory.now left.old) result memory.now left.new }
    ensures falls { left.new ≤ left.old }
{
    if arg32(args, 0) != 0 {
        return HostAnswer::Nothing;
    }
    let Some(message) = range(args, 1, memory) else {
        return HostAnswer::Refused(Failure::BadPointer);
    };
    if !pay(left, message.len()) {
        return HostAnswer::StepLimit;
    }
    match Bytes::from_slice(alloc, first(message, MOST_MESSAGE)) {
        Ok(message) => HostAnswer::Refused(Failure::Assert { message }),
        Err(_) => HostAnswer::OutOfMemory,
    }
}

pub(crate) fn eosio_assert_code(args: &[u64]) -> HostAnswer<Failure>
    ensures { (m : LinearMemory) (left : _) → Tells (λ v. control.eosio_assert_code v args.now m left) result m left }
{
    if arg32(args, 0) != 0 {
        return HostAnswer::Nothing;
    }
    HostAnswer::Refused(Failure::AssertCode { code: arg(args, 1) })
}
