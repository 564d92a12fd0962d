// The actions that a run sends.
ghost use Rattle.std.specs.Prelude.{◌≡◌, ◌≤◌, ℕ, Ok};
ghost use Rattle.ante_calls.specs.Authorization as auth;
ghost use Rattle.ante_calls.specs.Calls.{replies};
ghost use Rattle.ante_sysapi.specs.Answers.{Answers, view};
ghost use Rattle.ante_wmem.specs.Linear.{LinearMemory};

use crate::accounts::is_account;
use ante_arguments::{pay, range};
use ante_pack::{PackFault, ReadFault};
use ante_store::Tables;
use ante_types::{Action, Failure, RunContext, read_action};
use ante_wmem::{HostAnswer, Memory};
use std::alloc::Global;

/// An action at this depth can't send another.
const MOST_DEPTH: u8 = 4;

fn place_of(fault: PackFault) -> u64
    ensures { result ≡ auth.place_of fault }
{
    match fault {
        PackFault::Short { at } => at as u64,
        PackFault::LongVaruint { at } => at as u64,
        PackFault::KeyKind { at } => at as u64,
        PackFault::Trailing { at } => at as u64,
    }
}

fn sending_refusal<T: Tables>(action: &Action, run: &RunContext, tables: &T) -> Option<Failure>
    ensures { result ≡ auth.sending_refusal action.now (view (T.stack tables.now).top run.now) }
{
    if run.depth >= MOST_DEPTH {
        return Some(Failure::InlineDepth);
    }
    let name = action.account;
    if !is_account(tables, name) {
        return Some(Failure::UnknownAccount { name });
    }
    None
}

fn send<T: Tables>(
    action: Action,
    run: &mut RunContext,
    tables: &T,
    alloc: Global,
) -> HostAnswer<Failure>
    ensures answer { (m : LinearMemory) (left : ℕ) → Answers (λ v. replies (auth.sent (Ok action) v m) left) result
        (view (T.stack tables.now).top run.old) (view (T.stack tables.now).top run.new) m left }
    ensures mode { run.new.mode ≡ run.old.mode }
{
    if let Some(failure) = sending_refusal(&action, run, tables) {
        return HostAnswer::Refused(failure);
    }
    match run.inlines.push(alloc, action) {
        Ok(()) => HostAnswer::Nothing,
        Err(_) => HostAnswer::OutOfMemory,
    }
}

pub(crate) fn send_inline<T: Tables>(
    args: &[u64],
    memory: &Memory,
    run: &mut RunContext,
    tables: &T,
    alloc: Global,
    left: &mut u64,
) -> HostAnswer<Failure>
    ensures answer { Answers (λ v. auth.send_inline v args.now memory.now left.old) result
        (view (T.stack tables.now).top run.old) (view (T.stack tables.now).top run.new) memory.now left.new }
    ensures falls { left.new ≤ left.old }
    ensures mode { run.new.mode ≡ run.old.mode }
{
    let Some(bytes) = range(args, 0, memory) else {
        return HostAnswer::Refused(Failure::BadPointer);
    };
    if !pay(left, bytes.len()) {
        return HostAnswer::StepLimit;
    }
    match read_action(alloc, bytes) {
        Ok(action) => send(action, run, tables, alloc),
        Err(ReadFault::OutOfMemory) => HostAnswer::OutOfMemory,
        Err(ReadFault::Pack(fault)) => {
            let at = place_of(fault);
            HostAnswer::Refused(Failure::DataFault { at })
        }
    }
}
