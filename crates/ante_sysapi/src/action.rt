// What a run knows of itself, its action and its transaction, and what it answers.
ghost use Rattle.std.specs.Prelude.{◌≡◌, ◌≤◌, ◌∷◌, [], length};
ghost use Rattle.ante_calls.specs.ActionData as action;
ghost use Rattle.ante_calls.specs.ActionData.{IsPacked};
ghost use Rattle.ante_calls.specs.Calls as calls;
ghost use Rattle.ante_sysapi.specs.Answers.{Says, Tells};
ghost use Rattle.ante_calls.specs.Calls.{long, replies};
ghost use Rattle.ante_wmem.specs.HostCalls.{value};
ghost use Rattle.ante_wmem.specs.Linear.{LinearMemory};

use ante_arguments::{arg32, pay, put, range};
use ante_pack::Bytes;
use ante_types::{Failure, RunContext, read_trx};
use ante_wmem::{HostAnswer, Memory};
use std::alloc::Global;

/// The bytes that a run may answer.
const MOST_RETURN: usize = 65_536;

fn answer(number: u64) -> HostAnswer<Failure>
    ensures { (m : LinearMemory) (left : _) → Tells (λ v. replies (value (long number) v m) left) result m left }
{
    HostAnswer::Value(number)
}

pub(crate) fn current_receiver(run: &RunContext) -> HostAnswer<Failure>
    ensures { (m : LinearMemory) (left : _) → Says (λ v. action.current_receiver v m left) result run.now run.now m left }
{
    answer(run.receiver.0)
}

pub(crate) fn get_sender(run: &RunContext) -> HostAnswer<Failure>
    ensures { (m : LinearMemory) (left : _) → Says (λ v. action.get_sender v m left) result run.now run.now m left }
{
    answer(run.sender.0)
}

pub(crate) fn current_time(run: &RunContext) -> HostAnswer<Failure>
    ensures { (m : LinearMemory) (left : _) → Says (λ v. action.current_time v m left) result run.now run.now m left }
{
    HostAnswer::Value(946_684_800_000_000 + run.slot as u64 * 500_000)
}

pub(crate) fn size(bytes: &[u8]) -> HostAnswer<Failure>
    ensures { (m : LinearMemory) (left : _) → Tells (λ v. action.size bytes.now v m left) result m left }
{
    HostAnswer::Value((bytes.len() % (1 << 32)) as u64)
}

pub(crate) fn action_data_size(run: &RunContext) -> HostAnswer<Failure>
    ensures { (m : LinearMemory) (left : _) → Says (λ v. action.action_data_size v m left) result run.now run.now m left }
{
    HostAnswer::Value((run.action.bytes.len() % (1 << 32)) as u64)
}

// How many bytes there are where n is 0, else the first n of them and their count.
fn shorter(n: u32, bytes: &[u8]) -> (u32, &[u8])
    ensures shorter { (result.0, result.1.now) ≡ calls.shorter n bytes.now }
    ensures within { length result.1.now ≤ n }
{
    if n == 0 {
        return ((bytes.len() % (1 << 32)) as u32, &[]);
    }
    match bytes.split_at_checked(n as usize) {
        Some((front, _)) => (n, front),
        None => (bytes.len() as u32, bytes),
    }
}

/// Copies the bytes out to the range that the arguments name.
pub(crate) fn copy(
    bytes: &[u8],
    args: &[u64],
    memory: &mut Memory,
    left: &mut u64,
) -> HostAnswer<Failure>
    ensures answer { Tells (λ v. action.copy bytes.now v args.now memory.old left.old) result memory.new left.new }
    ensures falls { left.new ≤ left.old }
{
    let Some(_) = range(args, 0, memory) else {
        return HostAnswer::Refused(Failure::BadPointer);
    };
    let (count, front) = shorter(arg32(args, 1), bytes);
    if !pay(left, front.len()) {
        return HostAnswer::StepLimit;
    }
    put(memory, arg32(args, 0), front);
    HostAnswer::Value(u64::from(count))
}

pub(crate) fn read_action_data(
    args: &[u64],
    memory: &mut Memory,
    run: &RunContext,
    left: &mut u64,
) -> HostAnswer<Failure>
    ensures answer { Says (λ v. action.read_action_data v args.now memory.old left.old) result run.now run.now memory.new left.new }
    ensures falls { left.new ≤ left.old }
{
    copy(run.action.bytes.as_slice(), args, memory, left)
}

pub(crate) fn expiration(packed: &[u8], alloc: Global) -> HostAnswer<Failure>
    requires packed { IsPacked packed.now }
    ensures { (m : LinearMemory) (left : _) → Tells (λ v. action.expiration packed.now v m left) result m left }
{
    match read_trx(alloc, packed) {
        Ok(transaction) => HostAnswer::Value(u64::from(transaction.expiration)),
        Err(_) => HostAnswer::OutOfMemory,
    }
}

pub(crate) fn tapos_block_num(packed: &[u8], alloc: Global) -> HostAnswer<Failure>
    requires packed { IsPacked packed.now }
    ensures { (m : LinearMemory) (left : _) → Tells (λ v. action.tapos_block_num packed.now v m left) result m left }
{
    match read_trx(alloc, packed) {
        Ok(transaction) => HostAnswer::Value(u64::from(transaction.ref_block_num)),
        Err(_) => HostAnswer::OutOfMemory,
    }
}

pub(crate) fn tapos_block_prefix(packed: &[u8], alloc: Global) -> HostAnswer<Failure>
    requires packed { IsPacked packed.now }
    ensures { (m : LinearMemory) (left : _) → Tells (λ v. action.tapos_block_prefix packed.now v m left) result m left }
{
    match read_trx(alloc, packed) {
        Ok(transaction) => HostAnswer::Value(u64::from(transaction.ref_block_prefix)),
        Err(_) => HostAnswer::OutOfMemory,
    }
}

pub(crate) fn set_action_return_value(
    args: &[u64],
    memory: &Memory,
    run: &mut RunContext,
    alloc: Global,
    left: &mut u64,
) -> HostAnswer<Failure>
    ensures answer { Says (λ v. action.set_action_return_value v args.now memory.now left.old) result run.old run.new memory.now left.new }
    ensures falls { left.new ≤ left.old }
    ensures mode { run.new.mode ≡ run.old.mode }
{
    let Some(bytes) = range(args, 0, memory) else {
        return HostAnswer::Refused(Failure::BadPointer);
    };
    if !pay(left, bytes.len()) {
        return HostAnswer::StepLimit;
    }
    if bytes.len() > MOST_RETURN {
        return HostAnswer::Refused(Failure::ReturnTooLong);
    }
    match Bytes::from_slice(alloc, bytes) {
        Ok(bytes) => {
            run.return_value = bytes;
            HostAnswer::Nothing
        }
        Err(_) => HostAnswer::OutOfMemory,
    }
}
