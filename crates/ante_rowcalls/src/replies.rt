// How a call shows what it came to.
ghost use Rattle.std.specs.Prelude.{◌≡◌, ℕ, ◌≤◌, length, true, Ok, IsTrue};
ghost use Rattle.ante_calls.specs.Calls.{word, replies};
ghost use Rattle.ante_calls.specs.PrimaryCalls.{got};
ghost use Rattle.ante_calls.specs.RowReplies.{iterator_and_primary};
ghost use Rattle.ante_calls.specs.Views.{RowView};
ghost use Rattle.ante_rowcalls.specs.RowCalls.{AnswersRow, ShowsFault, ShowsFound};
ghost use Rattle.ante_types.specs.Labels.{is_label};
ghost use Rattle.ante_wmem.specs.Linear.{is_inside};

use ante_arguments::{pay, put};
use ante_calls::DbFault;
use ante_types::{Failure, Label};
use ante_wmem::{HostAnswer, Memory};
use std::alloc::Global;

/// An iterator as an i32.
pub fn word_of(it: i32) -> u64
    ensures { result ≡ word it }
{
    it.cast_unsigned() as u64
}

fn write_refused(alloc: Global, name: &[u8]) -> HostAnswer<Failure>
    requires { IsTrue (is_label name.now) }
    ensures { ShowsFault name.now DbFault.WriteRefused result }
{
    match Label::new(alloc, name) {
        Ok(intrinsic) => HostAnswer::Refused(Failure::WriteRefused { intrinsic }),
        Err(_) => HostAnswer::OutOfMemory,
    }
}

/// The failure of a call of this name.
pub fn refused(alloc: Global, name: &[u8], fault: DbFault) -> HostAnswer<Failure>
    requires { IsTrue (is_label name.now) }
    ensures { ShowsFault name.now fault result }
{
    let failure = match fault {
        DbFault::OutOfMemory => return HostAnswer::OutOfMemory,
        DbFault::WriteRefused => return write_refused(alloc, name),
        DbFault::BadIterator { value } => Failure::BadIterator { value },
        DbFault::KeyExists { primary } => Failure::KeyExists { primary },
        DbFault::NotOwner { code } => Failure::NotOwner { code },
        DbFault::BadPayer { account } => Failure::BadPayer { account },
        DbFault::UnknownAccount { name } => Failure::UnknownAccount { name },
        DbFault::RamTotal => Failure::RamTotal,
    };
    HostAnswer::Refused(failure)
}

/// What a search found. It is never refused.
pub fn found(answer: Result<i32, DbFault>) -> HostAnswer<Failure>
    ensures { ShowsFound answer result }
{
    match answer {
        Ok(it) => HostAnswer::Value(word_of(it)),
        Err(_) => HostAnswer::OutOfMemory,
    }
}

/// A neighbour's iterator, with its primary key at this address of the memory, where it has one.
pub fn neighbour(memory: &mut Memory, at: u32, met: (i32, Option<u64>)) -> HostAnswer<Failure>
    requires { is_inside memory.old.bytes at 8 ≡ true }
    ensures { (old v : RowView) (left : ℕ) → AnswersRow (replies (iterator_and_primary at memory.old met v) left) result old v memory.new left }
{
    let (it, primary) = met;
    if let Some(primary) = primary {
        put(memory, at, &primary.to_le_bytes());
    }
    HostAnswer::Value(word_of(it))
}

/// The size that a row's bytes are told by, with these of them at this address. They are paid for.
pub(crate) fn copied(
    memory: &mut Memory,
    at: u32,
    size: u32,
    bytes: &[u8],
    left: &mut u64,
) -> HostAnswer<Failure>
    requires { is_inside memory.old.bytes at (length bytes.now) ≡ true }
    ensures answer { (v : RowView) → AnswersRow (got (Ok ((size, bytes.now), v)) at memory.old left.old) result v v memory.new left.new }
    ensures falls { left.new ≤ left.old }
{
    if !pay(left, bytes.len()) {
        return HostAnswer::StepLimit;
    }
    put(memory, at, bytes);
    HostAnswer::Value(size as u64)
}
