// The calls that go from row to row, and the one that gives a row's bytes.
ghost use Rattle.std.specs.Prelude.{◌≡◌, ℕ, ◌≤◌, ◌+◌, ◌<◌, ◌^◌, length};
ghost use Rattle.ante_calls.specs.PrimaryCalls as definitions;
ghost use Rattle.ante_calls.specs.RowAnswers.{view_of};
ghost use Rattle.ante_rowcalls.specs.RowCalls.{AnswersRow};

use crate::replies::{copied, neighbour, refused};
use ante_arguments::{arg32, bytes_from, range, signed_arg};
use ante_dbapi::{db_get_i64, db_next_i64, db_previous_i64};
use ante_itercache::Iters;
use ante_store::Tables;
use ante_types::{Failure, RunContext};
use ante_wmem::{HostAnswer, Memory};
use std::alloc::Global;

/// The bytes of a primary key.
const KEY_SIZE: u32 = 8;

pub(crate) fn next<T: Tables>(
    args: &[u64],
    memory: &mut Memory,
    run: &RunContext,
    iters: &mut Iters,
    tables: &mut T,
    alloc: Global,
) -> HostAnswer<Failure>
    requires room_for_table { length iters.old.tables + 1 < 2 ^ 31 }
    requires room_for_row { length iters.old.rows < 2 ^ 31 }
    ensures answer { (left : ℕ) → AnswersRow (definitions.db_next_i64 (view_of (T.stack tables.old) iters.old) args.now memory.old left) result
        (view_of (T.stack tables.old) iters.old) (view_of (T.stack tables.new) iters.new) memory.new left }
    ensures tables { tables.new ≡ tables.old }
{
    let Some(_key) = bytes_from(args, 1, KEY_SIZE, memory) else {
        return HostAnswer::Refused(Failure::BadPointer);
    };
    match db_next_i64(alloc, tables, iters, run, signed_arg(args, 0)) {
        Ok(met) => neighbour(memory, arg32(args, 1), met),
        Err(fault) => refused(alloc, b"db_next_i64", fault),
    }
}

pub(crate) fn previous<T: Tables>(
    args: &[u64],
    memory: &mut Memory,
    run: &RunContext,
    iters: &mut Iters,
    tables: &mut T,
    alloc: Global,
) -> HostAnswer<Failure>
    requires room_for_row { length iters.old.rows < 2 ^ 31 }
    ensures answer { (left : ℕ) → AnswersRow (definitions.db_previous_i64 (view_of (T.stack tables.old) iters.old) args.now memory.old left) result
        (view_of (T.stack tables.old) iters.old) (view_of (T.stack tables.new) iters.new) memory.new left }
    ensures tables { tables.new ≡ tables.old }
{
    let Some(_key) = bytes_from(args, 1, KEY_SIZE, memory) else {
        return HostAnswer::Refused(Failure::BadPointer);
    };
    match db_previous_i64(alloc, tables, iters, run, signed_arg(args, 0)) {
        Ok(met) => neighbour(memory, arg32(args, 1), met),
        Err(fault) => refused(alloc, b"db_previous_i64", fault),
    }
}

/// The bytes are paid where they are copied.
pub(crate) fn get<T: Tables>(
    args: &[u64],
    memory: &mut Memory,
    run: &RunContext,
    iters: &mut Iters,
    tables: &T,
    alloc: Global,
    left: &mut u64,
) -> HostAnswer<Failure>
    ensures answer { AnswersRow (definitions.db_get_i64 (view_of (T.stack tables.now) iters.old) args.now memory.old left.old) result
        (view_of (T.stack tables.now) iters.old) (view_of (T.stack tables.now) iters.new) memory.new left.new }
    ensures falls { left.new ≤ left.old }
{
    if range(args, 1, memory).is_none() {
        return HostAnswer::Refused(Failure::BadPointer);
    }
    let most = arg32(args, 2);
    match db_get_i64(tables, iters, run, signed_arg(args, 0), most) {
        Ok((size, bytes)) => copied(memory, arg32(args, 1), size, bytes, left),
        Err(fault) => refused(alloc, b"db_get_i64", fault),
    }
}
