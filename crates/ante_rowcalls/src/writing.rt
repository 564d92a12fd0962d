// The calls that write rows.
ghost use Rattle.std.specs.Prelude.{◌≡◌, ℕ, ◌≤◌, ◌+◌, ◌<◌, ◌^◌, length};
ghost use Rattle.ante_calls.specs.PrimaryCalls as definitions;
ghost use Rattle.ante_calls.specs.RowAnswers.{view_of};
ghost use Rattle.ante_calls.specs.Views.{base_of, ReadyFor};
ghost use Rattle.ante_calls.specs.Calls.{replies};
ghost use Rattle.ante_rowcalls.specs.RowCalls.{AnswersRow, stored_with};
ghost use Rattle.ante_wmem.specs.Linear.{LinearMemory};

use crate::replies::{refused, word_of};
use ante_arguments::{arg, name_arg, pay, range, signed_arg};
use ante_dbapi::{db_remove_i64, db_store_i64, db_update_i64};
use ante_itercache::Iters;
use ante_store::Tables;
use ante_types::{Failure, RunContext};
use ante_wmem::{HostAnswer, Memory};
use std::alloc::Global;

fn store_bytes<T: Tables>(
    args: &[u64],
    bytes: &[u8],
    run: &RunContext,
    iters: &mut Iters,
    tables: &mut T,
    alloc: Global,
) -> HostAnswer<Failure>
    requires ready { ReadyFor run.now.mode (T.stack tables.old) (T.writing tables.old) }
    requires room_for_table { length iters.old.tables + 1 < 2 ^ 31 }
    requires room_for_row { length iters.old.rows < 2 ^ 31 }
    ensures answer { (m : LinearMemory) (left : ℕ) → AnswersRow (replies (stored_with run.now args.now bytes.now m (view_of (T.stack tables.old) iters.old)) left) result
        (view_of (T.stack tables.old) iters.old) (view_of (T.stack tables.new) iters.new) m left }
    ensures base { base_of (T.stack tables.new) (T.writing tables.new) (T.lent tables.new) ≡
        base_of (T.stack tables.old) (T.writing tables.old) (T.lent tables.old) }
{
    let scope = name_arg(args, 0);
    let table = name_arg(args, 1);
    let payer = name_arg(args, 2);
    let primary = arg(args, 3);
    match db_store_i64(
        alloc, tables, iters, run, scope, table, payer, primary, bytes,
    ) {
        Ok(it) => HostAnswer::Value(word_of(it)),
        Err(fault) => refused(alloc, b"db_store_i64", fault),
    }
}

pub(crate) fn store<T: Tables>(
    args: &[u64],
    memory: &Memory,
    run: &RunContext,
    iters: &mut Iters,
    tables: &mut T,
    alloc: Global,
    left: &mut u64,
) -> HostAnswer<Failure>
    requires ready { ReadyFor run.now.mode (T.stack tables.old) (T.writing tables.old) }
    requires room_for_table { length iters.old.tables + 1 < 2 ^ 31 }
    requires room_for_row { length iters.old.rows < 2 ^ 31 }
    ensures answer { AnswersRow (definitions.db_store_i64 run.now (view_of (T.stack tables.old) iters.old) args.now memory.now left.old) result
        (view_of (T.stack tables.old) iters.old) (view_of (T.stack tables.new) iters.new) memory.now left.new }
    ensures falls { left.new ≤ left.old }
    ensures base { base_of (T.stack tables.new) (T.writing tables.new) (T.lent tables.new) ≡
        base_of (T.stack tables.old) (T.writing tables.old) (T.lent tables.old) }
{
    let Some(bytes) = range(args, 4, memory) else {
        return HostAnswer::Refused(Failure::BadPointer);
    };
    if !pay(left, bytes.len()) {
        return HostAnswer::StepLimit;
    }
    store_bytes(args, bytes, run, iters, tables, alloc)
}

pub(crate) fn update<T: Tables>(
    args: &[u64],
    memory: &Memory,
    run: &RunContext,
    iters: &mut Iters,
    tables: &mut T,
    alloc: Global,
    left: &mut u64,
) -> HostAnswer<Failure>
    requires ready { ReadyFor run.now.mode (T.stack tables.old) (T.writing tables.old) }
    ensures answer { AnswersRow (definitions.db_update_i64 run.now (view_of (T.stack tables.old) iters.old) args.now memory.now left.old) result
        (view_of (T.stack tables.old) iters.old) (view_of (T.stack tables.new) iters.new) memory.now left.new }
    ensures falls { left.new ≤ left.old }
    ensures base { base_of (T.stack tables.new) (T.writing tables.new) (T.lent tables.new) ≡
        base_of (T.stack tables.old) (T.writing tables.old) (T.lent tables.old) }
{
    let Some(bytes) = range(args, 2, memory) else {
        return HostAnswer::Refused(Failure::BadPointer);
    };
    if !pay(left, bytes.len()) {
        return HostAnswer::StepLimit;
    }
    let it = signed_arg(args, 0);
    match db_update_i64(alloc, tables, iters, run, it, name_arg(args, 1), bytes) {
        Ok(()) => HostAnswer::Nothing,
        Err(fault) => refused(alloc, b"db_update_i64", fault),
    }
}

pub(crate) fn remove<T: Tables>(
    args: &[u64],
    run: &RunContext,
    iters: &mut Iters,
    tables: &mut T,
    alloc: Global,
) -> HostAnswer<Failure>
    requires ready { ReadyFor run.now.mode (T.stack tables.old) (T.writing tables.old) }
    ensures answer { (m : LinearMemory) (left : ℕ) → AnswersRow (definitions.db_remove_i64 run.now (view_of (T.stack tables.old) iters.old) args.now m left) result
        (view_of (T.stack tables.old) iters.old) (view_of (T.stack tables.new) iters.new) m left }
    ensures base { base_of (T.stack tables.new) (T.writing tables.new) (T.lent tables.new) ≡
        base_of (T.stack tables.old) (T.writing tables.old) (T.lent tables.old) }
{
    match db_remove_i64(alloc, tables, iters, run, signed_arg(args, 0)) {
        Ok(()) => HostAnswer::Nothing,
        Err(fault) => refused(alloc, b"db_remove_i64", fault),
    }
}
