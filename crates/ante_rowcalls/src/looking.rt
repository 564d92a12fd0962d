// The calls that find rows.
ghost use Rattle.std.specs.Prelude.{◌≡◌, ℕ, ◌+◌, ◌<◌, ◌^◌, length};
ghost use Rattle.ante_calls.specs.PrimaryCalls as definitions;
ghost use Rattle.ante_calls.specs.RowAnswers.{view_of};
ghost use Rattle.ante_rowcalls.specs.RowCalls.{AnswersRow};
ghost use Rattle.ante_wmem.specs.Linear.{LinearMemory};

use crate::replies::found;
use ante_arguments::{arg, name_arg};
use ante_dbapi::{db_end_i64, db_find_i64, db_lowerbound_i64, db_upperbound_i64};
use ante_itercache::Iters;
use ante_store::Tables;
use ante_types::{Failure, RunContext};
use ante_wmem::HostAnswer;
use std::alloc::Global;

pub(crate) fn find<T: Tables>(
    args: &[u64],
    run: &RunContext,
    iters: &mut Iters,
    tables: &mut T,
    alloc: Global,
) -> HostAnswer<Failure>
    requires room_for_table { length iters.old.tables + 1 < 2 ^ 31 }
    requires room_for_row { length iters.old.rows < 2 ^ 31 }
    ensures answer { (m : LinearMemory) (left : ℕ) → AnswersRow (definitions.db_find_i64 (view_of (T.stack tables.old) iters.old) args.now m left) result
        (view_of (T.stack tables.old) iters.old) (view_of (T.stack tables.new) iters.new) m left }
    ensures tables { tables.new ≡ tables.old }
{
    let code = name_arg(args, 0);
    let scope = name_arg(args, 1);
    let table = name_arg(args, 2);
    let primary = arg(args, 3);
    found(db_find_i64(alloc, tables, iters, run, code, scope, table, primary))
}

pub(crate) fn lower_bound<T: Tables>(
    args: &[u64],
    run: &RunContext,
    iters: &mut Iters,
    tables: &mut T,
    alloc: Global,
) -> HostAnswer<Failure>
    requires room_for_table { length iters.old.tables + 1 < 2 ^ 31 }
    requires room_for_row { length iters.old.rows < 2 ^ 31 }
    ensures answer { (m : LinearMemory) (left : ℕ) → AnswersRow (definitions.db_lowerbound_i64 (view_of (T.stack tables.old) iters.old) args.now m left) result
        (view_of (T.stack tables.old) iters.old) (view_of (T.stack tables.new) iters.new) m left }
    ensures tables { tables.new ≡ tables.old }
{
    let code = name_arg(args, 0);
    let scope = name_arg(args, 1);
    let table = name_arg(args, 2);
    let primary = arg(args, 3);
    found(db_lowerbound_i64(alloc, tables, iters, run, code, scope, table, primary))
}

pub(crate) fn upper_bound<T: Tables>(
    args: &[u64],
    run: &RunContext,
    iters: &mut Iters,
    tables: &mut T,
    alloc: Global,
) -> HostAnswer<Failure>
    requires room_for_table { length iters.old.tables + 1 < 2 ^ 31 }
    requires room_for_row { length iters.old.rows < 2 ^ 31 }
    ensures answer { (m : LinearMemory) (left : ℕ) → AnswersRow (definitions.db_upperbound_i64 (view_of (T.stack tables.old) iters.old) args.now m left) result
        (view_of (T.stack tables.old) iters.old) (view_of (T.stack tables.new) iters.new) m left }
    ensures tables { tables.new ≡ tables.old }
{
    let code = name_arg(args, 0);
    let scope = name_arg(args, 1);
    let table = name_arg(args, 2);
    let primary = arg(args, 3);
    found(db_upperbound_i64(alloc, tables, iters, run, code, scope, table, primary))
}

pub(crate) fn end<T: Tables>(
    args: &[u64],
    run: &RunContext,
    iters: &mut Iters,
    tables: &mut T,
    alloc: Global,
) -> HostAnswer<Failure>
    requires room_for_table { length iters.old.tables + 1 < 2 ^ 31 }
    requires room_for_row { length iters.old.rows < 2 ^ 31 }
    ensures answer { (m : LinearMemory) (left : ℕ) → AnswersRow (definitions.db_end_i64 (view_of (T.stack tables.old) iters.old) args.now m left) result
        (view_of (T.stack tables.old) iters.old) (view_of (T.stack tables.new) iters.new) m left }
    ensures tables { tables.new ≡ tables.old }
{
    let code = name_arg(args, 0);
    let scope = name_arg(args, 1);
    let table = name_arg(args, 2);
    found(db_end_i64(alloc, tables, iters, run, code, scope, table))
}
