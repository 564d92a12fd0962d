// The calls that find rows.
ghost use Rattle.std.specs.Prelude.{◌≡◌, ℕ, ◌+◌, ◌<◌, ◌^◌, length, true};
ghost use Rattle.ante_calls.specs.Calls.{arg, arg32, replies};
ghost use Rattle.ante_calls.specs.IndexCalls as definitions;
ghost use Rattle.ante_calls.specs.PrimaryCalls.{table_arg};
ghost use Rattle.ante_calls.specs.RowAnswers.{view_of};
ghost use Rattle.ante_idxcalls.specs.Keyed.{shows_bound};
ghost use Rattle.ante_rowcalls.specs.RowCalls.{AnswersRow};
ghost use Rattle.ante_wmem.specs.Linear.{LinearMemory, is_inside};

use crate::key_args::{key_alone, key_sought, primary_arg};
use crate::keys::IndexKey;
use crate::replies::{with_both, with_key, with_primary};
use ante_arguments::name_arg;
use ante_idxapi::{
    db_idx_end, db_idx_find_primary, db_idx_find_secondary, db_idx_lowerbound, db_idx_upperbound,
};
use ante_itercache::Iters;
use ante_rowcalls::found;
use ante_store::Tables;
use ante_types::{Failure, RunContext};
use ante_wmem::{HostAnswer, Memory};
use std::alloc::Global;

fn find_row<T: Tables, K: IndexKey>(
    args: &[u64],
    memory: &mut Memory,
    run: &RunContext,
    iters: &mut Iters,
    tables: &mut T,
    alloc: Global,
) -> HostAnswer<Failure>
    requires room_for_table { length iters.old.tables + 1 < 2 ^ 31 }
    requires room_for_row { length iters.old.rows < 2 ^ 31 }
    requires inside { is_inside memory.old.bytes (arg32 args.now 3) K.form.size ≡ true }
    ensures answer { (left : ℕ) →
        AnswersRow (replies (definitions.shows_key K.form K.index (arg32 args.now 3) memory.old
        (definitions.find_primary K.form K.index (table_arg args.now) (arg args.now (definitions.after_key K.form K.index 3)) (view_of (T.stack tables.old) iters.old))) left) result
        (view_of (T.stack tables.old) iters.old) (view_of (T.stack tables.new) iters.new) memory.new left }
    ensures tables { tables.new ≡ tables.old }
{
    let code = name_arg(args, 0);
    let scope = name_arg(args, 1);
    let table = name_arg(args, 2);
    let primary = primary_arg::<K>(args);
    match db_idx_find_primary::<T, K>(alloc, tables, iters, run, code, scope, table, primary) {
        Ok(found) => with_key(args, memory, found),
        Err(_) => HostAnswer::OutOfMemory,
    }
}

pub(crate) fn find_primary<T: Tables, K: IndexKey>(
    args: &[u64],
    memory: &mut Memory,
    run: &RunContext,
    iters: &mut Iters,
    tables: &mut T,
    alloc: Global,
) -> HostAnswer<Failure>
    requires room_for_table { length iters.old.tables + 1 < 2 ^ 31 }
    requires room_for_row { length iters.old.rows < 2 ^ 31 }
    ensures answer { (left : ℕ) → AnswersRow (definitions.idx_find_primary K.form K.index (view_of (T.stack tables.old) iters.old) args.now memory.old left) result
        (view_of (T.stack tables.old) iters.old) (view_of (T.stack tables.new) iters.new) memory.new left }
    ensures tables { tables.new ≡ tables.old }
{
    match key_alone::<K>(args, memory) {
        Ok(_key) => find_row::<T, K>(args, memory, run, iters, tables, alloc),
        Err(answer) => answer,
    }
}

fn find_key<T: Tables, K: IndexKey>(
    args: &[u64],
    key: K,
    memory: &mut Memory,
    run: &RunContext,
    iters: &mut Iters,
    tables: &mut T,
    alloc: Global,
) -> HostAnswer<Failure>
    requires room_for_table { length iters.old.tables + 1 < 2 ^ 31 }
    requires room_for_row { length iters.old.rows < 2 ^ 31 }
    requires inside { is_inside memory.old.bytes (arg32 args.now (definitions.after_key K.form K.index 3)) 8 ≡ true }
    ensures answer { (left : ℕ) →
        AnswersRow (replies (definitions.shows_primary K.form K.index (arg32 args.now (definitions.after_key K.form K.index 3)) memory.old
        (definitions.find_secondary K.form K.index (table_arg args.now) key (view_of (T.stack tables.old) iters.old))) left) result
        (view_of (T.stack tables.old) iters.old) (view_of (T.stack tables.new) iters.new) memory.new left }
    ensures tables { tables.new ≡ tables.old }
{
    let code = name_arg(args, 0);
    let scope = name_arg(args, 1);
    let table = name_arg(args, 2);
    match db_idx_find_secondary(alloc, tables, iters, run, code, scope, table, key) {
        Ok(found) => with_primary::<K>(args, memory, found),
        Err(_) => HostAnswer::OutOfMemory,
    }
}

pub(crate) fn find_secondary<T: Tables, K: IndexKey>(
    args: &[u64],
    memory: &mut Memory,
    run: &RunContext,
    iters: &mut Iters,
    tables: &mut T,
    alloc: Global,
) -> HostAnswer<Failure>
    requires room_for_table { length iters.old.tables + 1 < 2 ^ 31 }
    requires room_for_row { length iters.old.rows < 2 ^ 31 }
    ensures answer { (left : ℕ) → AnswersRow (definitions.idx_find_secondary K.form K.index (view_of (T.stack tables.old) iters.old) args.now memory.old left) result
        (view_of (T.stack tables.old) iters.old) (view_of (T.stack tables.new) iters.new) memory.new left }
    ensures tables { tables.new ≡ tables.old }
{
    match key_sought::<K>(args, memory) {
        Ok(key) => find_key(args, key, memory, run, iters, tables, alloc),
        Err(answer) => answer,
    }
}

fn bound_from<T: Tables, K: IndexKey>(
    args: &[u64],
    key: K,
    memory: &mut Memory,
    run: &RunContext,
    iters: &mut Iters,
    tables: &mut T,
    alloc: Global,
) -> HostAnswer<Failure>
    requires room_for_table { length iters.old.tables + 1 < 2 ^ 31 }
    requires room_for_row { length iters.old.rows < 2 ^ 31 }
    requires inside { is_inside memory.old.bytes (arg32 args.now 3) K.form.size ≡ true }
    requires primary { is_inside memory.old.bytes (arg32 args.now (definitions.after_key K.form K.index 3)) 8 ≡ true }
    ensures answer { (left : ℕ) →
        AnswersRow (replies (shows_bound K.form K.index args.now memory.old
        (definitions.lowerbound K.form K.index (table_arg args.now) key (view_of (T.stack tables.old) iters.old))) left) result
        (view_of (T.stack tables.old) iters.old) (view_of (T.stack tables.new) iters.new) memory.new left }
    ensures tables { tables.new ≡ tables.old }
{
    let code = name_arg(args, 0);
    let scope = name_arg(args, 1);
    let table = name_arg(args, 2);
    match db_idx_lowerbound(alloc, tables, iters, run, code, scope, table, key) {
        Ok(found) => with_both(args, memory, found),
        Err(_) => HostAnswer::OutOfMemory,
    }
}

pub(crate) fn lower_bound<T: Tables, K: IndexKey>(
    args: &[u64],
    memory: &mut Memory,
    run: &RunContext,
    iters: &mut Iters,
    tables: &mut T,
    alloc: Global,
) -> HostAnswer<Failure>
    requires room_for_table { length iters.old.tables + 1 < 2 ^ 31 }
    requires room_for_row { length iters.old.rows < 2 ^ 31 }
    ensures answer { (left : ℕ) →
        AnswersRow (definitions.idx_bound K.form K.index (definitions.lowerbound K.form K.index) (view_of (T.stack tables.old) iters.old) args.now memory.old left) result
        (view_of (T.stack tables.old) iters.old) (view_of (T.stack tables.new) iters.new) memory.new left }
    ensures tables { tables.new ≡ tables.old }
{
    match key_sought::<K>(args, memory) {
        Ok(key) => bound_from(args, key, memory, run, iters, tables, alloc),
        Err(answer) => answer,
    }
}

fn bound_above<T: Tables, K: IndexKey>(
    args: &[u64],
    key: K,
    memory: &mut Memory,
    run: &RunContext,
    iters: &mut Iters,
    tables: &mut T,
    alloc: Global,
) -> HostAnswer<Failure>
    requires room_for_table { length iters.old.tables + 1 < 2 ^ 31 }
    requires room_for_row { length iters.old.rows < 2 ^ 31 }
    requires inside { is_inside memory.old.bytes (arg32 args.now 3) K.form.size ≡ true }
    requires primary { is_inside memory.old.bytes (arg32 args.now (definitions.after_key K.form K.index 3)) 8 ≡ true }
    ensures answer { (left : ℕ) →
        AnswersRow (replies (shows_bound K.form K.index args.now memory.old
        (definitions.upperbound K.form K.index (table_arg args.now) key (view_of (T.stack tables.old) iters.old))) left) result
        (view_of (T.stack tables.old) iters.old) (view_of (T.stack tables.new) iters.new) memory.new left }
    ensures tables { tables.new ≡ tables.old }
{
    let code = name_arg(args, 0);
    let scope = name_arg(args, 1);
    let table = name_arg(args, 2);
    match db_idx_upperbound(alloc, tables, iters, run, code, scope, table, key) {
        Ok(found) => with_both(args, memory, found),
        Err(_) => HostAnswer::OutOfMemory,
    }
}

pub(crate) fn upper_bound<T: Tables, K: IndexKey>(
    args: &[u64],
    memory: &mut Memory,
    run: &RunContext,
    iters: &mut Iters,
    tables: &mut T,
    alloc: Global,
) -> HostAnswer<Failure>
    requires room_for_table { length iters.old.tables + 1 < 2 ^ 31 }
    requires room_for_row { length iters.old.rows < 2 ^ 31 }
    ensures answer { (left : ℕ) →
        AnswersRow (definitions.idx_bound K.form K.index (definitions.upperbound K.form K.index) (view_of (T.stack tables.old) iters.old) args.now memory.old left) result
        (view_of (T.stack tables.old) iters.old) (view_of (T.stack tables.new) iters.new) memory.new left }
    ensures tables { tables.new ≡ tables.old }
{
    match key_sought::<K>(args, memory) {
        Ok(key) => bound_above(args, key, memory, run, iters, tables, alloc),
        Err(answer) => answer,
    }
}

pub(crate) fn end<T: Tables, K: IndexKey>(
    args: &[u64],
    run: &RunContext,
    iters: &mut Iters,
    tables: &mut T,
    alloc: Global,
) -> HostAnswer<Failure>
    requires room_for_table { length iters.old.tables + 1 < 2 ^ 31 }
    requires room_for_row { length iters.old.rows < 2 ^ 31 }
    ensures answer { (m : LinearMemory) (left : ℕ) → AnswersRow (definitions.idx_end K.form K.index (view_of (T.stack tables.old) iters.old) args.now m left) result
        (view_of (T.stack tables.old) iters.old) (view_of (T.stack tables.new) iters.new) m left }
    ensures tables { tables.new ≡ tables.old }
{
    let code = name_arg(args, 0);
    let scope = name_arg(args, 1);
    let table = name_arg(args, 2);
    found(db_idx_end::<T, K>(alloc, tables, iters, run, code, scope, table))
}
