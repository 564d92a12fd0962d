// The calls on rows under keys of 64 bits.
ghost use Rattle.std.specs.Prelude.{◌≡◌, ◌+◌, ◌<◌, ◌^◌, length, Ok};
ghost use Rattle.ante_calls.specs.IndexCalls.{index_kind, key64, rows64, find_primary, find_secondary, lowerbound, upperbound};
ghost use Rattle.ante_calls.specs.RowAnswers.{Gives, Finds, table_of};
ghost use Rattle.ante_calls.specs.Rows.{store, update, remove, next, previous, end};
ghost use Rattle.ante_calls.specs.Views.{base_of, ReadyFor};
ghost use Rattle.ante_idxapi.specs.Looked.{told};

use crate::looking::{
    db_idx_end, db_idx_find_primary, db_idx_find_secondary, db_idx_lowerbound, db_idx_upperbound,
};
use crate::walking::{db_idx_next, db_idx_previous};
use crate::writing::{db_idx_remove, db_idx_store, db_idx_update};
use ante_calls::DbFault;
use ante_itercache::Iters;
use ante_pack::Name;
use ante_store::Tables;
use ante_types::RunContext;
use std::alloc::Global;

/// A new row of the receiver's, and its number.
pub fn db_idx64_store<T: Tables>(
    alloc: Global,
    tables: &mut T,
    iters: &mut Iters,
    run: &RunContext,
    scope: Name,
    table: Name,
    payer: Name,
    id: u64,
    key: u64,
) -> Result<i32, DbFault>
    requires ready { ReadyFor run.now.mode (T.stack tables.old) (T.writing tables.old) }
    requires room_for_table { length iters.old.tables + 1 < 2 ^ 31 }
    requires room_for_row { length iters.old.rows < 2 ^ 31 }
    ensures answer { Gives (store (index_kind key64 rows64) run.now scope table payer id key) result (T.stack tables.old) (T.stack tables.new) iters.old iters.new }
    ensures base { base_of (T.stack tables.new) (T.writing tables.new) (T.lent tables.new) ≡
        base_of (T.stack tables.old) (T.writing tables.old) (T.lent tables.old) }
{
    db_idx_store(alloc, tables, iters, run, scope, table, payer, id, key)
}

/// Another secondary key for the receiver's own row with this number, and another payer unless the name is empty.
pub fn db_idx64_update<T: Tables>(
    alloc: Global,
    tables: &mut T,
    iters: &mut Iters,
    run: &RunContext,
    it: i32,
    payer: Name,
    key: u64,
) -> Result<(), DbFault>
    requires ready { ReadyFor run.now.mode (T.stack tables.old) (T.writing tables.old) }
    ensures answer { Gives (update (index_kind key64 rows64) run.now it payer key) result (T.stack tables.old) (T.stack tables.new) iters.old iters.new }
    ensures base { base_of (T.stack tables.new) (T.writing tables.new) (T.lent tables.new) ≡
        base_of (T.stack tables.old) (T.writing tables.old) (T.lent tables.old) }
{
    db_idx_update(alloc, tables, iters, run, it, payer, key)
}

/// The receiver's own row with this number goes, and its number with it.
pub fn db_idx64_remove<T: Tables>(
    alloc: Global,
    tables: &mut T,
    iters: &mut Iters,
    run: &RunContext,
    it: i32,
) -> Result<(), DbFault>
    requires ready { ReadyFor run.now.mode (T.stack tables.old) (T.writing tables.old) }
    ensures answer { Gives (remove (index_kind key64 rows64) run.now it) result (T.stack tables.old) (T.stack tables.new) iters.old iters.new }
    ensures base { base_of (T.stack tables.new) (T.writing tables.new) (T.lent tables.new) ≡
        base_of (T.stack tables.old) (T.writing tables.old) (T.lent tables.old) }
{
    db_idx_remove::<T, u64>(alloc, tables, iters, run, it)
}

/// The next row's number and primary key, or the end iterator. What is no row gives -1.
pub fn db_idx64_next<T: Tables>(
    alloc: Global,
    tables: &mut T,
    iters: &mut Iters,
    run: &RunContext,
    it: i32,
) -> Result<(i32, Option<u64>), DbFault>
    requires room_for_table { length iters.old.tables + 1 < 2 ^ 31 }
    requires room_for_row { length iters.old.rows < 2 ^ 31 }
    ensures answer { Gives (next (index_kind key64 rows64) it) result (T.stack tables.old) (T.stack tables.new) iters.old iters.new }
    ensures tables { tables.new ≡ tables.old }
{
    db_idx_next::<T, u64>(alloc, tables, iters, run, it)
}

/// The previous row's number and primary key, or -1. From an end iterator, the last row.
pub fn db_idx64_previous<T: Tables>(
    alloc: Global,
    tables: &mut T,
    iters: &mut Iters,
    run: &RunContext,
    it: i32,
) -> Result<(i32, Option<u64>), DbFault>
    requires room_for_row { length iters.old.rows < 2 ^ 31 }
    ensures answer { Gives (previous (index_kind key64 rows64) it) result (T.stack tables.old) (T.stack tables.new) iters.old iters.new }
    ensures tables { tables.new ≡ tables.old }
{
    db_idx_previous::<T, u64>(alloc, tables, iters, run, it)
}

/// The row with this primary key, and its secondary key.
pub fn db_idx64_find_primary<T: Tables>(
    alloc: Global,
    tables: &mut T,
    iters: &mut Iters,
    run: &RunContext,
    code: Name,
    scope: Name,
    table: Name,
    primary: u64,
) -> Result<(i32, Option<u64>), DbFault>
    requires room_for_table { length iters.old.tables + 1 < 2 ^ 31 }
    requires room_for_row { length iters.old.rows < 2 ^ 31 }
    ensures answer { Gives (λ v. told (λ place. place.0) (find_primary key64 rows64 (table_of code scope table) primary v)) result
        (T.stack tables.old) (T.stack tables.new) iters.old iters.new }
    ensures tables { tables.new ≡ tables.old }
{
    db_idx_find_primary(alloc, tables, iters, run, code, scope, table, primary)
}

/// The first row with this secondary key, and its primary key.
pub fn db_idx64_find_secondary<T: Tables>(
    alloc: Global,
    tables: &mut T,
    iters: &mut Iters,
    run: &RunContext,
    code: Name,
    scope: Name,
    table: Name,
    key: u64,
) -> Result<(i32, Option<u64>), DbFault>
    requires room_for_table { length iters.old.tables + 1 < 2 ^ 31 }
    requires room_for_row { length iters.old.rows < 2 ^ 31 }
    ensures answer { Gives (λ v. told (λ place. place.1) (find_secondary key64 rows64 (table_of code scope table) key v)) result
        (T.stack tables.old) (T.stack tables.new) iters.old iters.new }
    ensures tables { tables.new ≡ tables.old }
{
    db_idx_find_secondary(alloc, tables, iters, run, code, scope, table, key)
}

/// The first row whose secondary key is at least the given one, and its two keys.
pub fn db_idx64_lowerbound<T: Tables>(
    alloc: Global,
    tables: &mut T,
    iters: &mut Iters,
    run: &RunContext,
    code: Name,
    scope: Name,
    table: Name,
    key: u64,
) -> Result<(i32, Option<(u64, u64)>), DbFault>
    requires room_for_table { length iters.old.tables + 1 < 2 ^ 31 }
    requires room_for_row { length iters.old.rows < 2 ^ 31 }
    ensures answer { Gives (λ v. Ok (lowerbound key64 rows64 (table_of code scope table) key v)) result
        (T.stack tables.old) (T.stack tables.new) iters.old iters.new }
    ensures tables { tables.new ≡ tables.old }
{
    db_idx_lowerbound(alloc, tables, iters, run, code, scope, table, key)
}

/// The first row whose secondary key is above the given one, and its two keys.
pub fn db_idx64_upperbound<T: Tables>(
    alloc: Global,
    tables: &mut T,
    iters: &mut Iters,
    run: &RunContext,
    code: Name,
    scope: Name,
    table: Name,
    key: u64,
) -> Result<(i32, Option<(u64, u64)>), DbFault>
    requires room_for_table { length iters.old.tables + 1 < 2 ^ 31 }
    requires room_for_row { length iters.old.rows < 2 ^ 31 }
    ensures answer { Gives (λ v. Ok (upperbound key64 rows64 (table_of code scope table) key v)) result
        (T.stack tables.old) (T.stack tables.new) iters.old iters.new }
    ensures tables { tables.new ≡ tables.old }
{
    db_idx_upperbound(alloc, tables, iters, run, code, scope, table, key)
}

/// The table's end iterator.
pub fn db_idx64_end<T: Tables>(
    alloc: Global,
    tables: &mut T,
    iters: &mut Iters,
    run: &RunContext,
    code: Name,
    scope: Name,
    table: Name,
) -> Result<i32, DbFault>
    requires room_for_table { length iters.old.tables + 1 < 2 ^ 31 }
    requires room_for_row { length iters.old.rows < 2 ^ 31 }
    ensures answer { Finds (end (index_kind key64 rows64) (table_of code scope table)) result (T.stack tables.old) (T.stack tables.new) iters.old iters.new }
    ensures tables { tables.new ≡ tables.old }
{
    db_idx_end::<T, u64>(alloc, tables, iters, run, code, scope, table)
}
