// The calls that find rows. What is met stays met; the tables are only read.
ghost use Rattle.std.specs.Prelude.{◌≡◌, ◌+◌, ◌<◌, ◌^◌, length, Ok};
ghost use Rattle.ante_calls.specs.IndexCalls.{index_kind, find_primary, find_secondary, lowerbound, upperbound};
ghost use Rattle.ante_calls.specs.RowAnswers.{Gives, Finds, table_of};
ghost use Rattle.ante_calls.specs.Rows.{end};
ghost use Rattle.ante_idxapi.specs.Looked.{looked, told};

use crate::keys::Indexed;
use crate::places::{lower, upper, with_primary, with_secondary};
use ante_calls::DbFault;
use ante_dbapi::{has_table, meet_both};
use ante_itercache::Iters;
use ante_pack::{Name, TableKey};
use ante_store::Tables;
use ante_types::RunContext;
use std::alloc::Global;

// The number of the row that was found, or the table's end iterator. The table is met where it is there.
fn look_for<T: Tables, K: Indexed>(
    alloc: Global,
    tables: &T,
    iters: &mut Iters,
    key: TableKey,
    found: Option<(K, u64)>,
) -> Result<(i32, Option<(K, u64)>), DbFault>
    requires room_for_table { length iters.old.tables + 1 < 2 ^ 31 }
    requires room_for_row { length iters.old.rows < 2 ^ 31 }
    ensures { Gives (λ v. Ok (looked K.form K.index key found v)) result (T.stack tables.now) (T.stack tables.now) iters.old iters.new }
{
    if !has_table(tables, &key) {
        return Ok((-1, None));
    }
    let met = match found {
        None => iters.table(alloc, key),
        Some((_, primary)) => meet_both(alloc, iters, key, primary),
    };
    match met {
        Ok(it) => Ok((it, found)),
        Err(_) => Err(DbFault::OutOfMemory),
    }
}

/// The row with this primary key, and its secondary key.
pub fn db_idx_find_primary<T: Tables, K: Indexed>(
    alloc: Global,
    tables: &mut T,
    iters: &mut Iters,
    _run: &RunContext,
    code: Name,
    scope: Name,
    table: Name,
    primary: u64,
) -> Result<(i32, Option<K>), DbFault>
    requires room_for_table { length iters.old.tables + 1 < 2 ^ 31 }
    requires room_for_row { length iters.old.rows < 2 ^ 31 }
    ensures answer { Gives (λ v. told (λ place. place.0) (find_primary K.form K.index (table_of code scope table) primary v)) result
        (T.stack tables.old) (T.stack tables.new) iters.old iters.new }
    ensures tables { tables.new ≡ tables.old }
{
    let key = TableKey { code, scope, table };
    let found = with_primary(tables, key, primary);
    let (it, place) = look_for(alloc, tables, iters, key, found)?;
    match place {
        Some((secondary, _)) => Ok((it, Some(secondary))),
        None => Ok((it, None)),
    }
}

/// The first row with this secondary key, and its primary key.
pub fn db_idx_find_secondary<T: Tables, K: Indexed>(
    alloc: Global,
    tables: &mut T,
    iters: &mut Iters,
    _run: &RunContext,
    code: Name,
    scope: Name,
    table: Name,
    key: K,
) -> Result<(i32, Option<u64>), DbFault>
    requires room_for_table { length iters.old.tables + 1 < 2 ^ 31 }
    requires room_for_row { length iters.old.rows < 2 ^ 31 }
    ensures answer { Gives (λ v. told (λ place. place.1) (find_secondary K.form K.index (table_of code scope table) key v)) result
        (T.stack tables.old) (T.stack tables.new) iters.old iters.new }
    ensures tables { tables.new ≡ tables.old }
{
    let at = TableKey { code, scope, table };
    let found = with_secondary(tables, at, key);
    let (it, place) = look_for(alloc, tables, iters, at, found)?;
    match place {
        Some((_, primary)) => Ok((it, Some(primary))),
        None => Ok((it, None)),
    }
}

/// The first row whose secondary key is at least the given one, and its two keys.
pub fn db_idx_lowerbound<T: Tables, K: Indexed>(
    alloc: Global,
    tables: &mut T,
    iters: &mut Iters,
    _run: &RunContext,
    code: Name,
    scope: Name,
    table: Name,
    key: K,
) -> Result<(i32, Option<(K, u64)>), DbFault>
    requires room_for_table { length iters.old.tables + 1 < 2 ^ 31 }
    requires room_for_row { length iters.old.rows < 2 ^ 31 }
    ensures answer { Gives (λ v. Ok (lowerbound K.form K.index (table_of code scope table) key v)) result
        (T.stack tables.old) (T.stack tables.new) iters.old iters.new }
    ensures tables { tables.new ≡ tables.old }
{
    let at = TableKey { code, scope, table };
    let found = lower(tables, at, key);
    look_for(alloc, tables, iters, at, found)
}

/// The first row whose secondary key is above the given one, and its two keys.
pub fn db_idx_upperbound<T: Tables, K: Indexed>(
    alloc: Global,
    tables: &mut T,
    iters: &mut Iters,
    _run: &RunContext,
    code: Name,
    scope: Name,
    table: Name,
    key: K,
) -> Result<(i32, Option<(K, u64)>), DbFault>
    requires room_for_table { length iters.old.tables + 1 < 2 ^ 31 }
    requires room_for_row { length iters.old.rows < 2 ^ 31 }
    ensures answer { Gives (λ v. Ok (upperbound K.form K.index (table_of code scope table) key v)) result
        (T.stack tables.old) (T.stack tables.new) iters.old iters.new }
    ensures tables { tables.new ≡ tables.old }
{
    let at = TableKey { code, scope, table };
    let found = upper(tables, at, key);
    look_for(alloc, tables, iters, at, found)
}

/// The table's end iterator.
pub fn db_idx_end<T: Tables, K: Indexed>(
    alloc: Global,
    tables: &mut T,
    iters: &mut Iters,
    _run: &RunContext,
    code: Name,
    scope: Name,
    table: Name,
) -> Result<i32, DbFault>
    requires room_for_table { length iters.old.tables + 1 < 2 ^ 31 }
    requires room_for_row { length iters.old.rows < 2 ^ 31 }
    ensures answer { Finds (end (index_kind K.form K.index) (table_of code scope table)) result (T.stack tables.old) (T.stack tables.new) iters.old iters.new }
    ensures tables { tables.new ≡ tables.old }
{
    let key = TableKey { code, scope, table };
    let none: Option<(K, u64)> = None;
    let (it, _) = look_for(alloc, tables, iters, key, none)?;
    Ok(it)
}
