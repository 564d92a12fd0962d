// The calls that find rows. What is met stays met; the tables are only read.
ghost use Rattle.std.specs.Prelude.{◌≡◌, ◌+◌, ◌<◌, ◌^◌, length, Ok};
ghost use Rattle.ante_calls.specs.PrimaryCalls.{find_i64, lowerbound_i64, upperbound_i64};
ghost use Rattle.ante_calls.specs.Kinds.{primary_kind};
ghost use Rattle.ante_calls.specs.RowAnswers.{Finds, table_of};
ghost use Rattle.ante_calls.specs.Rows.{end};
ghost use Rattle.ante_dbapi.specs.Looked.{looked};

use crate::meeting::{has_table, meet_both};
use crate::neighbours::primary_of;
use ante_calls::DbFault;
use ante_itercache::Iters;
use ante_pack::{Name, TableKey};
use ante_store::Tables;
use ante_types::RunContext;
use std::alloc::Global;

// The number of the row that was found, or the table's end iterator. The table is met where it is there.
fn look_for<T: Tables>(
    alloc: Global,
    tables: &T,
    iters: &mut Iters,
    key: TableKey,
    found: Option<u64>,
) -> Result<i32, DbFault>
    requires room_for_table { length iters.old.tables + 1 < 2 ^ 31 }
    requires room_for_row { length iters.old.rows < 2 ^ 31 }
    ensures { Finds (looked key found) result (T.stack tables.now) (T.stack tables.now) iters.old iters.new }
{
    if !has_table(tables, &key) {
        return Ok(-1);
    }
    let met = match found {
        None => iters.table(alloc, key),
        Some(primary) => meet_both(alloc, iters, key, primary),
    };
    met.map_err(|_| DbFault::OutOfMemory)
}

/// The row with this primary key.
pub fn db_find_i64<T: Tables>(
    alloc: Global,
    tables: &mut T,
    iters: &mut Iters,
    _run: &RunContext,
    code: Name,
    scope: Name,
    table: Name,
    id: u64,
) -> Result<i32, DbFault>
    requires room_for_table { length iters.old.tables + 1 < 2 ^ 31 }
    requires room_for_row { length iters.old.rows < 2 ^ 31 }
    ensures answer { Finds (find_i64 (table_of code scope table) id) result (T.stack tables.old) (T.stack tables.new) iters.old iters.new }
    ensures tables { tables.new ≡ tables.old }
{
    let key = TableKey { code, scope, table };
    let found = if tables.store().rows().row(&key, id).is_some() {
        Some(id)
    } else {
        None
    };
    look_for(alloc, tables, iters, key, found)
}

/// The first row whose primary key is at least the given one.
pub fn db_lowerbound_i64<T: Tables>(
    alloc: Global,
    tables: &mut T,
    iters: &mut Iters,
    _run: &RunContext,
    code: Name,
    scope: Name,
    table: Name,
    id: u64,
) -> Result<i32, DbFault>
    requires room_for_table { length iters.old.tables + 1 < 2 ^ 31 }
    requires room_for_row { length iters.old.rows < 2 ^ 31 }
    ensures answer { Finds (lowerbound_i64 (table_of code scope table) id) result (T.stack tables.old) (T.stack tables.new) iters.old iters.new }
    ensures tables { tables.new ≡ tables.old }
{
    let key = TableKey { code, scope, table };
    let found = primary_of(tables.store().rows().row_from(&key, id));
    look_for(alloc, tables, iters, key, found)
}

/// The first row whose primary key is above the given one.
pub fn db_upperbound_i64<T: Tables>(
    alloc: Global,
    tables: &mut T,
    iters: &mut Iters,
    _run: &RunContext,
    code: Name,
    scope: Name,
    table: Name,
    id: u64,
) -> Result<i32, DbFault>
    requires room_for_table { length iters.old.tables + 1 < 2 ^ 31 }
    requires room_for_row { length iters.old.rows < 2 ^ 31 }
    ensures answer { Finds (upperbound_i64 (table_of code scope table) id) result (T.stack tables.old) (T.stack tables.new) iters.old iters.new }
    ensures tables { tables.new ≡ tables.old }
{
    let key = TableKey { code, scope, table };
    let found = primary_of(tables.store().rows().row_after(&key, id));
    look_for(alloc, tables, iters, key, found)
}

/// The table's end iterator.
pub fn db_end_i64<T: Tables>(
    alloc: Global,
    tables: &mut T,
    iters: &mut Iters,
    _run: &RunContext,
    code: Name,
    scope: Name,
    table: Name,
) -> Result<i32, DbFault>
    requires room_for_table { length iters.old.tables + 1 < 2 ^ 31 }
    requires room_for_row { length iters.old.rows < 2 ^ 31 }
    ensures answer { Finds (end primary_kind (table_of code scope table)) result (T.stack tables.old) (T.stack tables.new) iters.old iters.new }
    ensures tables { tables.new ≡ tables.old }
{
    let key = TableKey { code, scope, table };
    look_for(alloc, tables, iters, key, None)
}
