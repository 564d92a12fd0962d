// The calls that go from a row, by its number, to its neighbours.
ghost use Rattle.std.specs.Prelude.{◌≡◌, ◌+◌, ◌<◌, ◌^◌, length, Ok};
ghost use Rattle.std.specs.Option.{option_map};
ghost use Rattle.ante_calls.specs.IndexCalls.{index_kind};
ghost use Rattle.ante_calls.specs.RowAnswers.{Gives, view_of};
ghost use Rattle.ante_calls.specs.Rows.{next, previous, next_met, previous_met, standing};

use crate::keys::Indexed;
use crate::places::{after, before, last, with_primary};
use ante_calls::DbFault;
use ante_dbapi::live_row;
use ante_itercache::Iters;
use ante_pack::TableKey;
use ante_store::Tables;
use ante_types::RunContext;
use std::alloc::Global;

// The table and the place of the live row with this number.
fn standing<T: Tables, K: Indexed>(
    tables: &T,
    iters: &Iters,
    it: i32,
) -> Result<(TableKey, (K, u64)), DbFault>
    ensures { result ≡ standing (index_kind K.form K.index) it (view_of (T.stack tables.now) iters.now) }
{
    let (key, primary) = live_row(iters, it)?;
    match with_primary(tables, key, primary) {
        Some(place) => Ok((key, place)),
        None => Err(DbFault::BadIterator { value: it }),
    }
}

fn primary_of<K: Indexed>(place: Option<(K, u64)>) -> Option<u64>
    ensures { result ≡ option_map (λ p. p.1) place }
{
    match place {
        Some((_, primary)) => Some(primary),
        None => None,
    }
}

// The row that comes next, or the end of its table.
fn meet_next<T: Tables, K: Indexed>(
    alloc: Global,
    tables: &T,
    iters: &mut Iters,
    key: TableKey,
    next: Option<(K, u64)>,
) -> Result<(i32, Option<u64>), DbFault>
    requires room_for_table { length iters.old.tables + 1 < 2 ^ 31 }
    requires room_for_row { length iters.old.rows < 2 ^ 31 }
    ensures { Gives (λ v. Ok (next_met (index_kind K.form K.index) key next v)) result (T.stack tables.now) (T.stack tables.now) iters.old iters.new }
{
    let met = match next {
        None => iters.table(alloc, key),
        Some((_, primary)) => iters.row(alloc, key, primary),
    };
    match met {
        Ok(it) => Ok((it, primary_of(next))),
        Err(_) => Err(DbFault::OutOfMemory),
    }
}

/// The next row's number and primary key, or the end iterator. What is no row gives -1.
pub fn db_idx_next<T: Tables, K: Indexed>(
    alloc: Global,
    tables: &mut T,
    iters: &mut Iters,
    _run: &RunContext,
    it: i32,
) -> Result<(i32, Option<u64>), DbFault>
    requires room_for_table { length iters.old.tables + 1 < 2 ^ 31 }
    requires room_for_row { length iters.old.rows < 2 ^ 31 }
    ensures answer { Gives (next (index_kind K.form K.index) it) result (T.stack tables.old) (T.stack tables.new) iters.old iters.new }
    ensures tables { tables.new ≡ tables.old }
{
    if it < -1 {
        return Ok((-1, None));
    }
    match standing::<T, K>(tables, iters, it) {
        Ok((key, place)) => {
            let next = after(tables, key, place);
            meet_next(alloc, tables, iters, key, next)
        }
        Err(fault) => Err(fault),
    }
}

// The row that comes before, or -1.
fn meet_previous<T: Tables, K: Indexed>(
    alloc: Global,
    tables: &T,
    iters: &mut Iters,
    key: TableKey,
    previous: Option<(K, u64)>,
) -> Result<(i32, Option<u64>), DbFault>
    requires room_for_row { length iters.old.rows < 2 ^ 31 }
    ensures { Gives (λ v. Ok (previous_met (index_kind K.form K.index) key previous v)) result (T.stack tables.now) (T.stack tables.now) iters.old iters.new }
{
    let Some((_, primary)) = previous else {
        return Ok((-1, None));
    };
    match iters.row(alloc, key, primary) {
        Ok(it) => Ok((it, Some(primary))),
        Err(_) => Err(DbFault::OutOfMemory),
    }
}

/// The previous row's number and primary key, or -1. From an end iterator, the last row.
pub fn db_idx_previous<T: Tables, K: Indexed>(
    alloc: Global,
    tables: &mut T,
    iters: &mut Iters,
    _run: &RunContext,
    it: i32,
) -> Result<(i32, Option<u64>), DbFault>
    requires room_for_row { length iters.old.rows < 2 ^ 31 }
    ensures answer { Gives (previous (index_kind K.form K.index) it) result (T.stack tables.old) (T.stack tables.new) iters.old iters.new }
    ensures tables { tables.new ≡ tables.old }
{
    if it < -1 {
        let Some(key) = iters.end_table(it) else {
            return Err(DbFault::BadIterator { value: it });
        };
        let last = last::<T, K>(tables, key);
        return meet_previous(alloc, tables, iters, key, last);
    }
    match standing::<T, K>(tables, iters, it) {
        Ok((key, place)) => {
            let previous = before(tables, key, place);
            meet_previous(alloc, tables, iters, key, previous)
        }
        Err(fault) => Err(fault),
    }
}
