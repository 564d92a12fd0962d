// The calls on a row by its number that only read.
ghost use Rattle.std.specs.Prelude.{◌≡◌, ◌+◌, ◌<◌, ◌^◌, length, Ok};
ghost use Rattle.ante_calls.specs.Kinds.{primary_kind};
ghost use Rattle.ante_calls.specs.Calls.{shorter};
ghost use Rattle.ante_calls.specs.PrimaryCalls.{get_i64};
ghost use Rattle.ante_calls.specs.RowAnswers.{Answers, Gives};
ghost use Rattle.ante_calls.specs.Rows.{next, previous, next_met, previous_met, some_or};
ghost use Rattle.ante_calls.specs.declared.faults.DbFault.TheVariants as fault;
ghost use Rattle.ante_itercache.specs.Iterators.{live_row};

use crate::neighbours::{key_after, key_before, last_key, row_at};
use ante_calls::DbFault;
use ante_itercache::Iters;
use ante_pack::TableKey;
use ante_store::Tables;
use ante_types::RunContext;
use std::alloc::Global;

/// The table and the primary key of the live row with this number.
pub fn live_row(iters: &Iters, it: i32) -> Result<(TableKey, u64), DbFault>
    ensures { result ≡ some_or (fault.BadIterator it) (live_row it iters.now) }
{
    match iters.get(it) {
        Some(row) => Ok(row),
        None => Err(DbFault::BadIterator { value: it }),
    }
}

// The row that comes next, or the end of its table.
fn meet_next<T: Tables>(
    alloc: Global,
    tables: &T,
    iters: &mut Iters,
    key: TableKey,
    next: Option<u64>,
) -> Result<(i32, Option<u64>), DbFault>
    requires room_for_table { length iters.old.tables + 1 < 2 ^ 31 }
    requires room_for_row { length iters.old.rows < 2 ^ 31 }
    ensures { Gives (λ v. Ok (next_met primary_kind key next v)) result (T.stack tables.now) (T.stack tables.now) iters.old iters.new }
{
    let met = match next {
        None => iters.table(alloc, key),
        Some(primary) => iters.row(alloc, key, primary),
    };
    match met {
        Ok(it) => Ok((it, next)),
        Err(_) => Err(DbFault::OutOfMemory),
    }
}

/// The next row's number and primary key, or the end iterator. What is no row gives -1.
pub fn db_next_i64<T: Tables>(
    alloc: Global,
    tables: &mut T,
    iters: &mut Iters,
    _run: &RunContext,
    it: i32,
) -> Result<(i32, Option<u64>), DbFault>
    requires room_for_table { length iters.old.tables + 1 < 2 ^ 31 }
    requires room_for_row { length iters.old.rows < 2 ^ 31 }
    ensures answer { Gives (next primary_kind it) result (T.stack tables.old) (T.stack tables.new) iters.old iters.new }
    ensures tables { tables.new ≡ tables.old }
{
    if it < -1 {
        return Ok((-1, None));
    }
    let (key, primary) = live_row(iters, it)?;
    let next = key_after(tables, &key, primary);
    meet_next(alloc, tables, iters, key, next)
}

// The row that comes before, or -1.
fn meet_previous<T: Tables>(
    alloc: Global,
    tables: &T,
    iters: &mut Iters,
    key: TableKey,
    previous: Option<u64>,
) -> Result<(i32, Option<u64>), DbFault>
    requires room_for_row { length iters.old.rows < 2 ^ 31 }
    ensures { Gives (λ v. Ok (previous_met primary_kind key previous v)) result (T.stack tables.now) (T.stack tables.now) iters.old iters.new }
{
    let Some(primary) = previous else {
        return Ok((-1, None));
    };
    match iters.row(alloc, key, primary) {
        Ok(it) => Ok((it, previous)),
        Err(_) => Err(DbFault::OutOfMemory),
    }
}

/// The previous row's number and primary key, or -1. From an end iterator, the last row.
pub fn db_previous_i64<T: Tables>(
    alloc: Global,
    tables: &mut T,
    iters: &mut Iters,
    _run: &RunContext,
    it: i32,
) -> Result<(i32, Option<u64>), DbFault>
    requires room_for_row { length iters.old.rows < 2 ^ 31 }
    ensures answer { Gives (previous primary_kind it) result (T.stack tables.old) (T.stack tables.new) iters.old iters.new }
    ensures tables { tables.new ≡ tables.old }
{
    if it < -1 {
        let Some(key) = iters.end_table(it) else {
            return Err(DbFault::BadIterator { value: it });
        };
        let last = last_key(tables, &key);
        return meet_previous(alloc, tables, iters, key, last);
    }
    let (key, primary) = live_row(iters, it)?;
    let previous = key_before(tables, &key, primary);
    meet_previous(alloc, tables, iters, key, previous)
}

// How many bytes there are where n is 0, else the first n of them and their count.
fn shorter(n: u32, bytes: &[u8]) -> (u32, &[u8])
    ensures { (result.0, result.1.now) ≡ shorter n bytes.now }
{
    if n == 0 {
        return ((bytes.len() % (1 << 32)) as u32, &[]);
    }
    match bytes.split_at_checked(n as usize) {
        Some((front, _)) => (n, front),
        None => (bytes.len() as u32, bytes),
    }
}

/// The row's size where n is 0, else its first n bytes and their count.
pub fn db_get_i64<'a, T: Tables>(
    tables: &'a T,
    iters: &mut Iters,
    _run: &RunContext,
    it: i32,
    n: u32,
) -> Result<(u32, &'a [u8]), DbFault>
    ensures { Answers (λ a. (a.0, a.1.now)) (get_i64 it n) result (T.stack tables.now) (T.stack tables.now) iters.old iters.new }
{
    let (key, primary) = live_row(iters, it)?;
    match row_at(tables, &key, primary) {
        Some(row) => Ok(shorter(n, row.bytes.as_slice())),
        None => Err(DbFault::BadIterator { value: it }),
    }
}
