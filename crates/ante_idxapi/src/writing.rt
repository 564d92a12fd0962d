// The calls that change the state. Where it is only read, each is refused before anything else is looked at.
ghost use Rattle.std.specs.Prelude.{◌≡◌, ◌+◌, ◌<◌, ◌^◌, length, true};
ghost use Rattle.ante_calls.specs.IndexCalls.{index_kind};
ghost use Rattle.ante_calls.specs.RowAnswers.{Gives};
ghost use Rattle.ante_calls.specs.Rows.{store, update, remove, store_refusal, update_refusal, new_payer};
ghost use Rattle.ante_calls.specs.Views.{base_of, ReadyFor};
ghost use Rattle.ante_idxapi.specs.Stored.{stores};

use crate::keys::Indexed;
use crate::places::payer_at;
use ante_calls::DbFault;
use ante_dbapi::{is_account, make, may_bill, meet_both, own_row};
use ante_itercache::Iters;
use ante_pack::{Name, TableKey};
use ante_store::Tables;
use ante_types::RunContext;
use std::alloc::Global;

fn store_refusal<T: Tables, K: Indexed>(
    tables: &T,
    run: &RunContext,
    key: TableKey,
    payer: Name,
    primary: u64,
) -> Option<DbFault>
    ensures { result ≡ store_refusal (index_kind K.form K.index) run.now key payer primary (T.stack tables.now).top }
{
    if payer.0 == 0 {
        Some(DbFault::BadPayer { account: payer })
    } else if !is_account(tables, payer) {
        Some(DbFault::UnknownAccount { name: payer })
    } else if payer_at::<T, K>(tables, key, primary).is_some() {
        Some(DbFault::KeyExists { primary })
    } else if !may_bill(payer, run) {
        Some(DbFault::BadPayer { account: payer })
    } else {
        None
    }
}

// Meets the row and stores it, or does neither.
fn put_row<T: Tables, K: Indexed>(
    alloc: Global,
    tables: &mut T,
    iters: &mut Iters,
    run: &RunContext,
    key: TableKey,
    payer: Name,
    id: u64,
    secondary: K,
) -> Result<i32, DbFault>
    requires writing { T.writing tables.old ≡ true }
    requires ready { ReadyFor run.now.mode (T.stack tables.old) (T.writing tables.old) }
    requires room_for_table { length iters.old.tables + 1 < 2 ^ 31 }
    requires room_for_row { length iters.old.rows < 2 ^ 31 }
    ensures answer { Gives (stores K.form K.index key payer id secondary) result (T.stack tables.old) (T.stack tables.new) iters.old iters.new }
    ensures base { base_of (T.stack tables.new) (T.writing tables.new) (T.lent tables.new) ≡
        base_of (T.stack tables.old) (T.writing tables.old) (T.lent tables.old) }
{
    let (met_tables, met_rows) = iters.met();
    let Ok(it) = meet_both(alloc, iters, key, id) else {
        return Err(DbFault::OutOfMemory);
    };
    let change = K::storing(key, id, payer, secondary);
    match make(
        alloc,
        tables,
        run,
        change,
        DbFault::KeyExists { primary: id },
    ) {
        Ok(()) => Ok(it),
        Err(fault) => {
            iters.back_to(met_tables, met_rows);
            Err(fault)
        }
    }
}

/// A new row of the receiver's, and its number.
pub fn db_idx_store<T: Tables, K: Indexed>(
    alloc: Global,
    tables: &mut T,
    iters: &mut Iters,
    run: &RunContext,
    scope: Name,
    table: Name,
    payer: Name,
    id: u64,
    key: K,
) -> Result<i32, DbFault>
    requires ready { ReadyFor run.now.mode (T.stack tables.old) (T.writing tables.old) }
    requires room_for_table { length iters.old.tables + 1 < 2 ^ 31 }
    requires room_for_row { length iters.old.rows < 2 ^ 31 }
    ensures answer { Gives (store (index_kind K.form K.index) run.now scope table payer id key) result (T.stack tables.old) (T.stack tables.new) iters.old iters.new }
    ensures base { base_of (T.stack tables.new) (T.writing tables.new) (T.lent tables.new) ≡
        base_of (T.stack tables.old) (T.writing tables.old) (T.lent tables.old) }
{
    if !tables.writes() {
        return Err(DbFault::WriteRefused);
    }
    let at = TableKey {
        code: run.receiver,
        scope,
        table,
    };
    if let Some(fault) = store_refusal::<T, K>(tables, run, at, payer, id) {
        return Err(fault);
    }
    put_row(alloc, tables, iters, run, at, payer, id, key)
}

fn new_payer<K: Indexed>(payer: Name, row: Name) -> Name
    ensures { result ≡ new_payer (index_kind K.form K.index) payer row }
{
    if payer.0 == 0 { row } else { payer }
}

fn update_refusal<T: Tables, K: Indexed>(
    tables: &T,
    run: &RunContext,
    payer: Name,
    row: Name,
    key: K,
) -> Option<DbFault>
    ensures { result ≡ update_refusal (index_kind K.form K.index) run.now payer row key (T.stack tables.now).top }
{
    if payer.0 != 0 && !is_account(tables, payer) {
        return Some(DbFault::UnknownAccount { name: payer });
    }
    let payer = new_payer::<K>(payer, row);
    if payer.0 != row.0 && !may_bill(payer, run) {
        return Some(DbFault::BadPayer { account: payer });
    }
    None
}

/// Another secondary key for the receiver's own row with this number, and another payer unless the name is empty.
pub fn db_idx_update<T: Tables, K: Indexed>(
    alloc: Global,
    tables: &mut T,
    iters: &mut Iters,
    run: &RunContext,
    it: i32,
    payer: Name,
    key: K,
) -> Result<(), DbFault>
    requires ready { ReadyFor run.now.mode (T.stack tables.old) (T.writing tables.old) }
    ensures answer { Gives (update (index_kind K.form K.index) run.now it payer key) result (T.stack tables.old) (T.stack tables.new) iters.old iters.new }
    ensures base { base_of (T.stack tables.new) (T.writing tables.new) (T.lent tables.new) ≡
        base_of (T.stack tables.old) (T.writing tables.old) (T.lent tables.old) }
{
    if !tables.writes() {
        return Err(DbFault::WriteRefused);
    }
    let (at, primary) = own_row(run, iters, it)?;
    let misplaced = DbFault::BadIterator { value: it };
    let Some(row) = payer_at::<T, K>(tables, at, primary) else {
        return Err(misplaced);
    };
    if let Some(fault) = update_refusal(tables, run, payer, row, key) {
        return Err(fault);
    }
    let payer = new_payer::<K>(payer, row);
    let change = K::updating(at, primary, payer, key);
    make(alloc, tables, run, change, misplaced)
}

/// The receiver's own row with this number goes, and its number with it.
pub fn db_idx_remove<T: Tables, K: Indexed>(
    alloc: Global,
    tables: &mut T,
    iters: &mut Iters,
    run: &RunContext,
    it: i32,
) -> Result<(), DbFault>
    requires ready { ReadyFor run.now.mode (T.stack tables.old) (T.writing tables.old) }
    ensures answer { Gives (remove (index_kind K.form K.index) run.now it) result (T.stack tables.old) (T.stack tables.new) iters.old iters.new }
    ensures base { base_of (T.stack tables.new) (T.writing tables.new) (T.lent tables.new) ≡
        base_of (T.stack tables.old) (T.writing tables.old) (T.lent tables.old) }
{
    if !tables.writes() {
        return Err(DbFault::WriteRefused);
    }
    let (at, primary) = own_row(run, iters, it)?;
    let change = K::removing(at, primary);
    make(
        alloc,
        tables,
        run,
        change,
        DbFault::BadIterator { value: it },
    )?;
    iters.removed(it);
    Ok(())
}
