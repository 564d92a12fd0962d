// The calls that change the state. Where it is only read, each is refused before anything else is looked at.
ghost use Rattle.std.specs.Prelude.{◌≡◌, ◌+◌, ◌<◌, ◌^◌, length, true, is_some, Some};
ghost use Rattle.ante_calls.specs.Kinds.{primary_kind};
ghost use Rattle.ante_calls.specs.RowAnswers.{Gives};
ghost use Rattle.ante_calls.specs.Rows.{store, update, remove, own_row, store_refusal, update_refusal, new_payer, write_fault};
ghost use Rattle.ante_calls.specs.Views.{base_of, ReadyFor};
ghost use Rattle.ante_dbapi.specs.Made.{Makes, stores};

use crate::meeting::meet_both;
use crate::neighbours::row_at;
use crate::payers::{is_account, may_bill};
use crate::walking::live_row;
use ante_calls::DbFault;
use ante_itercache::Iters;
use ante_pack::{Bytes, Name, TableKey};
use ante_state::PrimaryRow;
use ante_store::{Change, Tables, WriteError};
use ante_types::RunContext;
use std::alloc::Global;

fn has_row<T: Tables>(tables: &T, key: &TableKey, primary: u64) -> bool
    ensures { result ≡ is_some (primary_kind.row key.now primary (T.stack tables.now).top) }
{
    row_at(tables, key, primary).is_some()
}

fn write_fault(misplaced: DbFault, error: WriteError) -> DbFault
    ensures { result ≡ write_fault misplaced error }
{
    match error {
        WriteError::OutOfMemory => DbFault::OutOfMemory,
        WriteError::WriteRefused => DbFault::WriteRefused,
        WriteError::RamTotal => DbFault::RamTotal,
        WriteError::Missing | WriteError::Exists => misplaced,
    }
}

/// Makes the change, or says why the state doesn't take it: `misplaced` where the row is there already, or isn't there.
pub fn make<T: Tables>(
    alloc: Global,
    tables: &mut T,
    run: &RunContext,
    change: Change,
    misplaced: DbFault,
) -> Result<(), DbFault>
    requires writing { T.writing tables.old ≡ true }
    requires ready { ReadyFor run.now.mode (T.stack tables.old) (T.writing tables.old) }
    ensures answer { Makes misplaced change result (T.stack tables.old).top (T.stack tables.new).top }
    ensures base { base_of (T.stack tables.new) (T.writing tables.new) (T.lent tables.new) ≡
        base_of (T.stack tables.old) (T.writing tables.old) (T.lent tables.old) }
{
    match tables.write(alloc, change) {
        Ok(()) => Ok(()),
        Err(error) => Err(write_fault(misplaced, error)),
    }
}

fn store_refusal<T: Tables>(
    tables: &T,
    run: &RunContext,
    key: &TableKey,
    payer: Name,
    primary: u64,
) -> Option<DbFault>
    ensures { result ≡ store_refusal primary_kind run.now key.now payer primary (T.stack tables.now).top }
{
    if payer.0 == 0 {
        Some(DbFault::BadPayer { account: payer })
    } else if !is_account(tables, payer) {
        Some(DbFault::UnknownAccount { name: payer })
    } else if has_row(tables, key, primary) {
        Some(DbFault::KeyExists { primary })
    } else if !may_bill(payer, run) {
        Some(DbFault::BadPayer { account: payer })
    } else {
        None
    }
}

// Meets the row and stores it, or does neither.
fn put_row<T: Tables>(
    alloc: Global,
    tables: &mut T,
    iters: &mut Iters,
    run: &RunContext,
    key: TableKey,
    payer: Name,
    id: u64,
    bytes: Bytes,
) -> Result<i32, DbFault>
    requires writing { T.writing tables.old ≡ true }
    requires ready { ReadyFor run.now.mode (T.stack tables.old) (T.writing tables.old) }
    requires room_for_table { length iters.old.tables + 1 < 2 ^ 31 }
    requires room_for_row { length iters.old.rows < 2 ^ 31 }
    ensures answer { Gives (stores key payer id bytes) result (T.stack tables.old) (T.stack tables.new) iters.old iters.new }
    ensures base { base_of (T.stack tables.new) (T.writing tables.new) (T.lent tables.new) ≡
        base_of (T.stack tables.old) (T.writing tables.old) (T.lent tables.old) }
{
    let (met_tables, met_rows) = iters.met();
    let Ok(it) = meet_both(alloc, iters, key, id) else {
        return Err(DbFault::OutOfMemory);
    };
    let change = Change::StoreRow {
        table: key,
        primary: id,
        payer,
        bytes,
    };
    match make(
        alloc,
        tables,
        run,
        change,
        DbFault::KeyExists { primary: id },
    ) {
        Ok(()) => Ok(it),
        Err(fault) => {
            iters.back_to(met_tables, met_rows);
            Err(fault)
        }
    }
}

/// A new row of the receiver's, and its number.
pub fn db_store_i64<T: Tables>(
    alloc: Global,
    tables: &mut T,
    iters: &mut Iters,
    run: &RunContext,
    scope: Name,
    table: Name,
    payer: Name,
    id: u64,
    bytes: &[u8],
) -> Result<i32, DbFault>
    requires ready { ReadyFor run.now.mode (T.stack tables.old) (T.writing tables.old) }
    requires room_for_table { length iters.old.tables + 1 < 2 ^ 31 }
    requires room_for_row { length iters.old.rows < 2 ^ 31 }
    ensures answer { Gives (store primary_kind run.now scope table payer id bytes.now) result (T.stack tables.old) (T.stack tables.new) iters.old iters.new }
    ensures base { base_of (T.stack tables.new) (T.writing tables.new) (T.lent tables.new) ≡
        base_of (T.stack tables.old) (T.writing tables.old) (T.lent tables.old) }
{
    if !tables.writes() {
        return Err(DbFault::WriteRefused);
    }
    let key = TableKey {
        code: run.receiver,
        scope,
        table,
    };
    if let Some(fault) = store_refusal(tables, run, &key, payer, id) {
        return Err(fault);
    }
    let Ok(bytes) = Bytes::from_slice(alloc, bytes) else {
        return Err(DbFault::OutOfMemory);
    };
    put_row(alloc, tables, iters, run, key, payer, id, bytes)
}

/// The table and the primary key of the receiver's own live row with this number.
pub fn own_row(run: &RunContext, iters: &Iters, it: i32) -> Result<(TableKey, u64), DbFault>
    ensures { result ≡ own_row primary_kind run.now it iters.now }
{
    let (key, primary) = live_row(iters, it)?;
    if key.code.0 == run.receiver.0 {
        Ok((key, primary))
    } else {
        Err(DbFault::NotOwner { code: key.code })
    }
}

fn new_payer(payer: Name, row: &PrimaryRow) -> Name
    ensures { result ≡ new_payer primary_kind payer row.now }
{
    if payer.0 == 0 { row.payer } else { payer }
}

fn update_refusal<T: Tables>(
    tables: &T,
    run: &RunContext,
    payer: Name,
    row: &PrimaryRow,
    bytes: &[u8],
) -> Option<DbFault>
    ensures { result ≡ update_refusal primary_kind run.now payer row.now bytes.now (T.stack tables.now).top }
{
    if payer.0 != 0 && !is_account(tables, payer) {
        return Some(DbFault::UnknownAccount { name: payer });
    }
    let payer = new_payer(payer, row);
    let is_raised = payer.0 != row.payer.0 || row.bytes.len() < bytes.len();
    if is_raised && !may_bill(payer, run) {
        return Some(DbFault::BadPayer { account: payer });
    }
    None
}

/// Other bytes for the receiver's own row with this number, and another payer unless the name is empty.
pub fn db_update_i64<T: Tables>(
    alloc: Global,
    tables: &mut T,
    iters: &mut Iters,
    run: &RunContext,
    it: i32,
    payer: Name,
    bytes: &[u8],
) -> Result<(), DbFault>
    requires ready { ReadyFor run.now.mode (T.stack tables.old) (T.writing tables.old) }
    ensures answer { Gives (update primary_kind run.now it payer bytes.now) result (T.stack tables.old) (T.stack tables.new) iters.old iters.new }
    ensures base { base_of (T.stack tables.new) (T.writing tables.new) (T.lent tables.new) ≡
        base_of (T.stack tables.old) (T.writing tables.old) (T.lent tables.old) }
{
    if !tables.writes() {
        return Err(DbFault::WriteRefused);
    }
    let (key, primary) = own_row(run, iters, it)?;
    let misplaced = DbFault::BadIterator { value: it };
    let Some(row) = row_at(tables, &key, primary) else {
        return Err(misplaced);
    };
    if let Some(fault) = update_refusal(tables, run, payer, row, bytes) {
        return Err(fault);
    }
    let payer = new_payer(payer, row);
    let Ok(bytes) = Bytes::from_slice(alloc, bytes) else {
        return Err(DbFault::OutOfMemory);
    };
    let change = Change::UpdateRow {
        table: key,
        primary,
        payer,
        bytes,
    };
    make(alloc, tables, run, change, misplaced)
}

/// The receiver's own row with this number goes, and its number with it.
pub fn db_remove_i64<T: Tables>(
    alloc: Global,
    tables: &mut T,
    iters: &mut Iters,
    run: &RunContext,
    it: i32,
) -> Result<(), DbFault>
    requires ready { ReadyFor run.now.mode (T.stack tables.old) (T.writing tables.old) }
    ensures answer { Gives (remove primary_kind run.now it) result (T.stack tables.old) (T.stack tables.new) iters.old iters.new }
    ensures base { base_of (T.stack tables.new) (T.writing tables.new) (T.lent tables.new) ≡
        base_of (T.stack tables.old) (T.writing tables.old) (T.lent tables.old) }
{
    if !tables.writes() {
        return Err(DbFault::WriteRefused);
    }
    let (key, primary) = own_row(run, iters, it)?;
    let change = Change::RemoveRow {
        table: key,
        primary,
    };
    make(
        alloc,
        tables,
        run,
        change,
        DbFault::BadIterator { value: it },
    )?;
    iters.removed(it);
    Ok(())
}
