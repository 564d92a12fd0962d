// Changes of rows. A table object counts the rows of its table: it comes with the first and goes with the last.
ghost use Rattle.std.specs.Prelude.{◌≡◌, ◌<◌};
ghost use Rattle.ante_undo.specs.Stack.{with_top, IsAbove};
ghost use Rattle.ante_store.specs.declared.change.Change.TheVariants as change;
ghost use Rattle.ante_state.specs.Billing.{most_rows};
ghost use Rattle.ante_store.specs.Changes.{with_row, without_row, count_of};
ghost use Rattle.ante_store.specs.Worlds.{IsBilled};
ghost use Rattle.ante_store.specs.Applied.{MadeOrRefused};

use crate::billing::rebill;
use crate::bills::{Bills, row_bill, with_closing, with_opening};
use crate::change::WriteError;
use crate::maps;
use crate::maps::{has_row, row_at, table_at};
use crate::parts::Parts;
use ante_pack::{Bytes, Name, TableKey};
use ante_state::billing::MOST_ROWS;
use ante_state::{PrimaryRow, TableRow};
use std::alloc::Global;

pub(crate) fn store_row(
    alloc: Global,
    parts: &mut Parts,
    table: TableKey,
    primary: u64,
    payer: Name,
    bytes: Bytes,
) -> Result<(), WriteError>
    requires above { IsAbove 1 parts.old }
    requires billed { IsBilled parts.old.top }
    ensures answers { MadeOrRefused (change.StoreRow table primary payer bytes) parts.old.top parts.new.top result }
    ensures top { parts.new ≡ with_top parts.new.top parts.old }
{
    if has_row(parts, &table, primary) {
        return Err(WriteError::Exists);
    }
    let object = table_at(parts, &table);
    if count_of(object) >= MOST_ROWS {
        return Err(WriteError::RamTotal);
    }
    let added = with_opening(object, payer, row_bill(payer, &bytes));
    rebill(alloc, parts, &Bills::none(), &added)?;
    maps::set_table(alloc, parts, table, Some(with_row(object, payer)))?;
    maps::put_row(alloc, parts, table, primary, PrimaryRow { payer, bytes })?;
    Ok(())
}

pub(crate) fn update_row(
    alloc: Global,
    parts: &mut Parts,
    table: TableKey,
    primary: u64,
    payer: Name,
    bytes: Bytes,
) -> Result<(), WriteError>
    requires above { IsAbove 1 parts.old }
    requires billed { IsBilled parts.old.top }
    ensures answers { MadeOrRefused (change.UpdateRow table primary payer bytes) parts.old.top parts.new.top result }
    ensures top { parts.new ≡ with_top parts.new.top parts.old }
{
    let Some(was) = row_at(parts, &table, primary) else {
        return Err(WriteError::Missing);
    };
    let removed = Bills::one(row_bill(was.payer, &was.bytes));
    let added = Bills::one(row_bill(payer, &bytes));
    rebill(alloc, parts, &removed, &added)?;
    maps::put_row(alloc, parts, table, primary, PrimaryRow { payer, bytes })?;
    Ok(())
}

pub(crate) fn remove_row(
    alloc: Global,
    parts: &mut Parts,
    table: TableKey,
    primary: u64,
) -> Result<(), WriteError>
    requires above { IsAbove 1 parts.old }
    requires billed { IsBilled parts.old.top }
    ensures answers { MadeOrRefused (change.RemoveRow table primary) parts.old.top parts.new.top result }
    ensures top { parts.new ≡ with_top parts.new.top parts.old }
{
    let Some(was) = row_at(parts, &table, primary) else {
        return Err(WriteError::Missing);
    };
    let row = row_bill(was.payer, &was.bytes);
    let object = table_at(parts, &table);
    let removed = with_closing(object, row);
    rebill(alloc, parts, &removed, &Bills::none())?;
    maps::set_table(alloc, parts, table, without_row(object))?;
    maps::remove_row(alloc, parts, &table, primary)?;
    Ok(())
}

pub(crate) fn count_of(object: Option<TableRow>) -> u32
    ensures { result ≡ count_of object }
{
    match object {
        Some(table) => table.count,
        None => 0,
    }
}

pub(crate) fn with_row(object: Option<TableRow>, payer: Name) -> TableRow
    requires room { count_of object < most_rows }
    ensures { result ≡ with_row object payer }
{
    match object {
        Some(table) => TableRow {
            payer: table.payer,
            count: table.count + 1,
        },
        None => TableRow { payer, count: 1 },
    }
}

pub(crate) fn without_row(object: Option<TableRow>) -> Option<TableRow>
    ensures { result ≡ without_row object }
{
    match object {
        Some(table) => {
            if table.count <= 1 {
                None
            } else {
                Some(TableRow {
                    payer: table.payer,
                    count: table.count - 1,
                })
            }
        }
        None => None,
    }
}
