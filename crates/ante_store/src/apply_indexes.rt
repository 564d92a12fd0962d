// Changes of the rows of secondary indexes, once over the width of their keys. A table object counts them with the other rows.
ghost use Rattle.std.specs.Prelude.{◌≡◌};
ghost use Rattle.ante_undo.specs.Stack.{with_top, IsAbove};
ghost use Rattle.ante_store.specs.Worlds.{IsBilled};
ghost use Rattle.ante_store.specs.Applied.{MadeOrRefused};

use crate::apply_rows::{count_of, with_row, without_row};
use crate::billing::rebill;
use crate::bills::{Bills, with_closing, with_opening};
use crate::change::WriteError;
use crate::maps;
use crate::maps::{has_index_row, index_payer, table_at};
use crate::parts::Parts;
use crate::widths::Billed;
use ante_pack::{Name, TableKey};
use ante_state::billing::MOST_ROWS;
use std::alloc::Global;

pub(crate) fn store_index<W: Billed>(
    alloc: Global,
    parts: &mut Parts,
    table: TableKey,
    key: W,
    primary: u64,
    payer: Name,
) -> Result<(), WriteError>
    requires above { IsAbove 1 parts.old }
    requires billed { IsBilled parts.old.top }
    ensures answers { MadeOrRefused (W.storing table key primary payer) parts.old.top parts.new.top result }
    ensures top { parts.new ≡ with_top parts.new.top parts.old }
{
    W::is_slot();
    W::are_changes();
    if has_index_row::<W>(parts, table, primary) {
        return Err(WriteError::Exists);
    }
    let object = table_at(parts, &table);
    if count_of(object) >= MOST_ROWS {
        return Err(WriteError::RamTotal);
    }
    let added = with_opening(object, payer, (payer, W::row_size()));
    rebill(alloc, parts, &Bills::none(), &added)?;
    maps::set_table(alloc, parts, table, Some(with_row(object, payer)))?;
    maps::insert_index(alloc, parts, table, key, primary, payer)?;
    Ok(())
}

pub(crate) fn update_index<W: Billed>(
    alloc: Global,
    parts: &mut Parts,
    table: TableKey,
    key: W,
    primary: u64,
    payer: Name,
) -> Result<(), WriteError>
    requires above { IsAbove 1 parts.old }
    requires billed { IsBilled parts.old.top }
    ensures answers { MadeOrRefused (W.updating table key primary payer) parts.old.top parts.new.top result }
    ensures top { parts.new ≡ with_top parts.new.top parts.old }
{
    W::is_slot();
    W::are_changes();
    maps::rows_are_single::<W>(parts);
    let Some(was) = index_payer::<W>(parts, table, primary) else {
        return Err(WriteError::Missing);
    };
    let removed = Bills::one((was, W::row_size()));
    let added = Bills::one((payer, W::row_size()));
    rebill(alloc, parts, &removed, &added)?;
    maps::move_index(alloc, parts, table, key, primary, payer)?;
    Ok(())
}

pub(crate) fn remove_index<W: Billed>(
    alloc: Global,
    parts: &mut Parts,
    table: TableKey,
    primary: u64,
) -> Result<(), WriteError>
    requires above { IsAbove 1 parts.old }
    requires billed { IsBilled parts.old.top }
    ensures answers { MadeOrRefused (W.removing table primary) parts.old.top parts.new.top result }
    ensures top { parts.new ≡ with_top parts.new.top parts.old }
{
    W::is_slot();
    W::are_changes();
    let Some(was) = index_payer::<W>(parts, table, primary) else {
        return Err(WriteError::Missing);
    };
    let object = table_at(parts, &table);
    let removed = with_closing(object, (was, W::row_size()));
    rebill(alloc, parts, &removed, &Bills::none())?;
    maps::set_table(alloc, parts, table, without_row(object))?;
    maps::remove_index::<W>(alloc, parts, table, primary)?;
    Ok(())
}
