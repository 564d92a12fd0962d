// Each map of the parts, read, and changed at one key.
ghost use Rattle.std.specs.Prelude.{◌≡◌, ℕ, Some, None, OnOk, OnErr, IfErr, IsNone, is_some};
ghost use Rattle.std.specs.Option.{option_copied, option_map};
ghost use Rattle.std.specs.FinMap.Entries.{find};
ghost use Rattle.ante_undo.specs.Stack.{with_top, IsAbove};
ghost use Rattle.ante_state.specs.Orders.{name_order, table_order, row_order};
ghost use Rattle.ante_rows.specs.Rows.{table_set, row_set};
ghost use Rattle.ante_objects.specs.Objects.{link_key, recent_key, account_set, permission_set, link_set, recent_set, reference_set};
ghost use Rattle.ante_ram.specs.Usage.{with_quota};
ghost use Rattle.ante_ram.specs.declared.usage.RamFault.TheVariants.{OutOfMemory};
ghost use Rattle.ante_pack.specs.declared.names.TableKey.{TableKey};
ghost use Rattle.ante_secidx.specs.Index.{index_row, with_index_row, without_index_row, moved};
ghost use Rattle.ante_store.specs.Applied.{in_rows, in_indexes, in_objects, with_usage};

use crate::parts::{Kinds, Parts};
use ante_objects::Objects;
use ante_pack::{Digest, Level, Name, TableKey};
use ante_ram::RamFault;
use ante_rows::Rows;
use ante_secidx::{Indexes, Width};
use ante_state::{AccountRow, PermissionRow, PrimaryRow, TableRow};
use std::alloc::{AllocError, Global};

pub(crate) fn rows_of(parts: &Parts) -> &Rows
    ensures { result.now.top ≡ parts.now.top.rows }
{
    &parts.inner.first.first.first
}

pub(crate) fn indexes_of(parts: &Parts) -> &Indexes
    ensures { result.now.top ≡ parts.now.top.indexes }
{
    &parts.inner.first.first.second
}

pub(crate) fn objects_of(parts: &Parts) -> &Objects
    ensures { result.now.top ≡ parts.now.top.objects }
{
    &parts.inner.first.second
}

/// The table object.
pub(crate) fn table_at(parts: &Parts, table: &TableKey) -> Option<TableRow>
    ensures { result ≡ find table_order table.now parts.now.top.rows.tables }
{
    rows_of(parts).table(table).copied()
}

/// The row.
pub(crate) fn row_at<'a>(parts: &'a Parts, table: &TableKey, primary: u64) -> Option<&'a PrimaryRow>
    ensures { option_copied result ≡ find row_order (record { table = table.now; primary = primary }) parts.now.top.rows.rows }
{
    rows_of(parts).row(table, primary)
}

/// Whether the row is there.
pub(crate) fn has_row(parts: &Parts, table: &TableKey, primary: u64) -> bool
    ensures { result ≡ is_some (find row_order (record { table = table.now; primary = primary }) parts.now.top.rows.rows) }
{
    row_at(parts, table, primary).is_some()
}

pub(crate) fn put_row(
    alloc: Global,
    parts: &mut Parts,
    table: TableKey,
    primary: u64,
    row: PrimaryRow,
) -> Result<(), AllocError>
    requires above { IsAbove 1 parts.old }
    ensures ok { OnOk result (parts.new ≡ with_top (in_rows (row_set table primary (Some row)) parts.old.top) parts.old) }
    ensures err { OnErr result (parts.new ≡ parts.old) }
{
    let both = &mut parts.inner;
    let first = &mut both.first;
    let kinds = &mut first.first;
    kinds.first.put_row(alloc, table, primary, row)
}

pub(crate) fn remove_row(
    alloc: Global,
    parts: &mut Parts,
    table: &TableKey,
    primary: u64,
) -> Result<(), AllocError>
    requires above { IsAbove 1 parts.old }
    ensures ok { OnOk result (parts.new ≡ with_top (in_rows (row_set table.now primary None) parts.old.top) parts.old) }
    ensures err { OnErr result (parts.new ≡ parts.old) }
{
    let both = &mut parts.inner;
    let first = &mut both.first;
    let kinds = &mut first.first;
    match kinds.first.remove_row(alloc, table, primary) {
        Ok(_) => Ok(()),
        Err(refused) => Err(refused),
    }
}

pub(crate) fn set_table(
    alloc: Global,
    parts: &mut Parts,
    table: TableKey,
    row: Option<TableRow>,
) -> Result<(), AllocError>
    requires above { IsAbove 1 parts.old }
    ensures ok { OnOk result (parts.new ≡ with_top (in_rows (table_set table row) parts.old.top) parts.old) }
    ensures err { OnErr result (parts.new ≡ parts.old) }
{
    let both = &mut parts.inner;
    let first = &mut both.first;
    let kinds = &mut first.first;
    kinds.first.set_table(alloc, table, row)
}

/// Who pays for the row of a secondary index, if the table has one with the primary key.
pub(crate) fn index_payer<W: Width>(parts: &Parts, table: TableKey, primary: u64) -> Option<Name>
    ensures { result ≡ option_map (λ e. e.1) (index_row table primary (W.rows parts.now.top.indexes)) }
{
    match W::rows_of(indexes_of(parts)).by_primary(table, primary) {
        Some((_, payer)) => Some(payer),
        None => None,
    }
}

/// Whether the table has a row of a secondary index with the primary key.
pub(crate) fn has_index_row<W: Width>(parts: &Parts, table: TableKey, primary: u64) -> bool
    ensures { result ≡ is_some (index_row table primary (W.rows parts.now.top.indexes)) }
{
    W::rows_of(indexes_of(parts))
        .by_primary(table, primary)
        .is_some()
}

/// A table has one row of a width at most with a primary key. The proof is all that this is for.
pub(crate) fn rows_are_single<W: Width>(parts: &Parts)
    ensures { (table : TableKey) (primary : ℕ) → IsNone (index_row table primary (without_index_row W.cmp table primary (W.rows parts.now.top.indexes))) }
{
    W::rows_of(indexes_of(parts)).rows_are_single();
}

/// Puts a row of a secondary index where none stands. Where one stands, memory is wanting.
pub(crate) fn insert_index<W: Width>(
    alloc: Global,
    parts: &mut Parts,
    table: TableKey,
    key: W,
    primary: u64,
    payer: Name,
) -> Result<(), AllocError>
    requires above { IsAbove 1 parts.old }
    ensures ok { OnOk result (parts.new ≡ with_top (in_indexes (W.with_rows (with_index_row W.cmp table key primary payer (W.rows parts.old.top.indexes))) parts.old.top) parts.old) }
    ensures top { parts.new ≡ with_top parts.new.top parts.old }
{
    let both = &mut parts.inner;
    let first = &mut both.first;
    let kinds = &mut first.first;
    insert_among(alloc, kinds, table, key, primary, payer)
}

fn insert_among<W: Width>(
    alloc: Global,
    kinds: &mut Kinds,
    table: TableKey,
    key: W,
    primary: u64,
    payer: Name,
) -> Result<(), AllocError>
    requires above { IsAbove 1 kinds.old }
    ensures ok { OnOk result (kinds.new ≡ with_top (kinds.old.top.0, W.with_rows (with_index_row W.cmp table key primary payer (W.rows kinds.old.top.1)) kinds.old.top.1) kinds.old) }
    ensures top { kinds.new ≡ with_top kinds.new.top kinds.old }
{
    match W::insert(&mut kinds.second, alloc, table, key, primary, payer) {
        Ok(()) => Ok(()),
        Err(_) => Err(AllocError),
    }
}

/// Puts a row of a secondary index, which stands, under another key. Where none stands, memory is wanting.
pub(crate) fn move_index<W: Width>(
    alloc: Global,
    parts: &mut Parts,
    table: TableKey,
    key: W,
    primary: u64,
    payer: Name,
) -> Result<(), AllocError>
    requires above { IsAbove 1 parts.old }
    ensures ok { OnOk result (parts.new ≡ with_top (in_indexes (W.with_rows (moved W.cmp table key primary payer (W.rows parts.old.top.indexes))) parts.old.top) parts.old) }
    ensures top { parts.new ≡ with_top parts.new.top parts.old }
{
    let both = &mut parts.inner;
    let first = &mut both.first;
    let kinds = &mut first.first;
    move_among(alloc, kinds, table, key, primary, payer)
}

fn move_among<W: Width>(
    alloc: Global,
    kinds: &mut Kinds,
    table: TableKey,
    key: W,
    primary: u64,
    payer: Name,
) -> Result<(), AllocError>
    requires above { IsAbove 1 kinds.old }
    ensures ok { OnOk result (kinds.new ≡ with_top (kinds.old.top.0, W.with_rows (moved W.cmp table key primary payer (W.rows kinds.old.top.1)) kinds.old.top.1) kinds.old) }
    ensures top { kinds.new ≡ with_top kinds.new.top kinds.old }
{
    match W::update(&mut kinds.second, alloc, table, key, primary, payer) {
        Ok(()) => Ok(()),
        Err(_) => Err(AllocError),
    }
}

/// Takes a row of a secondary index away, which stands. Where none stands, memory is wanting.
pub(crate) fn remove_index<W: Width>(
    alloc: Global,
    parts: &mut Parts,
    table: TableKey,
    primary: u64,
) -> Result<(), AllocError>
    requires above { IsAbove 1 parts.old }
    ensures ok { OnOk result (parts.new ≡ with_top (in_indexes (W.with_rows (without_index_row W.cmp table primary (W.rows parts.old.top.indexes))) parts.old.top) parts.old) }
    ensures top { parts.new ≡ with_top parts.new.top parts.old }
{
    let both = &mut parts.inner;
    let first = &mut both.first;
    let kinds = &mut first.first;
    match W::remove(&mut kinds.second, alloc, table, primary) {
        Ok(()) => Ok(()),
        Err(_) => Err(AllocError),
    }
}

pub(crate) fn put_account(
    alloc: Global,
    parts: &mut Parts,
    name: Name,
    row: AccountRow,
) -> Result<(), AllocError>
    requires above { IsAbove 1 parts.old }
    ensures ok { OnOk result (parts.new ≡ with_top (in_objects (account_set name (Some row)) parts.old.top) parts.old) }
    ensures err { OnErr result (parts.new ≡ parts.old) }
{
    let both = &mut parts.inner;
    let first = &mut both.first;
    first.second.set_account(alloc, name, Some(row))
}

pub(crate) fn put_permission(
    alloc: Global,
    parts: &mut Parts,
    level: Level,
    row: Option<PermissionRow>,
) -> Result<(), AllocError>
    requires above { IsAbove 1 parts.old }
    ensures ok { OnOk result (parts.new ≡ with_top (in_objects (permission_set level row) parts.old.top) parts.old) }
    ensures err { OnErr result (parts.new ≡ parts.old) }
{
    let both = &mut parts.inner;
    let first = &mut both.first;
    first.second.set_permission(alloc, level, row)
}

pub(crate) fn put_link(
    alloc: Global,
    parts: &mut Parts,
    account: Name,
    code: Name,
    action: Name,
    requirement: Option<Name>,
) -> Result<(), AllocError>
    requires above { IsAbove 1 parts.old }
    ensures ok { OnOk result (parts.new ≡ with_top (in_objects (link_set (link_key (account, code, action)) requirement) parts.old.top) parts.old) }
    ensures err { OnErr result (parts.new ≡ parts.old) }
{
    let both = &mut parts.inner;
    let first = &mut both.first;
    first
        .second
        .set_link(alloc, account, code, action, requirement)
}

pub(crate) fn put_recent(
    alloc: Global,
    parts: &mut Parts,
    expiration: u32,
    id: Digest,
    there: bool,
) -> Result<(), AllocError>
    requires above { IsAbove 1 parts.old }
    ensures ok { OnOk result (parts.new ≡ with_top (in_objects (recent_set (recent_key (expiration, id)) there) parts.old.top) parts.old) }
    ensures err { OnErr result (parts.new ≡ parts.old) }
{
    let both = &mut parts.inner;
    let first = &mut both.first;
    first.second.set_recent(alloc, expiration, id, there)
}

pub(crate) fn put_reference(
    alloc: Global,
    parts: &mut Parts,
    low: u16,
    id: Digest,
) -> Result<(), AllocError>
    requires above { IsAbove 1 parts.old }
    ensures ok { OnOk result (parts.new ≡ with_top (in_objects (reference_set low (Some id)) parts.old.top) parts.old) }
    ensures err { OnErr result (parts.new ≡ parts.old) }
{
    let both = &mut parts.inner;
    let first = &mut both.first;
    first.second.set_reference(alloc, low, Some(id))
}

pub(crate) fn put_quota(
    alloc: Global,
    parts: &mut Parts,
    account: Name,
    quota: i64,
) -> Result<(), RamFault>
    requires above { IsAbove 1 parts.old }
    ensures ok { OnOk result (parts.new ≡ with_top (with_usage (with_quota name_order account quota parts.old.top.usage) parts.old.top) parts.old) }
    ensures fault { IfErr result (λ fault. fault ≡ OutOfMemory) }
    ensures err { OnErr result (parts.new ≡ parts.old) }
{
    let both = &mut parts.inner;
    both.second.set_quota(alloc, account, quota)
}
