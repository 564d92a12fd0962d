// Changes of the parts, with what is billed for them.
ghost use Rattle.std.specs.Prelude.{◌≡◌, ◌+◌, ◌^◌, ◌<◌, length, OnOk, OnErr};
ghost use Rattle.ante_undo.specs.Stack.{with_top, IsAbove};
ghost use Rattle.ante_store.specs.Worlds.{IsBilled};
ghost use Rattle.ante_store.specs.Applied.{MadeOrRefused};

use crate::apply_indexes::{remove_index, store_index, update_index};
use crate::apply_objects::{
    set_account, set_link, set_permission, set_quota, set_recent, set_reference,
};
use crate::apply_rows::{remove_row, store_row, update_row};
use crate::change::{Change, WriteError};
use crate::parts::Parts;
use ante_pack::Key256;
use ante_sessions::Sessions;
use std::alloc::Global;

/// Makes the change in the newest session, or in what stands where none is open. After a refusal nothing is said of the
/// newest values.
pub(crate) fn apply(alloc: Global, parts: &mut Parts, change: Change) -> Result<(), WriteError>
    requires above { IsAbove 1 parts.old }
    requires billed { IsBilled parts.old.top }
    ensures answers { MadeOrRefused change parts.old.top parts.new.top result }
    ensures top { parts.new ≡ with_top parts.new.top parts.old }
{
    match change {
        Change::StoreRow {
            table,
            primary,
            payer,
            bytes,
        } => store_row(alloc, parts, table, primary, payer, bytes),
        Change::UpdateRow {
            table,
            primary,
            payer,
            bytes,
        } => update_row(alloc, parts, table, primary, payer, bytes),
        Change::RemoveRow { table, primary } => remove_row(alloc, parts, table, primary),
        Change::StoreIndex64 {
            table,
            key,
            primary,
            payer,
        } => store_index(alloc, parts, table, key, primary, payer),
        Change::UpdateIndex64 {
            table,
            key,
            primary,
            payer,
        } => update_index(alloc, parts, table, key, primary, payer),
        Change::RemoveIndex64 { table, primary } => {
            remove_index::<u64>(alloc, parts, table, primary)
        }
        Change::StoreIndex128 {
            table,
            key,
            primary,
            payer,
        } => store_index(alloc, parts, table, key, primary, payer),
        Change::UpdateIndex128 {
            table,
            key,
            primary,
            payer,
        } => update_index(alloc, parts, table, key, primary, payer),
        Change::RemoveIndex128 { table, primary } => {
            remove_index::<u128>(alloc, parts, table, primary)
        }
        Change::StoreIndex256 {
            table,
            key,
            primary,
            payer,
        } => store_index(alloc, parts, table, key, primary, payer),
        Change::UpdateIndex256 {
            table,
            key,
            primary,
            payer,
        } => update_index(alloc, parts, table, key, primary, payer),
        Change::RemoveIndex256 { table, primary } => {
            remove_index::<Key256>(alloc, parts, table, primary)
        }
        Change::SetAccount { name, row } => set_account(alloc, parts, name, row),
        Change::SetPermission { level, row } => set_permission(alloc, parts, level, row),
        Change::SetLink {
            account,
            code,
            action,
            requirement,
        } => set_link(alloc, parts, account, code, action, requirement),
        Change::SetQuota { account, quota } => set_quota(alloc, parts, account, quota),
        Change::SetRecent {
            expiration,
            id,
            there,
        } => set_recent(alloc, parts, expiration, id, there),
        Change::SetReference { low, id } => set_reference(alloc, parts, low, id),
    }
}

/// Makes the change, or leaves all as it was: what a refusal leaves half done is taken back with a session inside.
pub(crate) fn apply_whole(
    alloc: Global,
    parts: &mut Parts,
    change: Change,
) -> Result<(), WriteError>
    requires session { 0 < length parts.old.under }
    requires above { IsAbove 1 parts.old }
    requires small { parts.old.revision + 1 < 2 ^ 63 }
    requires billed { IsBilled parts.old.top }
    ensures answers { MadeOrRefused change parts.old.top parts.new.top result }
    ensures ok { OnOk result (parts.new ≡ with_top parts.new.top parts.old) }
    ensures err { OnErr result (parts.new ≡ parts.old) }
{
    parts.begin(alloc)?;
    match apply(alloc, parts, change) {
        Ok(()) => {
            parts.squash();
            Ok(())
        }
        Err(refused) => {
            parts.undo();
            Err(refused)
        }
    }
}
