// Changes of the chain's own objects and of quotas.
ghost use Rattle.std.specs.Prelude.{◌≡◌};
ghost use Rattle.ante_undo.specs.Stack.{with_top, IsAbove};
ghost use Rattle.ante_store.specs.declared.change.Change.TheVariants as change;
ghost use Rattle.ante_store.specs.Worlds.{IsBilled};
ghost use Rattle.ante_store.specs.Applied.{MadeOrRefused};

use crate::billing::rebill;
use crate::bills::{
    added_permission, of_account, of_link, removed_account, removed_link, removed_permission,
};
use crate::change::WriteError;
use crate::maps;
use crate::parts::Parts;
use ante_pack::{Digest, Level, Name};
use ante_state::{AccountRow, PermissionRow};
use std::alloc::Global;

pub(crate) fn set_account(
    alloc: Global,
    parts: &mut Parts,
    name: Name,
    row: AccountRow,
) -> Result<(), WriteError>
    requires above { IsAbove 1 parts.old }
    requires billed { IsBilled parts.old.top }
    ensures answers { MadeOrRefused (change.SetAccount name row) parts.old.top parts.new.top result }
    ensures top { parts.new ≡ with_top parts.new.top parts.old }
{
    let removed = removed_account(parts, name);
    let added = of_account(name, &row);
    rebill(alloc, parts, &removed, &added)?;
    maps::put_account(alloc, parts, name, row)?;
    Ok(())
}

pub(crate) fn set_permission(
    alloc: Global,
    parts: &mut Parts,
    level: Level,
    row: Option<PermissionRow>,
) -> Result<(), WriteError>
    requires above { IsAbove 1 parts.old }
    requires billed { IsBilled parts.old.top }
    ensures answers { MadeOrRefused (change.SetPermission level row) parts.old.top parts.new.top result }
    ensures top { parts.new ≡ with_top parts.new.top parts.old }
{
    let removed = removed_permission(parts, level);
    let added = added_permission(level, &row);
    rebill(alloc, parts, &removed, &added)?;
    maps::put_permission(alloc, parts, level, row)?;
    Ok(())
}

pub(crate) fn set_link(
    alloc: Global,
    parts: &mut Parts,
    account: Name,
    code: Name,
    action: Name,
    requirement: Option<Name>,
) -> Result<(), WriteError>
    requires above { IsAbove 1 parts.old }
    requires billed { IsBilled parts.old.top }
    ensures answers { MadeOrRefused (change.SetLink account code action requirement) parts.old.top parts.new.top result }
    ensures top { parts.new ≡ with_top parts.new.top parts.old }
{
    let removed = removed_link(parts, account, code, action);
    let added = of_link(account, code, action, requirement);
    rebill(alloc, parts, &removed, &added)?;
    maps::put_link(alloc, parts, account, code, action, requirement)?;
    Ok(())
}

pub(crate) fn set_quota(
    alloc: Global,
    parts: &mut Parts,
    account: Name,
    quota: i64,
) -> Result<(), WriteError>
    requires above { IsAbove 1 parts.old }
    requires billed { IsBilled parts.old.top }
    ensures answers { MadeOrRefused (change.SetQuota account quota) parts.old.top parts.new.top result }
    ensures top { parts.new ≡ with_top parts.new.top parts.old }
{
    match maps::put_quota(alloc, parts, account, quota) {
        Ok(()) => Ok(()),
        Err(_) => Err(WriteError::OutOfMemory),
    }
}

pub(crate) fn set_recent(
    alloc: Global,
    parts: &mut Parts,
    expiration: u32,
    id: Digest,
    there: bool,
) -> Result<(), WriteError>
    requires above { IsAbove 1 parts.old }
    requires billed { IsBilled parts.old.top }
    ensures answers { MadeOrRefused (change.SetRecent expiration id there) parts.old.top parts.new.top result }
    ensures top { parts.new ≡ with_top parts.new.top parts.old }
{
    maps::put_recent(alloc, parts, expiration, id, there)?;
    Ok(())
}

pub(crate) fn set_reference(
    alloc: Global,
    parts: &mut Parts,
    low: u16,
    id: Digest,
) -> Result<(), WriteError>
    requires above { IsAbove 1 parts.old }
    requires billed { IsBilled parts.old.top }
    ensures answers { MadeOrRefused (change.SetReference low id) parts.old.top parts.new.top result }
    ensures top { parts.new ≡ with_top parts.new.top parts.old }
{
    maps::put_reference(alloc, parts, low, id)?;
    Ok(())
}
