// updateauth: a new permission, or another authority for one that is there.
ghost use Rattle.std.specs.Prelude.{◌≡◌, true};
ghost use Rattle.std.specs.Option.{option_copied};
ghost use Rattle.ante_pack.specs.Forms.{whole};
ghost use Rattle.ante_calls.specs.Views.{base_of, ReadyFor};
ghost use Rattle.ante_execution.specs.Native.{with_data, by};
ghost use Rattle.ante_execution.specs.Native.UpdateAuth.{may_be_parent, keeps_parent, updateauth_refusal, updateauth_changes};
ghost use Rattle.ante_execution.specs.NativeData.{updateauth};
ghost use Rattle.ante_native.specs.Data.{updateauth_of};
ghost use Rattle.ante_native.specs.Parts.{Passes, Does, Reads};

use crate::authority::{Present, check_authority};
use crate::lookups::{has_permission, is_active, is_owner, is_reserved, permission};
use crate::parts::{check_acting, data_fault, make};
use ante_execution::NativeFault;
use ante_pack::{Authority, Level, Name, PackReader, Packed, ReadFault};
use ante_state::PermissionRow;
use ante_store::{Change, Store, Tables};
use ante_types::{Failure, RunContext};
use std::alloc::Global;

#[derive(Drop)]
pub(crate) struct UpdateAuthData {
    account: Name,
    permission: Name,
    parent: Name,
    authority: Authority,
}

fn read_updateauth(alloc: Global, bytes: &[u8]) -> Result<UpdateAuthData, ReadFault>
    ensures { Reads updateauth_of (whole updateauth bytes.now) result }
{
    let mut reader = PackReader::new(bytes);
    let account = reader.name()?;
    let permission = reader.name()?;
    let parent = reader.name()?;
    let authority = Authority::read_fields(alloc, &mut reader)?;
    reader.end()?;
    Ok(UpdateAuthData {
        account,
        permission,
        parent,
        authority,
    })
}

fn may_be_parent(store: &Store, updated: &UpdateAuthData) -> bool
    ensures { result ≡ may_be_parent (updateauth_of updated.now) store.now.top }
{
    if is_owner(updated.permission) {
        updated.parent.0 == 0
    } else if is_active(updated.permission) {
        is_owner(updated.parent)
    } else {
        let above = Level {
            actor: updated.account,
            permission: updated.parent,
        };
        has_permission(store, above)
    }
}

fn keeps_parent(row: Option<&PermissionRow>, parent: Name) -> bool
    ensures { result ≡ keeps_parent (option_copied row.entry) parent }
{
    match row {
        None => true,
        Some(row) => row.parent.0 == parent.0,
    }
}

fn check_updateauth(
    alloc: Global,
    store: &Store,
    updated: &UpdateAuthData,
) -> Result<(), NativeFault>
    ensures { Passes (updateauth_refusal (updateauth_of updated.now) store.now.top) result }
{
    let level = Level {
        actor: updated.account,
        permission: updated.permission,
    };
    if updated.permission.0 == 0
        || is_reserved(updated.permission)
        || !may_be_parent(store, updated)
        || !keeps_parent(permission(store, level), updated.parent)
    {
        return Err(NativeFault::Failed(Failure::Native { rule: 4 }));
    }
    check_authority(alloc, &Present { store }, &updated.authority)
}

fn update<T: Tables>(
    alloc: Global,
    tables: &mut T,
    run: &RunContext,
    updated: UpdateAuthData,
) -> Result<(), NativeFault>
    requires writing { T.writing tables.old ≡ true }
    requires ready { ReadyFor run.now.mode (T.stack tables.old) (T.writing tables.old) }
    ensures does { Does (by updated.account run.now (T.stack tables.old).top (updateauth_refusal (updateauth_of updated) (T.stack tables.old).top)
        (updateauth_changes (updateauth_of updated))) result (T.stack tables.new).top }
    ensures base { base_of (T.stack tables.new) (T.writing tables.new) (T.lent tables.new)
        ≡ base_of (T.stack tables.old) (T.writing tables.old) (T.lent tables.old) }
{
    check_acting(tables.store(), updated.account, run)?;
    check_updateauth(alloc, tables.store(), &updated)?;
    let UpdateAuthData {
        account,
        permission,
        parent,
        authority,
    } = updated;
    let change = Change::SetPermission {
        level: Level {
            actor: account,
            permission,
        },
        row: Some(PermissionRow { parent, authority }),
    };
    make(alloc, tables, run, change)
}

/// Does it in writing mode.
pub(crate) fn updateauth<T: Tables>(
    alloc: Global,
    tables: &mut T,
    run: &RunContext,
) -> Result<(), NativeFault>
    requires writing { T.writing tables.old ≡ true }
    requires ready { ReadyFor run.now.mode (T.stack tables.old) (T.writing tables.old) }
    ensures does { Does (with_data (whole updateauth run.now.action.bytes) (λ d. by d.account run.now (T.stack tables.old).top
        (updateauth_refusal d (T.stack tables.old).top) (updateauth_changes d))) result (T.stack tables.new).top }
    ensures base { base_of (T.stack tables.new) (T.writing tables.new) (T.lent tables.new)
        ≡ base_of (T.stack tables.old) (T.writing tables.old) (T.lent tables.old) }
{
    match read_updateauth(alloc, run.action.bytes.as_slice()) {
        Ok(updated) => update(alloc, tables, run, updated),
        Err(fault) => Err(data_fault(fault)),
    }
}
