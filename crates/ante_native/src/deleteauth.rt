// deleteauth: a permission goes that nothing needs.
ghost use Rattle.std.specs.Prelude.{◌≡◌, true};
ghost use Rattle.ante_pack.specs.Forms.{whole};
ghost use Rattle.ante_calls.specs.Views.{base_of, ReadyFor};
ghost use Rattle.ante_execution.specs.Native.{with_data, by};
ghost use Rattle.ante_execution.specs.Native.DeleteAuth.{deleteauth_refusal, deleteauth_changes};
ghost use Rattle.ante_execution.specs.NativeData.{deleteauth};
ghost use Rattle.ante_native.specs.Data.{deleteauth_of};
ghost use Rattle.ante_native.specs.Parts.{Passes, Does, Reads};

use crate::lookups::{has_permission, is_active, is_owner};
use crate::parts::{check_acting, data_fault, make};
use ante_execution::NativeFault;
use ante_pack::{Level, Name, PackReader, ReadFault};
use ante_store::{Change, Store, Tables};
use ante_types::{Failure, RunContext};
use std::alloc::Global;

#[derive(Clone, Copy)]
pub(crate) struct DeleteAuthData {
    account: Name,
    permission: Name,
}

fn read_deleteauth(bytes: &[u8]) -> Result<DeleteAuthData, ReadFault>
    ensures { Reads deleteauth_of (whole deleteauth bytes.now) result }
{
    let mut reader = PackReader::new(bytes);
    let account = reader.name()?;
    let permission = reader.name()?;
    reader.end()?;
    Ok(DeleteAuthData {
        account,
        permission,
    })
}

fn deleted_level(deleted: &DeleteAuthData) -> Level
    ensures { result ≡ record { actor = deleted.now.account; permission = deleted.now.permission } }
{
    Level {
        actor: deleted.account,
        permission: deleted.permission,
    }
}

fn check_deleteauth(store: &Store, deleted: &DeleteAuthData) -> Result<(), NativeFault>
    ensures { Passes (deleteauth_refusal (deleteauth_of deleted.now) store.now.top) result }
{
    let level = deleted_level(deleted);
    if is_owner(level.permission)
        || is_active(level.permission)
        || !has_permission(store, level)
        || store.objects().has_child(level)
        || store.objects().has_link_to(level)
    {
        Err(NativeFault::Failed(Failure::Native { rule: 5 }))
    } else {
        Ok(())
    }
}

fn delete<T: Tables>(
    alloc: Global,
    tables: &mut T,
    run: &RunContext,
    deleted: &DeleteAuthData,
) -> Result<(), NativeFault>
    requires writing { T.writing tables.old ≡ true }
    requires ready { ReadyFor run.now.mode (T.stack tables.old) (T.writing tables.old) }
    ensures does { Does (by deleted.now.account run.now (T.stack tables.old).top (deleteauth_refusal (deleteauth_of deleted.now) (T.stack tables.old).top)
        (deleteauth_changes (deleteauth_of deleted.now))) result (T.stack tables.new).top }
    ensures base { base_of (T.stack tables.new) (T.writing tables.new) (T.lent tables.new)
        ≡ base_of (T.stack tables.old) (T.writing tables.old) (T.lent tables.old) }
{
    check_acting(tables.store(), deleted.account, run)?;
    check_deleteauth(tables.store(), deleted)?;
    let change = Change::SetPermission {
        level: deleted_level(deleted),
        row: None,
    };
    make(alloc, tables, run, change)
}

/// Does it in writing mode.
pub(crate) fn deleteauth<T: Tables>(
    alloc: Global,
    tables: &mut T,
    run: &RunContext,
) -> Result<(), NativeFault>
    requires writing { T.writing tables.old ≡ true }
    requires ready { ReadyFor run.now.mode (T.stack tables.old) (T.writing tables.old) }
    ensures does { Does (with_data (whole deleteauth run.now.action.bytes) (λ d. by d.account run.now (T.stack tables.old).top
        (deleteauth_refusal d (T.stack tables.old).top) (deleteauth_changes d))) result (T.stack tables.new).top }
    ensures base { base_of (T.stack tables.new) (T.writing tables.new) (T.lent tables.new)
        ≡ base_of (T.stack tables.old) (T.writing tables.old) (T.lent tables.old) }
{
    match read_deleteauth(run.action.bytes.as_slice()) {
        Ok(deleted) => delete(alloc, tables, run, &deleted),
        Err(fault) => Err(data_fault(fault)),
    }
}
