// linkauth: the permission that actions of a contract ask the account for.
ghost use Rattle.std.specs.Prelude.{◌≡◌, true};
ghost use Rattle.ante_pack.specs.Forms.{whole};
ghost use Rattle.ante_calls.specs.Views.{base_of, ReadyFor};
ghost use Rattle.ante_execution.specs.Native.{with_data, by};
ghost use Rattle.ante_execution.specs.Native.LinkAuth.{is_of_permissions, asks_already, linkauth_refusal, linkauth_changes};
ghost use Rattle.ante_execution.specs.NativeData.{linkauth};
ghost use Rattle.ante_native.specs.Data.{linkauth_of};
ghost use Rattle.ante_native.specs.Parts.{Passes, Does, Reads};

use crate::lookups::{has_permission, is_account, is_eosio_any, is_system, link};
use crate::parts::{check_acting, data_fault, make};
use ante_execution::{NativeAction, NativeFault, native_named};
use ante_pack::{Level, Name, PackReader, ReadFault};
use ante_store::{Change, Store, Tables};
use ante_types::{Failure, RunContext};
use std::alloc::Global;

#[derive(Clone, Copy)]
pub(crate) struct LinkAuthData {
    account: Name,
    code: Name,
    action: Name,
    requirement: Name,
}

fn read_linkauth(bytes: &[u8]) -> Result<LinkAuthData, ReadFault>
    ensures { Reads linkauth_of (whole linkauth bytes.now) result }
{
    let mut reader = PackReader::new(bytes);
    let account = reader.name()?;
    let code = reader.name()?;
    let action = reader.name()?;
    let requirement = reader.name()?;
    reader.end()?;
    Ok(LinkAuthData {
        account,
        code,
        action,
        requirement,
    })
}

fn is_of_permissions(action: Option<NativeAction>) -> bool
    ensures { result ≡ is_of_permissions action }
{
    match action {
        None => false,
        Some(NativeAction::UpdateAuth) => true,
        Some(NativeAction::DeleteAuth) => true,
        Some(NativeAction::LinkAuth) => true,
        Some(NativeAction::UnlinkAuth) => true,
        Some(NativeAction::NewAccount) => false,
        Some(NativeAction::SetCode) => false,
        Some(NativeAction::SetAbi) => false,
    }
}

fn asks_already(link: Option<Name>, requirement: Name) -> bool
    ensures { result ≡ asks_already link requirement }
{
    match link {
        None => false,
        Some(name) => name.0 == requirement.0,
    }
}

fn check_linkauth(store: &Store, linked: &LinkAuthData) -> Result<(), NativeFault>
    ensures { Passes (linkauth_refusal (linkauth_of linked.now) store.now.top) result }
{
    let required = Level {
        actor: linked.account,
        permission: linked.requirement,
    };
    let link = link(store, linked.account, linked.code, linked.action);
    if !is_account(store, linked.code)
        || !has_permission(store, required)
        || is_eosio_any(linked.requirement)
        || (is_system(linked.code) && is_of_permissions(native_named(linked.action)))
        || asks_already(link, linked.requirement)
    {
        Err(NativeFault::Failed(Failure::Native { rule: 6 }))
    } else {
        Ok(())
    }
}

fn link_action<T: Tables>(
    alloc: Global,
    tables: &mut T,
    run: &RunContext,
    linked: &LinkAuthData,
) -> Result<(), NativeFault>
    requires writing { T.writing tables.old ≡ true }
    requires ready { ReadyFor run.now.mode (T.stack tables.old) (T.writing tables.old) }
    ensures does { Does (by linked.now.account run.now (T.stack tables.old).top (linkauth_refusal (linkauth_of linked.now) (T.stack tables.old).top)
        (linkauth_changes (linkauth_of linked.now))) result (T.stack tables.new).top }
    ensures base { base_of (T.stack tables.new) (T.writing tables.new) (T.lent tables.new)
        ≡ base_of (T.stack tables.old) (T.writing tables.old) (T.lent tables.old) }
{
    check_acting(tables.store(), linked.account, run)?;
    check_linkauth(tables.store(), linked)?;
    let change = Change::SetLink {
        account: linked.account,
        code: linked.code,
        action: linked.action,
        requirement: Some(linked.requirement),
    };
    make(alloc, tables, run, change)
}

/// Does it in writing mode.
pub(crate) fn linkauth<T: Tables>(
    alloc: Global,
    tables: &mut T,
    run: &RunContext,
) -> Result<(), NativeFault>
    requires writing { T.writing tables.old ≡ true }
    requires ready { ReadyFor run.now.mode (T.stack tables.old) (T.writing tables.old) }
    ensures does { Does (with_data (whole linkauth run.now.action.bytes) (λ d. by d.account run.now (T.stack tables.old).top
        (linkauth_refusal d (T.stack tables.old).top) (linkauth_changes d))) result (T.stack tables.new).top }
    ensures base { base_of (T.stack tables.new) (T.writing tables.new) (T.lent tables.new)
        ≡ base_of (T.stack tables.old) (T.writing tables.old) (T.lent tables.old) }
{
    match read_linkauth(run.action.bytes.as_slice()) {
        Ok(linked) => link_action(alloc, tables, run, &linked),
        Err(fault) => Err(data_fault(fault)),
    }
}
