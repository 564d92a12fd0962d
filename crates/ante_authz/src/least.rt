// The permission that an action asks for.
ghost use Rattle.std.specs.Prelude.{◌≡◌};
ghost use Rattle.ante_pack.specs.Forms.{whole};
ghost use Rattle.ante_execution.specs.NativeData.{updateauth, deleteauth};
ghost use Rattle.ante_execution.specs.Authorities.{linked, updated, deleted, least_permission};
ghost use Rattle.ante_authz.specs.Gains.{GivesName};

use crate::lookups::{has_permission, link};
use crate::natives::{read_deleted, read_updated};
use ante_execution::{ACTIVE, AuthFault, NativeAction, native_of};
use ante_pack::{Level, Name, ReadFault};
use ante_store::Store;
use ante_types::Action;
use std::alloc::Global;

// The least permission of the actor that the action asks for.
#[tactic(auto, unfolding(ante_pack::specs::Names::name_number, ante_pack::specs::Names::number_of))]
pub(crate) fn least_permission(
    alloc: Global,
    store: &Store,
    actor: Name,
    action: &Action,
) -> Result<Name, AuthFault>
    ensures { GivesName (least_permission actor action.now store.now.top) result }
{
    match native_of(action) {
        None => Ok(linked(store, actor, action)),
        Some(NativeAction::UpdateAuth) => updated(alloc, store, actor, action.bytes.as_slice()),
        Some(NativeAction::DeleteAuth) => Ok(deleted(action.bytes.as_slice())),
        Some(NativeAction::NewAccount) => Ok(ACTIVE),
        Some(NativeAction::SetCode) => Ok(ACTIVE),
        Some(NativeAction::SetAbi) => Ok(ACTIVE),
        Some(NativeAction::LinkAuth) => Ok(ACTIVE),
        Some(NativeAction::UnlinkAuth) => Ok(ACTIVE),
    }
}

#[tactic(auto, unfolding(ante_pack::specs::Names::name_number, ante_pack::specs::Names::number_of))]
fn linked(store: &Store, actor: Name, action: &Action) -> Name
    ensures { result ≡ linked actor action.now store.now.top }
{
    match link(store, actor, action.account, action.name) {
        Some(name) => name,
        None => link(store, actor, action.account, Name(0)).unwrap_or(ACTIVE),
    }
}

#[tactic(auto, unfolding(ante_pack::specs::Names::name_number, ante_pack::specs::Names::number_of))]
fn updated(alloc: Global, store: &Store, actor: Name, bytes: &[u8]) -> Result<Name, AuthFault>
    ensures { GivesName (updated actor (whole updateauth bytes.now) store.now.top) result }
{
    match read_updated(alloc, bytes) {
        Ok((permission, parent)) => {
            if has_permission(store, Level { actor, permission }) {
                Ok(permission)
            } else {
                Ok(parent)
            }
        }
        Err(ReadFault::OutOfMemory) => Err(AuthFault::OutOfMemory),
        Err(ReadFault::Pack(_)) => Ok(ACTIVE),
    }
}

#[tactic(auto, unfolding(ante_pack::specs::Names::name_number, ante_pack::specs::Names::number_of))]
fn deleted(bytes: &[u8]) -> Name
    ensures { result ≡ deleted (whole deleteauth bytes.now) }
{
    match read_deleted(bytes) {
        Ok(permission) => permission,
        Err(_) => ACTIVE,
    }
}
