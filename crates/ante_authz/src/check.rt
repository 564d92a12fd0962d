// The check of an action's permissions.
ghost use Rattle.ante_execution.specs.Answers.{Checks};
ghost use Rattle.ante_execution.specs.Authorities.{check_action, level_refusal};
ghost use Rattle.ante_execution.specs.Refusals.{first_refusal};

use crate::ancestors::is_or_is_above;
use crate::least::least_permission;
use crate::lookups::{has_permission, is_account};
use crate::weights::satisfied;
use ante_execution::{AuthFault, Weighed};
use ante_pack::{Key, Level, Name};
use ante_store::Store;
use ante_types::Action;
use std::alloc::Global;

// The permissions that may be looked at for each permission of an action.
const MOST_VISITS: u32 = 512;

/// Whether the action may be sent with these keys, and by this contract where one sends it. Memory is taken where the data of
/// a native action is read.
#[tactic(auto, unfolding(ante_execution::specs::Authorities::check_action))]
pub fn check_action(
    alloc: Global,
    store: &Store,
    action: &Action,
    keys: &[Key],
    code: Option<Name>,
) -> Result<(), AuthFault>
    ensures { Checks (check_action store.now.top action.now keys.now code) result }
{
    if is_account(store, action.account) {
        check_levels(alloc, store, action, keys, code)
    } else {
        Err(AuthFault::UnknownAccount {
            name: action.account,
        })
    }
}

fn check_levels(
    alloc: Global,
    store: &Store,
    action: &Action,
    keys: &[Key],
    code: Option<Name>,
) -> Result<(), AuthFault>
    ensures { Checks (first_refusal (level_refusal store.now.top action.now keys.now code) action.now.authorization) result }
{
    let mut rest = action.authorization.as_slice();
    'levels: while let Some((level, others)) = rest.split_first() {
        check_level(alloc, store, action, keys, code, *level)?;
        rest = others;
    }
    Ok(())
}

fn check_level(
    alloc: Global,
    store: &Store,
    action: &Action,
    keys: &[Key],
    code: Option<Name>,
    level: Level,
) -> Result<(), AuthFault>
    ensures { Checks (level_refusal store.now.top action.now keys.now code level) result }
{
    if !has_permission(store, level) {
        return Err(AuthFault::MissingAuth { level });
    }
    let least = least_permission(alloc, store, level.actor, action)?;
    if !is_or_is_above(store, level, least) {
        return Err(AuthFault::Irrelevant { level });
    }
    let mut visits = MOST_VISITS;
    match satisfied(store, level, keys, code, &mut visits) {
        Weighed::Yes => Ok(()),
        Weighed::No => Err(AuthFault::MissingAuth { level }),
        Weighed::Spent => Err(AuthFault::AuthWork),
    }
}
