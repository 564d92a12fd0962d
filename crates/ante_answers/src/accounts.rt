// An account with its permissions, its quota and what it uses.
ghost use Rattle.std.specs.Prelude.{◌≡◌, nat_le, map, IfOk};
ghost use Rattle.std.specs.Option.{option_map};
ghost use Rattle.std.specs.FinMap.Entries.{find};
ghost use Rattle.ante_undo.specs.Entries.{first_entry};
ghost use Rattle.ante_state.specs.Orders.{name_order};
ghost use Rattle.ante_digest.specs.Digest.{quota};
ghost use Rattle.ante_answers.specs.Answers.{account_answer, permission_view, permissions_of};
ghost use Rattle.ante_answers.specs.Walks.{within, Follows};

use crate::packing::packed_authority;
use ante_objects::Objects;
use ante_pack::{Level, Name, Seq};
use ante_state::PermissionRow;
use ante_store::Store;
use ante_views::{PermissionView, ViewAnswer};
use sha2::{Digest as _, Sha256};
use std::alloc::{AllocError, Global};

pub(crate) fn account_answer(
    alloc: Global,
    store: &Store,
    name: Name,
) -> Result<ViewAnswer, AllocError>
    ensures { IfOk result (λ answer. answer ≡ account_answer name (find name_order name store.now.top.accounts) store.now.top) }
{
    let Some(row) = store.objects().account(name) else {
        return Ok(ViewAnswer::Missing);
    };
    let permissions = permission_views(alloc, store.objects(), name)?;
    Ok(ViewAnswer::Account {
        name,
        code_hash: Sha256::digest(row.code.as_slice()),
        permissions,
        privileged: row.privileged,
        ram_quota: quota(store, name),
        ram_usage: store.usage().used(name),
    })
}

fn quota(store: &Store, account: Name) -> i64
    ensures { result ≡ quota store.now.top account }
{
    let usage = store.usage();
    usage.entries_hold();
    usage.quota(account)
}

fn permission_views(
    alloc: Global,
    objects: &Objects,
    account: Name,
) -> Result<Seq<PermissionView>, AllocError>
    ensures { IfOk result (λ views. views ≡ map permission_view (permissions_of account objects.now.top.permissions)) }
{
    let mut given = Seq::new(alloc);
    let mut next = first_permission(objects, account);
    while let Some((level, row)) = next {
        let view = permission_view(alloc, level, row)?;
        given.push(alloc, view)?;
        next = permission_past(objects, account, level);
    }
    Ok(given)
}

fn permission_view(
    alloc: Global,
    level: Level,
    row: &PermissionRow,
) -> Result<PermissionView, AllocError>
    ensures { IfOk result (λ view. view ≡ permission_view (level, row.now)) }
{
    Ok(PermissionView {
        perm_name: level.permission,
        parent: row.parent,
        packed_auth: packed_authority(alloc, &row.authority)?,
    })
}

fn first_permission(objects: &Objects, account: Name) -> Option<(Level, &PermissionRow)>
    ensures { option_map (λ e. (e.0, e.1.now)) result ≡ first_entry (permissions_of account objects.now.top.permissions) }
{
    let least = Level {
        actor: account,
        permission: Name(0),
    };
    let after = up_to_account(account, objects.next_permission(Some(least)));
    match objects.permission(least) {
        Some(row) => Some((least, row)),
        None => after,
    }
}

/// The account's permission that comes after this one.
fn permission_past(
    objects: &Objects,
    account: Name,
    level: Level,
) -> Option<(Level, &PermissionRow)>
    ensures { Follows (permissions_of account objects.now.top.permissions) level (option_map (λ e. (e.0, e.1.now)) result) }
{
    up_to_account(account, objects.next_permission(Some(level)))
}

fn up_to_account<'a>(
    account: Name,
    permission: Option<(Level, &'a PermissionRow)>,
) -> Option<(Level, &'a PermissionRow)>
    ensures { option_map (λ e. (e.0, e.1.now)) result
        ≡ within (λ l. nat_le l.actor.0 account.0) (option_map (λ e. (e.0, e.1.now)) permission.entry) }
{
    match permission {
        Some((level, row)) => {
            if level.actor <= account {
                Some((level, row))
            } else {
                None
            }
        }
        None => None,
    }
}
