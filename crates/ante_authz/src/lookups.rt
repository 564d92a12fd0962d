// What the state says of accounts, permissions and links.
ghost use Rattle.std.specs.Prelude.{◌≡◌};
ghost use Rattle.std.specs.Option.{option_copied, option_map};
ghost use Rattle.ante_calls.specs.Accounts.{is_account, permission_at, has_permission};
ghost use Rattle.ante_execution.specs.Authorities.{link_at};

use ante_pack::{Level, Name};
use ante_state::PermissionRow;
use ante_store::Store;

pub(crate) fn is_account(store: &Store, name: Name) -> bool
    ensures { result ≡ is_account name store.now.top }
{
    store.objects().account(name).is_some()
}

// The permission that the account has linked to the contract's action.
pub(crate) fn link(store: &Store, account: Name, code: Name, action: Name) -> Option<Name>
    ensures { result ≡ link_at account code action store.now.top }
{
    store.objects().link(account, code, action)
}

pub(crate) fn permission(store: &Store, level: Level) -> Option<&PermissionRow>
    ensures { option_copied result ≡ permission_at level store.now.top }
{
    store.objects().permission(level)
}

pub(crate) fn has_permission(store: &Store, level: Level) -> bool
    ensures { result ≡ has_permission level store.now.top }
{
    permission(store, level).is_some()
}

// The name of the permission above.
pub(crate) fn parent(store: &Store, level: Level) -> Option<Name>
    ensures { result ≡ option_map (λ row. row.parent) (permission_at level store.now.top) }
{
    match permission(store, level) {
        Some(row) => Some(row.parent),
        None => None,
    }
}
