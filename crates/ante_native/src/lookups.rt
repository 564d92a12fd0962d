// What the state says of accounts, permissions and links, and which names are the system's.
ghost use Rattle.std.specs.Prelude.{◌≡◌};
ghost use Rattle.std.specs.Option.{option_copied};
ghost use Rattle.ante_types.specs.Genesis.{eosio};
ghost use Rattle.ante_calls.specs.Accounts.{same_name, account_at, is_account, permission_at, has_permission};
ghost use Rattle.ante_execution.specs.Authorities.{link_at};
ghost use Rattle.ante_execution.specs.NativeData.{owner, active, eosio_code, eosio_any};
ghost use Rattle.ante_execution.specs.Native.Rules.{is_reserved};

use ante_execution::{ACTIVE, EOSIO_ANY, EOSIO_CODE, OWNER};
use ante_pack::{Level, Name, name_text};
use ante_state::{AccountRow, PermissionRow};
use ante_store::Store;
use ante_types::EOSIO;

pub(crate) fn account(store: &Store, name: Name) -> Option<&AccountRow>
    ensures { option_copied result ≡ account_at name store.now.top }
{
    store.objects().account(name)
}

pub(crate) fn is_account(store: &Store, name: Name) -> bool
    ensures { result ≡ is_account name store.now.top }
{
    store.objects().account(name).is_some()
}

pub(crate) fn permission(store: &Store, level: Level) -> Option<&PermissionRow>
    ensures { option_copied result ≡ permission_at level store.now.top }
{
    store.objects().permission(level)
}

pub(crate) fn has_permission(store: &Store, level: Level) -> bool
    ensures { result ≡ has_permission level store.now.top }
{
    store.objects().permission(level).is_some()
}

// The permission that the account has linked to the contract's action.
pub(crate) fn link(store: &Store, account: Name, code: Name, action: Name) -> Option<Name>
    ensures { result ≡ link_at account code action store.now.top }
{
    store.objects().link(account, code, action)
}

#[tactic(auto, unfolding(ante_pack::specs::Names::name_number, ante_pack::specs::Names::number_of))]
pub(crate) fn is_owner(name: Name) -> bool
    ensures { result ≡ same_name name owner }
{
    name.0 == OWNER.0
}

#[tactic(auto, unfolding(ante_pack::specs::Names::name_number, ante_pack::specs::Names::number_of))]
pub(crate) fn is_active(name: Name) -> bool
    ensures { result ≡ same_name name active }
{
    name.0 == ACTIVE.0
}

#[tactic(auto, unfolding(ante_pack::specs::Names::name_number, ante_pack::specs::Names::number_of))]
pub(crate) fn is_eosio_code(name: Name) -> bool
    ensures { result ≡ same_name name eosio_code }
{
    name.0 == EOSIO_CODE.0
}

#[tactic(auto, unfolding(ante_pack::specs::Names::name_number, ante_pack::specs::Names::number_of))]
pub(crate) fn is_eosio_any(name: Name) -> bool
    ensures { result ≡ same_name name eosio_any }
{
    name.0 == EOSIO_ANY.0
}

#[tactic(auto, unfolding(ante_pack::specs::Names::name_number, ante_pack::specs::Names::number_of))]
pub(crate) fn is_system(name: Name) -> bool
    ensures { result ≡ same_name name eosio }
{
    name.0 == EOSIO.0
}

/// Whether the text of the name begins with `eosio.`.
pub(crate) fn is_reserved(name: Name) -> bool
    ensures { result ≡ is_reserved name }
{
    let (text, len) = name_text(name);
    let (front, _) = text.split_at(len);
    front.starts_with(b"eosio.")
}
