// The names that the system knows, and the native actions by their names.
ghost use Rattle.std.specs.Prelude.{◌≡◌};
ghost use Rattle.ante_execution.specs.NativeData.{native_named, native_of};

use crate::kinds::NativeAction;
use ante_pack::Name;
use ante_types::{Action, EOSIO};

/// The permission above all others of an account.
pub const OWNER: Name = Name(0xa726_ab80_0000_0000);

/// The permission that actions ask for, unless another one is linked.
pub const ACTIVE: Name = Name(0x3232_eda8_0000_0000);

/// The permission that a contract satisfies by itself.
pub const EOSIO_CODE: Name = Name(0x5530_ea01_144a_8000);

/// The permission that no action may be linked to.
pub const EOSIO_ANY: Name = Name(0x5530_ea00_d3f0_0000);

const NEWACCOUNT: u64 = 0x9ab8_6422_9a9e_4000;

const SETCODE: u64 = 0xc2b2_8a25_4000_0000;

const SETABI: u64 = 0xc2b2_63b8_0000_0000;

const UPDATEAUTH: u64 = 0xd552_6ca8_dacb_4000;

const DELETEAUTH: u64 = 0x4aa2_aca8_dacb_4000;

const LINKAUTH: u64 = 0x8ba7_036b_2d00_0000;

const UNLINKAUTH: u64 = 0xd4e2_e9c0_dacb_4000;

/// The native action that an action asks the system's account for.
#[tactic(auto, unfolding(ante_pack::specs::Names::name_number, ante_pack::specs::Names::number_of))]
pub fn native_of(action: &Action) -> Option<NativeAction>
    ensures { result ≡ native_of action.now }
{
    if action.account == EOSIO {
        native_named(action.name)
    } else {
        None
    }
}

/// The native action of this name.
#[tactic(auto, unfolding(ante_pack::specs::Names::name_number, ante_pack::specs::Names::number_of))]
pub fn native_named(name: Name) -> Option<NativeAction>
    ensures { result ≡ native_named name }
{
    match name.0 {
        NEWACCOUNT => Some(NativeAction::NewAccount),
        SETCODE => Some(NativeAction::SetCode),
        SETABI => Some(NativeAction::SetAbi),
        UPDATEAUTH => Some(NativeAction::UpdateAuth),
        DELETEAUTH => Some(NativeAction::DeleteAuth),
        LINKAUTH => Some(NativeAction::LinkAuth),
        UNLINKAUTH => Some(NativeAction::UnlinkAuth),
        _ => None,
    }
}
