// Whom a run may bill.
ghost use Rattle.std.specs.Prelude.{◌≡◌, is_some};
ghost use Rattle.ante_types.specs.Genesis.{eosio};
ghost use Rattle.ante_calls.specs.Accounts.{same_name, is_account, is_actor, may_bill};

use ante_pack::Name;
use ante_store::Tables;
use ante_types::{Action, EOSIO, RunContext};

/// Whether the state has the account.
pub fn is_account<T: Tables>(tables: &T, name: Name) -> bool
    ensures { result ≡ is_account name (T.stack tables.now).top }
{
    tables.store().objects().account(name).is_some()
}

/// The run's own receiver, an actor of its action, unless it is a notification, and for the system anybody.
pub fn may_bill(payer: Name, run: &RunContext) -> bool
    ensures { result ≡ may_bill payer run.now }
{
    is_system(run.receiver)
        || payer.0 == run.receiver.0
        || (!run.notified && is_actor(payer, &run.action))
}

#[tactic(auto, unfolding(ante_pack::specs::Names::name_number, ante_pack::specs::Names::number_of))]
fn is_system(name: Name) -> bool
    ensures { result ≡ same_name name eosio }
{
    name.0 == EOSIO.0
}

fn is_actor(name: Name, action: &Action) -> bool
    ensures { result ≡ is_actor name action.now }
{
    action
        .authorization
        .as_slice()
        .iter()
        .any(|level| level.actor.0 == name.0)
}
