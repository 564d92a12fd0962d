// Whether the action that a run sent last may be sent.
ghost use Rattle.std.specs.Prelude.{◌≡◌, List, ℕ};
ghost use Rattle.std.specs.Option.{option_copied};
ghost use Rattle.ante_calls.specs.Accounts.{same_name};
ghost use Rattle.ante_calls.specs.Views.{Lists};
ghost use Rattle.ante_execution.specs.Hosts.{last_sent, sent_refusal};
ghost use Rattle.ante_host.specs.Sending.{RefusedBy, Lets};
ghost use Rattle.ante_types.specs.Genesis.{eosio};

use ante_authz::check_action;
use ante_execution::AuthFault;
use ante_pack::Name;
use ante_store::Store;
use ante_types::{Action, EOSIO, Failure, RunContext};
use ante_wmem::HostAnswer;
use std::alloc::Global;

#[tactic(auto, unfolding(ante_pack::specs::Names::name_number, ante_pack::specs::Names::number_of))]
fn is_system(name: Name) -> bool
    ensures { result ≡ same_name name eosio }
{
    name.0 == EOSIO.0
}

// What the check refuses it for.
fn refused(fault: AuthFault) -> HostAnswer<Failure>
    ensures { RefusedBy fault result }
{
    match fault {
        AuthFault::OutOfMemory => HostAnswer::OutOfMemory,
        AuthFault::UnknownAccount { name } => {
            HostAnswer::Refused(Failure::UnknownAccount { name })
        }
        AuthFault::MissingAuth { level } => HostAnswer::Refused(Failure::MissingAuth {
            actor: level.actor,
            permission: level.permission,
        }),
        AuthFault::Irrelevant { level } => HostAnswer::Refused(Failure::Irrelevant {
            actor: level.actor,
            permission: level.permission,
        }),
        AuthFault::AuthWork => HostAnswer::Refused(Failure::AuthWork),
    }
}

fn last_sent(run: &RunContext) -> Option<&Action>
    ensures { option_copied result ≡ last_sent run.now }
{
    let inlines = run.inlines.as_slice();
    inlines.get(inlines.len().saturating_sub(1))
}

/// `Nothing` where it may be sent. It is checked with no keys, and the sending contract as the code; what the system's account sends isn't checked.
pub(crate) fn sent(alloc: Global, store: &Store, run: &RunContext) -> HostAnswer<Failure>
    ensures { (lists : Lists) (packed : List ℕ) →
        Lets (sent_refusal (record { world = store.now.top; lists = lists; run = run.now; packed = packed })) result }
{
    if is_system(run.receiver) {
        return HostAnswer::Nothing;
    }
    let Some(action) = last_sent(run) else {
        return HostAnswer::Nothing;
    };
    match check_action(alloc, store, action, &[], Some(run.receiver)) {
        Ok(()) => HostAnswer::Nothing,
        Err(fault) => refused(fault),
    }
}
