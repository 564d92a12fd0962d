ghost use Rattle.std.specs.Prelude.{◌≡◌, ◌<◌, ◌^◌, length, IfOk};
ghost use Rattle.std.specs.Prelude.{◌==◌, IsTrue};
ghost use Rattle.ante_types.specs.Labels.{is_label};
ghost use Rattle.std.specs.List.{list_any};
ghost use Rattle.ante_pack.specs.Names.{name_number, name_text};
ghost use Rattle.ante_types.specs.Genesis.{eosio};
ghost use Rattle.ante_types.specs.declared.failure.Failure.TheVariants.{Unsupported, WriteRefused};
ghost use Rattle.std.specs.List.{position};
ghost use Rattle.ante_node.specs.ReadOnly.{account_failure, builtin_world, check_failure, first_where, has_level, is_native, is_there, native_names, read_only, run_of, runs_from, unknown_account, write_refused};

use ante_pack::{Bytes, Name, Seq};
use ante_types::limits::MOST_TRANSACTION_BYTES;
use ante_types::{
    Action, ActionTrace, EOSIO, Failure, Head, Label, ReadJob, Trace, Transaction, trx_id,
};
use std::alloc::{AllocError, Global};

/// The actions that the system's account does itself: newaccount, setcode, setabi, updateauth, deleteauth, linkauth and
/// unlinkauth.
const NATIVE_NAMES: [u64; 7] = [
    11148770977341390848,
    14029427681804681216,
    14029385431137648640,
    15371467950649982976,
    5378050746259030016,
    10063015651234021376,
    15340080295291076608,
];

#[tactic(auto, unfolding(ante_pack::specs::Names::name_number, ante_pack::specs::Names::number_of))]
fn is_system(name: Name) -> bool
    ensures { result ≡ (name.0 == eosio.0) }
{
    name.0 == EOSIO.0
}

/// The system's account is the only one.
fn is_there(name: Name) -> bool
    ensures { result ≡ is_there builtin_world name }
{
    is_system(name)
}

#[tactic(auto, unfolding(ante_pack::specs::Names::name_number, ante_pack::specs::Names::number_of))]
fn is_native_name(name: u64) -> bool
    ensures { result ≡ list_any (λ text. name_number text == name) native_names }
{
    NATIVE_NAMES.contains(&name)
}

fn is_native(action: &Action) -> bool
    ensures { result ≡ is_native action.now }
{
    if !is_system(action.account) {
        return false;
    }
    is_native_name(action.name.0)
}

fn unsupported(alloc: Global, field: &[u8]) -> Result<Option<Failure>, AllocError>
    requires { IsTrue (is_label field.now) }
    ensures { IfOk result (λ f. f ≡ Some (Unsupported field.now)) }
{
    let field = Label::new(alloc, field)?;
    Ok(Some(Failure::Unsupported { field }))
}

/// The place of the first action that has a level.
fn first_authorized(actions: &[Action]) -> Option<u32>
    requires { length actions.now < 2 ^ 32 }
    ensures { result ≡ position has_level actions.now }
{
    for (i, action) in actions.iter().enumerate() {
        if action.authorization.len() > 0 {
            return Some(i as u32);
        }
    }
    None
}

/// The first account that isn't there.
fn first_unknown(actions: &[Action]) -> Option<Name>
    ensures { result ≡ first_where (unknown_account builtin_world) actions.now }
{
    for action in actions {
        if !is_there(action.account) {
            return Some(action.account);
        }
    }
    None
}

#[tactic(auto, unfolding(crate::specs::ReadOnly::account_failure))]
fn account_failure(actions: &[Action]) -> Option<Failure>
    requires { length actions.now < 2 ^ 32 }
    ensures { result ≡ account_failure builtin_world actions.now }
{
    match first_authorized(actions) {
        Some(action) => Some(Failure::HasAuthorization { action }),
        None => match first_unknown(actions) {
            Some(name) => Some(Failure::UnknownAccount { name }),
            None => None,
        },
    }
}

/// The first check that the transaction fails.
#[tactic(auto, unfolding(crate::specs::ReadOnly::check_failure))]
fn check_failure(
    alloc: Global,
    size: usize,
    trx: &Transaction,
) -> Result<Option<Failure>, AllocError>
    requires { length trx.now.actions < 2 ^ 32 }
    ensures { IfOk result (λ f. f ≡ check_failure builtin_world size trx.now) }
{
    if trx.actions.len() == 0 {
        return Ok(Some(Failure::NoAction));
    }
    if trx.context_free_actions.len() != 0 {
        return unsupported(alloc, b"context_free_actions");
    }
    if trx.delay_sec != 0 {
        return unsupported(alloc, b"delay_sec");
    }
    if trx.extensions.len() != 0 {
        return unsupported(alloc, b"extensions");
    }
    if size > MOST_TRANSACTION_BYTES {
        return Ok(Some(Failure::TooBig));
    }
    Ok(account_failure(trx.actions.as_slice()))
}

fn run_of(alloc: Global, ordinal: u32, action: &Action) -> Result<ActionTrace, AllocError>
    ensures { IfOk result (λ run. run ≡ run_of ordinal action.now) }
{
    Ok(ActionTrace {
        ordinal,
        creator: 0,
        receiver: action.account,
        account: action.account,
        name: action.name,
        bytes: Bytes::from_slice(alloc, action.bytes.as_slice())?,
        console: Bytes::new(alloc),
        return_value: Bytes::new(alloc),
        steps: 1,
    })
}

/// What a native action is refused with.
fn refusal(alloc: Global, name: Name) -> Result<Failure, AllocError>
    ensures { IfOk result (λ f. f ≡ WriteRefused (name_text name.0)) }
{
    let intrinsic = Label::of_name(alloc, name)?;
    Ok(Failure::WriteRefused { intrinsic })
}

/// Runs the actions in their order, up to the first that is native.
fn run_actions(
    alloc: Global,
    actions: &[Action],
) -> Result<(Seq<ActionTrace>, Option<Failure>), AllocError>
    requires { length actions.now < 2 ^ 32 }
    ensures runs { IfOk result (λ r. r.0 ≡ runs_from 1 actions.now) }
    ensures failure { IfOk result (λ r. r.1 ≡ first_where write_refused actions.now) }
{
    let mut runs = Seq::new(alloc);
    for (i, action) in actions.iter().enumerate() {
        let run = run_of(alloc, i as u32 + 1, action)?;
        runs.push(alloc, run)?;
        if is_native(action) {
            let refused = refusal(alloc, action.name)?;
            return Ok((runs, Some(refused)));
        }
    }
    Ok((runs, None))
}

/// The trace of a read-only transaction on the built-in genesis.
#[tactic(auto, unfolding(crate::specs::ReadOnly::read_only))]
pub fn read_only(
    alloc: Global,
    position: u64,
    head: Head,
    job: &ReadJob,
) -> Result<Trace, AllocError>
    ensures { IfOk result (λ trace. trace ≡ read_only builtin_world position head job.now) }
{
    let packed = job.packed().as_slice();
    let trx = job.trx();
    let id = trx_id(packed);
    let failed = check_failure(alloc, packed.len(), trx)?;
    let (actions, failure) = match failed {
        Some(failure) => (Seq::new(alloc), Some(failure)),
        None => run_actions(alloc, trx.actions.as_slice())?,
    };
    Ok(Trace {
        position,
        head,
        id,
        failure,
        steps: actions.len() as u64,
        actions,
    })
}
