//! Who signed a transaction, and whether they may send its actions.
ghost use Rattle.std.specs.Prelude.{◌≡◌, ◌<◌, ◌^◌, Option, None, Some, Err, length, IfOk};
ghost use Rattle.ante_execution.specs.Answers.{Checks};
ghost use Rattle.ante_execution.specs.Authorities.{check_action};
ghost use Rattle.ante_execution.specs.Refusals.{first_refusal};
ghost use Rattle.ante_execution.specs.Transactions.{authority_refusal, key_of, keys_from};
ghost use Rattle.ante_types.specs.declared.failure.Failure.{Failure};

use ante_authz::check_action;
use ante_execution::AuthFault;
use ante_pack::{Bytes, Digest, Key, Seq};
use ante_store::Store;
use ante_types::{Action, Failure};
use ante_verdicts::Verdicts;
use std::alloc::{AllocError, Global};

/// The bytes that a signature may have at most.
const MOST_SIGNATURE: usize = 256;

fn key_of<V: Verdicts>(verdicts: &V, digest: &Digest, signature: &[u8]) -> Option<Key>
    ensures { result ≡ key_of (V.judge verdicts.now).recovers digest.now signature.now }
{
    if signature.len() < 1 || signature.len() > MOST_SIGNATURE {
        return None;
    }
    verdicts.recover(digest, signature)
}

// The keys of all signatures, or the place of the first that has none.
fn keys_of<V: Verdicts>(
    alloc: Global,
    verdicts: &V,
    digest: &Digest,
    signatures: &Seq<Bytes>,
) -> Result<Result<Seq<Key>, u32>, AllocError>
    requires few { length signatures.now < 2 ^ 32 }
    ensures { IfOk result (λ keys. keys ≡ keys_from (V.judge verdicts.now).recovers digest.now 0 signatures.now) }
{
    let mut keys = Seq::new(alloc);
    let mut rest = signatures.as_slice();
    let mut place = 0;
    'each: while let Some((signature, others)) = rest.split_first() {
        let Some(key) = key_of(verdicts, digest, signature.as_slice()) else {
            return Ok(Err(place));
        };
        keys.push(alloc, key)?;
        place += 1;
        rest = others;
    }
    Ok(Ok(keys))
}

// How a fault of an action's levels shows.
fn failure_of(fault: AuthFault) -> Result<Failure, AllocError>
    ensures { (refusal : Option Failure) → Checks refusal (Err fault) → IfOk result (λ failure. refusal ≡ Some failure) }
{
    match fault {
        AuthFault::OutOfMemory => Err(AllocError),
        AuthFault::UnknownAccount { name } => Ok(Failure::UnknownAccount { name }),
        AuthFault::MissingAuth { level } => Ok(Failure::MissingAuth {
            actor: level.actor,
            permission: level.permission,
        }),
        AuthFault::Irrelevant { level } => Ok(Failure::Irrelevant {
            actor: level.actor,
            permission: level.permission,
        }),
        AuthFault::AuthWork => Ok(Failure::AuthWork),
    }
}

fn check_action_by(
    alloc: Global,
    store: &Store,
    action: &Action,
    keys: &[Key],
) -> Result<Option<Failure>, AllocError>
    ensures { IfOk result (λ refusal. refusal ≡ check_action store.now.top action.now keys.now None) }
{
    match check_action(alloc, store, action, keys, None) {
        Ok(()) => Ok(None),
        Err(fault) => {
            let failure = failure_of(fault)?;
            Ok(Some(failure))
        }
    }
}

fn check_actions(
    alloc: Global,
    store: &Store,
    actions: &[Action],
    keys: &[Key],
) -> Result<Option<Failure>, AllocError>
    ensures { IfOk result (λ refusal. refusal ≡ first_refusal (λ a. check_action store.now.top a keys.now None) actions.now) }
{
    let mut rest = actions;
    'each: while let Some((action, others)) = rest.split_first() {
        let refusal = check_action_by(alloc, store, action, keys)?;
        if refusal.is_some() {
            return Ok(refusal);
        }
        rest = others;
    }
    Ok(None)
}

/// Each signature tells a key, and the keys suffice for each action's levels.
pub(crate) fn check_authority<V: Verdicts>(
    alloc: Global,
    store: &Store,
    verdicts: &V,
    digest: &Digest,
    actions: &[Action],
    signatures: &Seq<Bytes>,
) -> Result<Option<Failure>, AllocError>
    requires few { length signatures.now < 2 ^ 32 }
    ensures { IfOk result (λ refusal. refusal ≡ authority_refusal store.now.top actions.now (keys_from (V.judge verdicts.now).recovers digest.now 0 signatures.now)) }
{
    match keys_of(alloc, verdicts, digest, signatures)? {
        Ok(keys) => check_actions(alloc, store, actions, keys.as_slice()),
        Err(index) => Ok(Some(Failure::BadSignature { index })),
    }
}
