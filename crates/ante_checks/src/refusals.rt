//! All that is asked of a transaction before its actions run.
ghost use Rattle.std.specs.Prelude.{◌≡◌, ◌<◌, ◌^◌, length, IfOk};
ghost use Rattle.std.specs.List.{position};
ghost use Rattle.ante_execution.specs.Refusals.{first_refusal};
ghost use Rattle.ante_execution.specs.Transactions.{account_refusal, has_level, reading_refusal, transaction_refusal};

use crate::authority::check_authority;
use crate::form::check_form;
use crate::sizes::is_too_big;
use crate::standing::check_standing;
use ante_pack::{Bytes, Digest, Seq};
use ante_store::Store;
use ante_types::limits::MOST_TRANSACTION_BYTES;
use ante_types::{Action, Failure, Transaction, signing_digest, trx_id};
use ante_verdicts::Verdicts;
use std::alloc::{AllocError, Global};

/// Why a transaction is refused before its actions run, in the block of this slot, if it is: the first of its form, its standing, its
/// signatures and its authority.
#[tactic(auto, unfolding(ante_execution::specs::Transactions::transaction_refusal), using(crate::proofs::Lengths::few_signatures))]
pub fn check_transaction<V: Verdicts>(
    alloc: Global,
    store: &Store,
    verdicts: &V,
    chain_id: &Digest,
    slot: u32,
    trx: &Transaction,
    packed: &[u8],
    signatures: &Seq<Bytes>,
) -> Result<Option<Failure>, AllocError>
    ensures { IfOk result (λ refusal. refusal ≡ transaction_refusal (V.judge verdicts.now).recovers chain_id.now store.now.top slot trx.now packed.now signatures.now) }
{
    let refusal = check_form(alloc, is_too_big(packed, signatures), trx)?;
    if refusal.is_some() {
        return Ok(refusal);
    }
    let refusal = check_standing(store, slot, trx, &trx_id(packed));
    if refusal.is_some() {
        return Ok(refusal);
    }
    let digest = signing_digest(chain_id, packed);
    check_authority(
        alloc,
        store,
        verdicts,
        &digest,
        trx.actions.as_slice(),
        signatures,
    )
}

// The place of the first action that has a level.
fn first_authorized(actions: &[Action]) -> Option<u32>
    requires few { length actions.now < 2 ^ 32 }
    ensures { result ≡ position has_level actions.now }
{
    for (i, action) in actions.iter().enumerate() {
        if action.authorization.len() > 0 {
            return Some(i as u32);
        }
    }
    None
}

fn check_account(store: &Store, action: &Action) -> Option<Failure>
    ensures { result ≡ account_refusal store.now.top action.now }
{
    if store.objects().account(action.account).is_some() {
        None
    } else {
        Some(Failure::UnknownAccount {
            name: action.account,
        })
    }
}

fn check_accounts(store: &Store, actions: &[Action]) -> Option<Failure>
    ensures { result ≡ first_refusal (account_refusal store.now.top) actions.now }
{
    let mut rest = actions;
    'each: while let Some((action, others)) = rest.split_first() {
        let refusal = check_account(store, action);
        if refusal.is_some() {
            return refusal;
        }
        rest = others;
    }
    None
}

/// Why a read-only transaction is refused before its actions run, if it is. Signatures, time, reference and repetition aren't looked at.
#[tactic(auto, unfolding(ante_execution::specs::Transactions::reading_refusal))]
pub fn check_reading(
    alloc: Global,
    store: &Store,
    trx: &Transaction,
    packed: &[u8],
) -> Result<Option<Failure>, AllocError>
    requires few { length trx.now.actions < 2 ^ 32 }
    ensures { IfOk result (λ refusal. refusal ≡ reading_refusal store.now.top trx.now packed.now) }
{
    let refusal = check_form(alloc, packed.len() > MOST_TRANSACTION_BYTES, trx)?;
    if refusal.is_some() {
        return Ok(refusal);
    }
    if let Some(action) = first_authorized(trx.actions.as_slice()) {
        return Ok(Some(Failure::HasAuthorization { action }));
    }
    Ok(check_accounts(store, trx.actions.as_slice()))
}
