//! The actions of a transaction, in a session of its own.
ghost use Rattle.std.specs.Prelude.{◌≡◌, ◌≤◌, ◌<◌, ◌+◌, ℕ, None, Ok, Err, length, IfOk, OnOk, OnErr};
ghost use Rattle.ante_accepts.specs.Accepting.{chain_codes};
ghost use Rattle.ante_apply.specs.Going.{going, Follows};
ghost use Rattle.ante_calls.specs.ActionData.{IsPacked};
ghost use Rattle.ante_execution.specs.Actions.{apply_all};
ghost use Rattle.ante_execution.specs.declared.ends.ApplyEnd.TheVariants as ends;
ghost use Rattle.ante_execution.specs.Transactions.{transacted, writing_scene, with_recent};
ghost use Rattle.ante_pack.specs.Forms.{whole};
ghost use Rattle.ante_transactions.specs.Transacting.{ActsTo};
ghost use Rattle.ante_types.specs.Chain.{transaction};
ghost use Rattle.ante_undo.specs.Stack.{with_top, under_top, IsAbove};

use crate::actions::apply_all;
use crate::acts::change;
use crate::traces::{head_of, trace_with};
use ante_apply::ApplyEnd;
use ante_base::NeverStop;
use ante_checks::check_memory;
use ante_modcache::ModuleCache;
use ante_pack::{Bytes, Seq};
use ante_store::{Change, Store, Writing};
use ante_types::limits::MOST_TRANSACTION_STEPS;
use ante_types::{Action, ActionTrace, BlockInfo, Failure, Trace, Transaction, trx_id};
use std::alloc::{AllocError, Global};

// The actions, in the newest session.
fn apply_in_session(
    alloc: Global,
    modules: &ModuleCache,
    store: &mut Store,
    slot: u32,
    packed: &Bytes,
    actions: &[Action],
    left: &mut u64,
    traces: &mut Seq<ActionTrace>,
) -> Result<(), ApplyEnd>
    requires small { length traces.old + left.old ≤ 100000000 }
    requires session { 0 < length store.old.under }
    requires above { IsAbove 1 store.old }
    requires packed { IsPacked packed.now }
    ensures follows { Follows (λ done n. going store.new.top left.new traces.new n) 0 None None (apply_all chain_codes (writing_scene slot packed.now) actions.now
        (going store.old.top left.old traces.old 0)) result left.new traces.new }
    ensures whole { (at : ℕ) → result ≡ Err (ends.Cut at) → ⊥ }
    ensures base { store.new ≡ with_top store.new.top store.old }
{
    let mut stop = NeverStop;
    let mut tables = Writing(store);
    let end = apply_all(
        alloc,
        &mut tables,
        modules,
        slot,
        packed,
        actions,
        &mut stop,
        left,
        traces,
    );
    let Writing(lent) = tables;
    let _store = lent;
    end
}

// Why the actions failed, if they did, or used too much memory.
fn act(
    alloc: Global,
    modules: &ModuleCache,
    store: &mut Store,
    slot: u32,
    packed: &Bytes,
    actions: &[Action],
    left: &mut u64,
    traces: &mut Seq<ActionTrace>,
) -> Result<Option<Failure>, AllocError>
    requires small { length traces.old + left.old ≤ 100000000 }
    requires session { 0 < length store.old.under }
    requires above { IsAbove 1 store.old }
    requires began { under_top store.old ≡ store.old.top }
    requires packed { IsPacked packed.now }
    ensures acts { IfOk result (λ failure. ActsTo (apply_all chain_codes (writing_scene slot packed.now) actions.now
        (going store.old.top left.old traces.old 0)) store.old.top failure store.new.top left.new traces.new) }
    ensures base { store.new ≡ with_top store.new.top store.old }
{
    match apply_in_session(alloc, modules, store, slot, packed, actions, left, traces) {
        Ok(()) => Ok(check_memory(store)),
        Err(ApplyEnd::Failed(failure)) => Ok(Some(failure)),
        Err(ApplyEnd::OutOfMemory) => Err(AllocError),
        Err(ApplyEnd::Cut { .. }) => unreachable!(),
    }
}

// The state remembers the transaction until it expires.
fn remember(
    alloc: Global,
    store: &mut Store,
    trx: &Transaction,
    packed: &[u8],
) -> Result<(), AllocError>
    requires session { 0 < length store.old.under }
    requires above { IsAbove 1 store.old }
    ensures ok { OnOk result (store.new ≡ with_top (with_recent trx.now packed.now store.old.top) store.old) }
    ensures err { OnErr result (store.new ≡ store.old) }
{
    change(
        alloc,
        store,
        Change::SetRecent {
            expiration: trx.expiration,
            id: trx_id(packed),
            there: true,
        },
    )
}

/// Runs a transaction that nothing is against, in the newest session, which has just begun. Where its trace has a failure, the session is
/// to be taken back.
pub(crate) fn run_actions(
    alloc: Global,
    modules: &ModuleCache,
    store: &mut Store,
    info: BlockInfo,
    trx: &Transaction,
    packed: &[u8],
) -> Result<Trace, AllocError>
    requires session { 0 < length store.old.under }
    requires above { IsAbove 1 store.old }
    requires began { under_top store.old ≡ store.old.top }
    requires reads { whole transaction packed.now ≡ Ok trx.now }
    ensures trace { IfOk result (λ trace. trace ≡ (transacted chain_codes None info store.old.top trx.now packed.now).trace) }
    ensures world { IfOk result (λ trace. trace.failure ≡ None → store.new.top ≡ (transacted chain_codes None info store.old.top trx.now packed.now).world) }
    ensures base { store.new ≡ with_top store.new.top store.old }
{
    let kept = Bytes::from_slice(alloc, packed)?;
    let mut left = MOST_TRANSACTION_STEPS;
    let mut traces = Seq::new(alloc);
    let actions = trx.actions.as_slice();
    let failure = act(
        alloc,
        modules,
        store,
        info.slot,
        &kept,
        actions,
        &mut left,
        &mut traces,
    )?;
    let steps = MOST_TRANSACTION_STEPS.saturating_sub(left);
    let head = head_of(info);
    match failure {
        Some(failure) => Ok(trace_with(0, head, packed, Some(failure), steps, traces)),
        None => {
            remember(alloc, store, trx, packed)?;
            Ok(trace_with(0, head, packed, None, steps, traces))
        }
    }
}
