//! A transaction in a block that is made or run.
ghost use Rattle.std.specs.Prelude.{◌≡◌, ◌<◌, ◌≤◌, [], None, Some, Ok, length, if◌then◌else◌, IfOk, OnOk, OnErr};
ghost use Rattle.ante_accepts.specs.Accepting.{chain_codes};
ghost use Rattle.ante_execution.specs.Transactions.{head_of, trace_with, transacted};
ghost use Rattle.ante_pack.specs.Forms.{whole};
ghost use Rattle.ante_transactions.specs.Transacting.{transact_packed};
ghost use Rattle.ante_types.specs.Chain.{transaction};
ghost use Rattle.ante_types.specs.World.{World};
ghost use Rattle.ante_undo.specs.Stack.{Stack, begun, with_top, IsAbove};

use crate::session::run_actions;
use crate::traces::{head_of, trace_with};
use ante_checks::check_transaction;
use ante_modcache::ModuleCache;
use ante_pack::{Bytes, Digest, ReadFault, Seq};
use ante_sessions::Sessions;
use ante_store::Store;
use ante_types::{BlockInfo, Failure, Trace, Transaction, read_trx};
use ante_verdicts::Verdicts;
use std::alloc::{AllocError, Global};

// A trace with no runs.
fn refused(alloc: Global, info: BlockInfo, packed: &[u8], failure: Failure) -> Trace
    ensures { result ≡ trace_with 0 (head_of info) packed.now (Some failure) 0 [] }
{
    trace_with(0, head_of(info), packed, Some(failure), 0, Seq::new(alloc))
}

// The newest session becomes a part of the one below where the transaction succeeded, and else is taken back.
fn end_session(store: &mut Store, succeeded: bool)
    requires sessions { 2 ≤ length store.old.under }
    requires above { IsAbove 2 store.old }
    ensures { (base : Stack World) → store.old ≡ with_top store.old.top (begun base) →
        store.new ≡ with_top (if succeeded then store.old.top else base.top) base }
{
    if succeeded {
        store.squash();
    } else {
        store.undo();
    }
}

// A transaction that nothing is against.
fn run_checked(
    alloc: Global,
    modules: &ModuleCache,
    store: &mut Store,
    info: BlockInfo,
    trx: &Transaction,
    packed: &[u8],
) -> Result<Trace, AllocError>
    requires session { 0 < length store.old.under }
    requires above { IsAbove 1 store.old }
    requires small { store.old.revision < 4294967296 }
    requires reads { whole transaction packed.now ≡ Ok trx.now }
    ensures trace { IfOk result (λ trace. trace ≡ (transacted chain_codes None info store.old.top trx.now packed.now).trace) }
    ensures ok { OnOk result (store.new ≡ with_top (transacted chain_codes None info store.old.top trx.now packed.now).world store.old) }
    ensures err { OnErr result (store.new ≡ store.old) }
{
    store.begin(alloc)?;
    match run_actions(alloc, modules, store, info, trx, packed) {
        Ok(trace) => {
            end_session(store, trace.failure.is_none());
            Ok(trace)
        }
        Err(refused) => {
            store.undo();
            Err(refused)
        }
    }
}

/// Runs a packed transaction in the newest session, as a part of the block of this number and slot. Its trace is at position 0. After a
/// failure, and after want of memory, the state is as before.
pub fn run_transaction<V: Verdicts>(
    alloc: Global,
    modules: &ModuleCache,
    store: &mut Store,
    verdicts: &V,
    chain_id: &Digest,
    info: BlockInfo,
    packed: &[u8],
    signatures: &Seq<Bytes>,
) -> Result<Trace, AllocError>
    requires session { 0 < length store.old.under }
    requires above { IsAbove 1 store.old }
    requires small { store.old.revision < 4294967296 }
    ensures trace { IfOk result (λ trace. trace ≡ (transact_packed chain_codes (V.judge verdicts.now).recovers chain_id.now info store.old.top packed.now signatures.now).trace) }
    ensures ok { OnOk result (store.new ≡ with_top (transact_packed chain_codes (V.judge verdicts.now).recovers chain_id.now info store.old.top packed.now signatures.now).world store.old) }
    ensures err { OnErr result (store.new ≡ store.old) }
{
    let trx = match read_trx(alloc, packed) {
        Ok(trx) => trx,
        Err(ReadFault::OutOfMemory) => return Err(AllocError),
        Err(ReadFault::Pack(_)) => {
            return Ok(refused(alloc, info, packed, Failure::DataFault { at: 0 }));
        }
    };
    match check_transaction(
        alloc, store, verdicts, chain_id, info.slot, &trx, packed, signatures,
    )? {
        Some(failure) => Ok(refused(alloc, info, packed, failure)),
        None => run_checked(alloc, modules, store, info, &trx, packed),
    }
}
