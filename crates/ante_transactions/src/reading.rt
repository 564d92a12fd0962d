//! Read-only transactions.
ghost use Rattle.std.specs.Prelude.{◌≡◌, None};
ghost use Rattle.ante_accepts.specs.Accepting.{chain_codes};
ghost use Rattle.ante_execution.specs.Answers.{ReadsOnly};
ghost use Rattle.ante_execution.specs.Transactions.{read_only, reading_looks, reading_refusal};
ghost use Rattle.ante_port.specs.Reading.{ReadsTo};

use crate::actions::apply_all;
use crate::traces::trace_with;
use ante_apply::ApplyEnd;
use ante_base::Stop;
use ante_checks::check_reading;
use ante_modcache::ModuleCache;
use ante_pack::Seq;
use ante_port::ReadEnd;
use ante_store::{Reading, Store};
use ante_types::limits::MOST_TRANSACTION_STEPS;
use ante_types::{Head, ReadJob, Trace};
use std::alloc::{AllocError, Global};

// A read-only transaction that nothing is against.
fn read_actions<P: Stop>(
    alloc: Global,
    modules: &ModuleCache,
    store: &Store,
    position: u64,
    head: Head,
    slot: u32,
    job: &ReadJob,
    stop: &mut P,
) -> Result<ReadEnd<Trace>, AllocError>
    requires allowed { reading_refusal store.now.top job.now.trx job.now.packed ≡ None }
    ensures reads { ReadsTo (read_only chain_codes store.now.top position head slot job.now.trx job.now.packed) P.may stop.old stop.new result }
    ensures count { ReadsOnly (read_only chain_codes store.now.top position head slot job.now.trx job.now.packed)
        (reading_looks chain_codes store.now.top slot job.now.trx job.now.packed) result (P.looks stop.old) (P.looks stop.new) }
{
    let packed = job.packed();
    let actions = job.trx().actions.as_slice();
    let mut left = MOST_TRANSACTION_STEPS;
    let mut traces = Seq::new(alloc);
    let end = {
        let mut tables = Reading(store);
        apply_all(
            alloc,
            &mut tables,
            modules,
            slot,
            packed,
            actions,
            stop,
            &mut left,
            &mut traces,
        )
    };
    let steps = MOST_TRANSACTION_STEPS.saturating_sub(left);
    let bytes = packed.as_slice();
    match end {
        Ok(()) => Ok(ReadEnd::Done(trace_with(position, head, bytes, None, steps, traces))),
        Err(ApplyEnd::Failed(failure)) => Ok(ReadEnd::Done(trace_with(
            position,
            head,
            bytes,
            Some(failure),
            steps,
            traces,
        ))),
        Err(ApplyEnd::OutOfMemory) => Err(AllocError),
        Err(ApplyEnd::Cut { at }) => Ok(ReadEnd::Cut { at }),
    }
}

/// Runs a read-only transaction on the newest state, and changes nothing. The trace has this position and head; the slot is that of the
/// head's block.
pub fn read_transaction<P: Stop>(
    alloc: Global,
    modules: &ModuleCache,
    store: &Store,
    position: u64,
    head: Head,
    slot: u32,
    job: &ReadJob,
    stop: &mut P,
) -> Result<ReadEnd<Trace>, AllocError>
    ensures reads { ReadsTo (read_only chain_codes store.now.top position head slot job.now.trx job.now.packed) P.may stop.old stop.new result }
    ensures count { ReadsOnly (read_only chain_codes store.now.top position head slot job.now.trx job.now.packed)
        (reading_looks chain_codes store.now.top slot job.now.trx job.now.packed) result (P.looks stop.old) (P.looks stop.new) }
{
    let packed = job.packed().as_slice();
    match check_reading(alloc, store, job.trx(), packed)? {
        Some(failure) => {
            let traces = Seq::new(alloc);
            Ok(ReadEnd::Done(trace_with(position, head, packed, Some(failure), 0, traces)))
        }
        None => read_actions(alloc, modules, store, position, head, slot, job, stop),
    }
}
