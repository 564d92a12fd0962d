// What the native actions have in common: who acts, what is asked of it, and how a change is made.
ghost use Rattle.std.specs.Prelude.{◌≡◌, [], ◌∷◌, true, None, OnOk};
ghost use Rattle.ante_store.specs.Changes.{after, refusal};
ghost use Rattle.ante_calls.specs.Accounts.{is_actor};
ghost use Rattle.ante_calls.specs.Authorization.{place_of};
ghost use Rattle.ante_calls.specs.Views.{base_of, ReadyFor};
ghost use Rattle.ante_execution.specs.Native.Rules.{acting_refusal, make_all};
ghost use Rattle.ante_native.specs.Parts.{Passes, Does, data_fault};

use crate::lookups::is_account;
use ante_execution::NativeFault;
use ante_pack::{Name, PackFault, ReadFault};
use ante_store::{Change, Store, Tables, WriteError};
use ante_types::{Action, Failure, RunContext};
use std::alloc::Global;

fn is_actor(name: Name, action: &Action) -> bool
    ensures { result ≡ is_actor name action.now }
{
    action
        .authorization
        .as_slice()
        .iter()
        .any(|level| level.actor.0 == name.0)
}

/// The account that the data names first must be an actor of the action, and be there.
pub(crate) fn check_acting(
    store: &Store,
    account: Name,
    run: &RunContext,
) -> Result<(), NativeFault>
    ensures { Passes (acting_refusal account run.now store.now.top) result }
{
    if !is_actor(account, &run.action) {
        return Err(NativeFault::Failed(Failure::MissingAuth {
            actor: account,
            permission: Name(0),
        }));
    }
    if !is_account(store, account) {
        return Err(NativeFault::Failed(Failure::UnknownAccount { name: account }));
    }
    Ok(())
}

// The place of a fault in the data.
fn place_of(fault: PackFault) -> usize
    ensures { result ≡ place_of fault }
{
    match fault {
        PackFault::Short { at } => at,
        PackFault::LongVaruint { at } => at,
        PackFault::KeyKind { at } => at,
        PackFault::Trailing { at } => at,
    }
}

/// What the action fails with where its data can't be read.
pub(crate) fn data_fault(fault: ReadFault) -> NativeFault
    ensures { result ≡ data_fault fault }
{
    match fault {
        ReadFault::OutOfMemory => NativeFault::OutOfMemory,
        ReadFault::Pack(fault) => NativeFault::Failed(Failure::DataFault {
            at: place_of(fault) as u64,
        }),
    }
}

/// Makes the change, or says why the state doesn't take it.
pub(crate) fn make<T: Tables>(
    alloc: Global,
    tables: &mut T,
    run: &RunContext,
    change: Change,
) -> Result<(), NativeFault>
    requires writing { T.writing tables.old ≡ true }
    requires ready { ReadyFor run.now.mode (T.stack tables.old) (T.writing tables.old) }
    ensures does { Does (make_all (change ∷ []) (T.stack tables.old).top) result (T.stack tables.new).top }
    ensures granted { OnOk result (refusal change (T.stack tables.old).top ≡ None) }
    ensures made { OnOk result ((T.stack tables.new).top ≡ after change (T.stack tables.old).top) }
    ensures writing { T.writing tables.new ≡ true }
    ensures ready { ReadyFor run.now.mode (T.stack tables.new) (T.writing tables.new) }
    ensures base { base_of (T.stack tables.new) (T.writing tables.new) (T.lent tables.new)
        ≡ base_of (T.stack tables.old) (T.writing tables.old) (T.lent tables.old) }
{
    match tables.write(alloc, change) {
        Ok(()) => Ok(()),
        Err(WriteError::OutOfMemory) => Err(NativeFault::OutOfMemory),
        Err(WriteError::WriteRefused) => Err(NativeFault::Failed(Failure::RamTotal)),
        Err(WriteError::RamTotal) => Err(NativeFault::Failed(Failure::RamTotal)),
        Err(WriteError::Missing) => Err(NativeFault::Failed(Failure::RamTotal)),
        Err(WriteError::Exists) => Err(NativeFault::Failed(Failure::RamTotal)),
    }
}

/// Makes the three changes in this order, up to the first that the state doesn't take.
pub(crate) fn make_three<T: Tables>(
    alloc: Global,
    tables: &mut T,
    run: &RunContext,
    first: Change,
    second: Change,
    third: Change,
) -> Result<(), NativeFault>
    requires writing { T.writing tables.old ≡ true }
    requires ready { ReadyFor run.now.mode (T.stack tables.old) (T.writing tables.old) }
    ensures does { Does (make_all (first ∷ second ∷ third ∷ []) (T.stack tables.old).top) result (T.stack tables.new).top }
    ensures base { base_of (T.stack tables.new) (T.writing tables.new) (T.lent tables.new)
        ≡ base_of (T.stack tables.old) (T.writing tables.old) (T.lent tables.old) }
{
    make(alloc, tables, run, first)?;
    make(alloc, tables, run, second)?;
    make(alloc, tables, run, third)
}
