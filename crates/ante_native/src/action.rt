ghost use Rattle.std.specs.Prelude.{◌≡◌, ℕ, Bool, List, OnOk, true};
ghost use Rattle.ante_calls.specs.Views.{base_of, ReadyFor};
ghost use Rattle.ante_execution.specs.Answers.{DoesNative};
ghost use Rattle.ante_execution.specs.Codes.{Accepts};
ghost use Rattle.ante_execution.specs.Native.{native_does, native_run, native_of_run, native_in_run};
ghost use Rattle.ante_execution.specs.Native.SetCode.{CodesAreAccepted};
ghost use Rattle.ante_native.specs.Parts.{Does};

use crate::deleteauth::deleteauth;
use crate::linkauth::linkauth;
use crate::newaccount::newaccount;
use crate::setabi::setabi;
use crate::setcode::setcode;
use crate::unlinkauth::unlinkauth;
use crate::updateauth::updateauth;
use ante_execution::{NativeAction, NativeFault, native_of};
use ante_store::Tables;
use ante_types::{Failure, Label, Mode, RunContext};
use std::alloc::Global;

/// The native action of the run, which only the account that the action is for does.
pub fn native_of_run(run: &RunContext) -> Option<NativeAction>
    ensures { result ≡ native_of_run run.now }
{
    if run.receiver.0 == run.action.account.0 {
        native_of(&run.action)
    } else {
        None
    }
}

// Does this action in writing mode.
fn perform<T: Tables>(
    alloc: Global,
    tables: &mut T,
    run: &RunContext,
    action: NativeAction,
) -> Result<(), NativeFault>
    requires writing { T.writing tables.old ≡ true }
    requires ready { ReadyFor run.now.mode (T.stack tables.old) (T.writing tables.old) }
    ensures does { (accepts : List ℕ → Bool) → Accepts accepts →
        Does (native_does accepts run.now (T.stack tables.old).top action run.now.action.bytes) result (T.stack tables.new).top }
    ensures base { base_of (T.stack tables.new) (T.writing tables.new) (T.lent tables.new)
        ≡ base_of (T.stack tables.old) (T.writing tables.old) (T.lent tables.old) }
{
    match action {
        NativeAction::NewAccount => newaccount(alloc, tables, run),
        NativeAction::SetCode => setcode(alloc, tables, run),
        NativeAction::SetAbi => setabi(alloc, tables, run),
        NativeAction::UpdateAuth => updateauth(alloc, tables, run),
        NativeAction::DeleteAuth => deleteauth(alloc, tables, run),
        NativeAction::LinkAuth => linkauth(alloc, tables, run),
        NativeAction::UnlinkAuth => unlinkauth(alloc, tables, run),
    }
}

// Does this action, which a run that only reads may not.
#[tactic(auto, unfolding(ante_execution::specs::Native::native_run))]
fn do_native<T: Tables>(
    alloc: Global,
    tables: &mut T,
    run: &RunContext,
    action: NativeAction,
) -> Result<(), NativeFault>
    requires ready { ReadyFor run.now.mode (T.stack tables.old) (T.writing tables.old) }
    ensures does { (accepts : List ℕ → Bool) → Accepts accepts →
        Does (native_run accepts run.now (T.stack tables.old).top action) result (T.stack tables.new).top }
    ensures base { base_of (T.stack tables.new) (T.writing tables.new) (T.lent tables.new)
        ≡ base_of (T.stack tables.old) (T.writing tables.old) (T.lent tables.old) }
{
    match run.mode {
        Mode::Writing => perform(alloc, tables, run, action),
        Mode::Reading => {
            let intrinsic = Label::of_name(alloc, run.action.name)?;
            Err(NativeFault::Failed(Failure::WriteRefused { intrinsic }))
        }
    }
}

/// Does the native action of the run, if it has one, and says whether it had. The steps that setcode costs are its caller's. After a fault the
/// newest state may have changed.
pub fn native<T: Tables>(
    alloc: Global,
    tables: &mut T,
    run: &RunContext,
) -> Result<bool, NativeFault>
    requires ready { ReadyFor run.now.mode (T.stack tables.old) (T.writing tables.old) }
    ensures does { (accepts : List ℕ → Bool) → Accepts accepts →
        DoesNative (native_in_run accepts run.now (T.stack tables.old).top) result (T.stack tables.new).top }
    ensures codes { (accepts : List ℕ → Bool) → Accepts accepts → CodesAreAccepted accepts (T.stack tables.old).top →
        OnOk result (CodesAreAccepted accepts (T.stack tables.new).top) }
    ensures base { base_of (T.stack tables.new) (T.writing tables.new) (T.lent tables.new)
        ≡ base_of (T.stack tables.old) (T.writing tables.old) (T.lent tables.old) }
{
    let Some(action) = native_of_run(run) else {
        return Ok(false);
    };
    do_native(alloc, tables, run, action)?;
    Ok(true)
}
