//! One run: its steps, the native action first, and then the code of its receiver.
ghost use Rattle.std.specs.Prelude.{◌≡◌, ◌≤◌, ◌<◌, ℕ, Bool, List, Err, None, Some, IfOk};
ghost use Rattle.ante_apply.specs.Runs.{EndedAs, NativelyDoes, RunsTo, ShowsEnd, ShowsNative, seen};
ghost use Rattle.ante_host.specs.Code.{run_alone};
ghost use Rattle.ante_wtree.specs.Trees.{tree_of};
ghost use Rattle.ante_calls.specs.ActionData.{IsPacked};
ghost use Rattle.ante_calls.specs.Views.{base_of, ReadyFor};
ghost use Rattle.ante_execution.specs.declared.ends.ApplyEnd.TheVariants as ends;
ghost use Rattle.ante_execution.specs.Codes.{Accepts, codes_with, trap_name};
ghost use Rattle.ante_execution.specs.Hosts.{most_met};
ghost use Rattle.ante_execution.specs.Native.{native_of_run, native_run};
ghost use Rattle.ante_execution.specs.Runs.{arguments, runs, begun, is_setcode, receiver_runs};
ghost use Rattle.ante_execution.specs.Stopping.{Reaches, AskedAt};

use crate::codes::{code_at, first_steps, module_for};
use crate::steps::pay;
use ante_base::Stop;
use ante_execution::{ApplyEnd, NativeAction, NativeFault};
use ante_host::run_code;
use ante_modcache::ModuleCache;
use ante_native::{native, native_of_run, native_steps};
use ante_store::Tables;
use ante_types::{Failure, Label, RunContext};
use ante_wrun::{RunEnd, TrapKind};
use ante_wvalid::ValidModule;
use std::alloc::{AllocError, Global};

/// How a run ended: why it failed, if it did, and its context then.
pub(crate) type Ended = (Option<Failure>, RunContext);

// How the interpreter's end shows.
fn failure_of(alloc: Global, end: RunEnd<Failure>) -> Result<Option<Failure>, ApplyEnd>
    ensures { ShowsEnd end result }
{
    match end {
        RunEnd::Done | RunEnd::Exit => Ok(None),
        RunEnd::Trap(kind) => {
            let kind = trap_name(alloc, kind)?;
            Ok(Some(Failure::Trap { kind }))
        }
        RunEnd::StepLimit => Ok(Some(Failure::StepLimit)),
        RunEnd::CallDepth => Ok(Some(Failure::CallDepth)),
        RunEnd::Refused(failure) => Ok(Some(failure)),
        RunEnd::Cut { at } => Err(ApplyEnd::Cut { at }),
    }
}

fn trap_name(alloc: Global, kind: TrapKind) -> Result<Label, AllocError>
    ensures { IfOk result (λ label. label ≡ trap_name kind) }
{
    let name: &[u8] = match kind {
        TrapKind::Unreachable => b"Unreachable",
        TrapKind::DivZero => b"DivZero",
        TrapKind::DivOverflow => b"DivOverflow",
        TrapKind::OutOfBounds => b"OutOfBounds",
        TrapKind::NoElement => b"NoElement",
        TrapKind::WrongType => b"WrongType",
    };
    Label::new(alloc, name)
}

// What a run of code came to.
fn ended(
    alloc: Global,
    end: Result<RunEnd<Failure>, AllocError>,
    run: RunContext,
) -> Result<Ended, ApplyEnd>
    ensures { EndedAs end run result }
{
    let failure = failure_of(alloc, end?)?;
    Ok((failure, run))
}

// The module of the receiver's code.
fn module_runs<T: Tables, P: Stop>(
    alloc: Global,
    module: &ValidModule,
    packed: &[u8],
    tables: &mut T,
    run: RunContext,
    stop: &mut P,
    left: &mut u64,
) -> Result<Ended, ApplyEnd>
    requires ready { ReadyFor run.mode (T.stack tables.old) (T.writing tables.old) }
    requires packed { IsPacked packed.now }
    requires room { left.old < most_met }
    ensures runs { RunsTo (run_alone (tree_of module.now) (arguments run) (seen (T.stack tables.old).top run packed.now) left.old)
        (P.looks stop.old) (P.looks stop.new) result (T.stack tables.new).top left.new }
    ensures falls { left.new ≤ left.old }
    ensures base { base_of (T.stack tables.new) (T.writing tables.new) (T.lent tables.new) ≡
        base_of (T.stack tables.old) (T.writing tables.old) (T.lent tables.old) }
    ensures reaches { Reaches P.may stop.old stop.new }
    ensures cut { (at : ℕ) → result ≡ Err (ends.Cut at) → AskedAt P.may stop.old at stop.new }
{
    let (end, run) = run_code(alloc, tables, module, packed, run, stop, left);
    ended(alloc, end, run)
}

/// The code that the receiver has now.
fn receiver_runs<T: Tables, P: Stop>(
    alloc: Global,
    modules: &ModuleCache,
    packed: &[u8],
    tables: &mut T,
    run: RunContext,
    stop: &mut P,
    left: &mut u64,
) -> Result<Ended, ApplyEnd>
    requires ready { ReadyFor run.mode (T.stack tables.old) (T.writing tables.old) }
    requires packed { IsPacked packed.now }
    requires room { left.old < most_met }
    ensures runs { (accepts : List ℕ → Bool) → Accepts accepts →
        RunsTo (receiver_runs (codes_with accepts) (seen (T.stack tables.old).top run packed.now) left.old) (P.looks stop.old) (P.looks stop.new)
        result (T.stack tables.new).top left.new }
    ensures falls { left.new ≤ left.old }
    ensures base { base_of (T.stack tables.new) (T.writing tables.new) (T.lent tables.new) ≡
        base_of (T.stack tables.old) (T.writing tables.old) (T.lent tables.old) }
    ensures reaches { Reaches P.may stop.old stop.new }
    ensures cut { (at : ℕ) → result ≡ Err (ends.Cut at) → AskedAt P.may stop.old at stop.new }
{
    let code = code_at(tables.store(), run.receiver);
    if code.is_empty() {
        return Ok((None, run));
    }
    let Some(module) = module_for(alloc, modules, code)? else {
        *left = 0;
        return Ok((Some(Failure::Abort), run));
    };
    module_runs(alloc, module.get(), packed, tables, run, stop, left)
}

fn native_failure(done: Result<bool, NativeFault>) -> Result<Option<Failure>, ApplyEnd>
    ensures shows { ShowsNative done result }
    ensures uncut { (at : ℕ) → result ≡ Err (ends.Cut at) → ⊥ }
{
    match done {
        Ok(_) => Ok(None),
        Err(NativeFault::Failed(failure)) => Ok(Some(failure)),
        Err(NativeFault::OutOfMemory) => Err(ApplyEnd::OutOfMemory),
    }
}

// Does the run's native action, and says why it failed, if it did.
fn do_native<T: Tables>(
    alloc: Global,
    tables: &mut T,
    run: &RunContext,
    action: NativeAction,
) -> Result<Option<Failure>, ApplyEnd>
    requires native { native_of_run run.now ≡ Some action }
    requires ready { ReadyFor run.now.mode (T.stack tables.old) (T.writing tables.old) }
    ensures does { (accepts : List ℕ → Bool) → Accepts accepts →
        NativelyDoes (native_run accepts run.now (T.stack tables.old).top action) result (T.stack tables.new).top }
    ensures uncut { (at : ℕ) → result ≡ Err (ends.Cut at) → ⊥ }
    ensures base { base_of (T.stack tables.new) (T.writing tables.new) (T.lent tables.new) ≡
        base_of (T.stack tables.old) (T.writing tables.old) (T.lent tables.old) }
{
    native_failure(native(alloc, tables, run))
}

fn is_setcode(action: NativeAction) -> bool
    ensures { result ≡ is_setcode action }
{
    action == NativeAction::SetCode
}

fn begin<T: Tables, P: Stop>(
    alloc: Global,
    modules: &ModuleCache,
    packed: &[u8],
    tables: &mut T,
    run: RunContext,
    stop: &mut P,
    left: &mut u64,
) -> Result<Ended, ApplyEnd>
    requires ready { ReadyFor run.mode (T.stack tables.old) (T.writing tables.old) }
    requires packed { IsPacked packed.now }
    requires room { left.old < most_met }
    ensures runs { (accepts : List ℕ → Bool) → Accepts accepts →
        RunsTo (begun (codes_with accepts) (native_of_run run) (seen (T.stack tables.old).top run packed.now) left.old) (P.looks stop.old) (P.looks stop.new)
        result (T.stack tables.new).top left.new }
    ensures falls { left.new ≤ left.old }
    ensures base { base_of (T.stack tables.new) (T.writing tables.new) (T.lent tables.new) ≡
        base_of (T.stack tables.old) (T.writing tables.old) (T.lent tables.old) }
    ensures reaches { Reaches P.may stop.old stop.new }
    ensures cut { (at : ℕ) → result ≡ Err (ends.Cut at) → AskedAt P.may stop.old at stop.new }
{
    let Some(action) = native_of_run(&run) else {
        return receiver_runs(alloc, modules, packed, tables, run, stop, left);
    };
    let steps = native_steps(alloc, &run, action)?;
    if !pay(left, steps) {
        return Ok((Some(Failure::StepLimit), run));
    }
    match do_native(alloc, tables, &run, action) {
        Ok(None) => {}
        Ok(Some(failure)) => return Ok((Some(failure), run)),
        Err(end) => return Err(end),
    }
    if is_setcode(action) {
        return Ok((None, run));
    }
    receiver_runs(alloc, modules, packed, tables, run, stop, left)
}

/// One run of an action.
pub(crate) fn run<T: Tables, P: Stop>(
    alloc: Global,
    modules: &ModuleCache,
    packed: &[u8],
    tables: &mut T,
    run: RunContext,
    stop: &mut P,
    left: &mut u64,
) -> Result<Ended, ApplyEnd>
    requires ready { ReadyFor run.mode (T.stack tables.old) (T.writing tables.old) }
    requires packed { IsPacked packed.now }
    requires room { left.old < most_met }
    ensures runs { (accepts : List ℕ → Bool) → Accepts accepts →
        RunsTo (runs (codes_with accepts) (seen (T.stack tables.old).top run packed.now) left.old) (P.looks stop.old) (P.looks stop.new)
        result (T.stack tables.new).top left.new }
    ensures falls { left.new ≤ left.old }
    ensures pays { IfOk result (λ ended. ended.0 ≡ None → left.new < left.old) }
    ensures base { base_of (T.stack tables.new) (T.writing tables.new) (T.lent tables.new) ≡
        base_of (T.stack tables.old) (T.writing tables.old) (T.lent tables.old) }
    ensures reaches { Reaches P.may stop.old stop.new }
    ensures cut { (at : ℕ) → result ≡ Err (ends.Cut at) → AskedAt P.may stop.old at stop.new }
{
    let code = code_at(tables.store(), run.receiver);
    let steps = first_steps(alloc, modules, code)?;
    if !pay(left, steps) {
        return Ok((Some(Failure::StepLimit), run));
    }
    begin(alloc, modules, packed, tables, run, stop, left)
}
