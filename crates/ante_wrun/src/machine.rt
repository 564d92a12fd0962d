//! The public call.
ghost use Rattle.std.specs.Prelude.{◌≡◌, ℕ, ◌≤◌, [], length, reverse, Ok, IfOk};
ghost use Rattle.ante_wtree.specs.Trees.{tree_of};
ghost use Rattle.ante_wtree.specs.Limits.{most_frames};
ghost use Rattle.ante_wvalid.specs.Modules.{IsValid};
ghost use Rattle.ante_wmeaning.specs.Environment.{Throughout, CountsLooks, undisturbed, Passes, AskedLast};
ghost use Rattle.ante_wmeaning.specs.Instantiation.{program_in, apply_in};
ghost use Rattle.ante_wmeaning.specs.Invocation.{called_with, start_runs, apply_runs, both_run, run_of};
ghost use Rattle.ante_wmeaning.specs.RunEnds.{Sound, RunAnswers, EndsWith, Uncut, Comes};
ghost use Rattle.ante_wmeaning.specs.HostConditions.{MayCall, MayBelow, IsHosts, ImportsTyped};
ghost use Rattle.ante_wrun.specs.ThreadStates.{state_of};
ghost use Rattle.ante_wrun.specs.Control.{program_of};
ghost use Rattle.ante_wrun.specs.InstanceAndCalls.{OnReturn, CallLeads};

use crate::control::Functions;
use crate::instance::{Instance, apply_index, instantiate};
use crate::run::invoke;
use crate::thread::Thread;
use ante_base::Stop;
use ante_stack::Stack;
use ante_wmeaning::{RunEnd, TrapKind};
use ante_wmem::Host;
use ante_wtree::Module;
use ante_wtree::limits::most_frames;
use ante_wvalid::ValidModule;
use ante_wvalues::{Data, ValueStack};
use std::alloc::{AllocError, Global};

/// What a call from outside came to.
#[derive(Drop)]
pub(crate) enum Called<R> {
    /// The function returned, and left this.
    Returned(Data),
    Ended(RunEnd<R>),
}

/// These values as operands, the last one topmost.
fn operands(alloc: Global, args: &[u64]) -> Result<ValueStack, AllocError>
    ensures { IfOk result (λ values. values ≡ record { below = []; locals = []; stack = reverse args.now }) }
{
    let mut values = ValueStack::new(alloc);
    let mut rest = args;
    'each: while let Some((value, tail)) = rest.split_first() {
        values.push_with_room(alloc, *value)?;
        rest = tail;
    }
    Ok(values)
}

/// Calls a function with these arguments, as the first frame.
fn call_with<'a, H: Host, P: Stop>(
    state: Data,
    functions: &Functions<'a>,
    alloc: Global,
    host: &mut H,
    stop: &mut P,
    left: &mut u64,
    last: &mut u64,
    function: u32,
    args: &[u64],
) -> Result<Called<H::Refusal>, AllocError>
    requires below { MayBelow H.allowed (program_of functions.now) host.old left.old }
    requires here { IsHosts (program_of functions.now) function → MayCall H.allowed (program_of functions.now) host.old left.old }
    requires sound { Sound (λ environment.
        called_with H.meaning (program_of functions.now) args.now function (state_of state host.old left.old last.old environment)) }
    ensures leads { let program = program_of functions.now in
        Throughout P.may stop.old stop.new (λ before after.
        CallLeads H.stands (called_with H.meaning program args.now function (state_of state host.old left.old last.old before))
        result host.new left.new last.new after) }
    ensures allowed { IfOk result (λ called. OnReturn called (MayBelow H.allowed (program_of functions.now) host.new left.new)) }
    ensures falls { left.new ≤ left.old }
{
    let values = operands(alloc, args)?;
    let mut thread = Thread {
        code: &[],
        frames: Stack::new(alloc),
        state: Data {
            values,
            globals: state.globals,
            memory: state.memory,
        },
        free: most_frames(),
    };
    let ended = invoke(
        &mut thread,
        functions,
        alloc,
        host,
        stop,
        left,
        last,
        function,
    )?;
    match ended {
        Some(end) => Ok(Called::Ended(end)),
        None => Ok(Called::Returned(thread.state)),
    }
}

/// Calls the start function, where there is one.
fn call_start<'a, H: Host, P: Stop>(
    state: Data,
    functions: &Functions<'a>,
    alloc: Global,
    host: &mut H,
    stop: &mut P,
    left: &mut u64,
    last: &mut u64,
    start: Option<u32>,
) -> Result<Called<H::Refusal>, AllocError>
    requires below { MayBelow H.allowed (program_of functions.now) host.old left.old }
    requires here { MayCall H.allowed (program_of functions.now) host.old left.old }
    requires sound { Sound (λ environment.
        start_runs H.meaning (program_of functions.now) start (state_of state host.old left.old last.old environment)) }
    ensures leads { let program = program_of functions.now in
        Throughout P.may stop.old stop.new (λ before after.
        CallLeads H.stands (start_runs H.meaning program start (state_of state host.old left.old last.old before))
        result host.new left.new last.new after) }
    ensures allowed { IfOk result (λ called. OnReturn called (MayBelow H.allowed (program_of functions.now) host.new left.new)) }
    ensures falls { left.new ≤ left.old }
{
    match start {
        Some(function) => call_with(
            state,
            functions,
            alloc,
            host,
            stop,
            left,
            last,
            function,
            &[],
        ),
        None => Ok(Called::Returned(state)),
    }
}

/// Calls `apply`.
fn call_apply<'a, H: Host, P: Stop>(
    state: Data,
    functions: &Functions<'a>,
    alloc: Global,
    host: &mut H,
    stop: &mut P,
    left: &mut u64,
    last: &mut u64,
    module: &Module,
    args: &[u64],
) -> Result<RunEnd<H::Refusal>, AllocError>
    requires valid { IsValid (tree_of module.now) }
    requires program { program_of functions.now ≡ program_in (tree_of module.now) }
    requires below { MayBelow H.allowed (program_of functions.now) host.old left.old }
    requires sound { Sound (λ environment. apply_runs H.meaning (program_of functions.now) (apply_in (tree_of module.now)) args.now
        (state_of state host.old left.old last.old environment)) }
    ensures falls { left.new ≤ left.old }
    ensures ends { Throughout P.may stop.old stop.new (λ before after.
        RunAnswers H.stands (apply_runs H.meaning (program_of functions.now) (apply_in (tree_of module.now)) args.now
        (state_of state host.old left.old last.old before))
        result host.new left.new after) }
{
    let Some(apply) = apply_index(module) else {
        unreachable!()
    };
    match call_with(state, functions, alloc, host, stop, left, last, apply, args)? {
        Called::Returned(_) => Ok(RunEnd::Done),
        Called::Ended(end) => Ok(end),
    }
}

/// Calls the start function and then `apply`.
fn call_both<'a, H: Host, P: Stop>(
    state: Data,
    functions: &Functions<'a>,
    alloc: Global,
    host: &mut H,
    stop: &mut P,
    left: &mut u64,
    module: &Module,
    args: &[u64],
) -> Result<RunEnd<H::Refusal>, AllocError>
    requires valid { IsValid (tree_of module.now) }
    requires program { program_of functions.now ≡ program_in (tree_of module.now) }
    requires allowed { MayCall H.allowed (program_of functions.now) host.old left.old }
    requires answers { ImportsTyped H.allowed H.meaning (program_in (tree_of module.now)) }
    requires globals { length state.globals.items ≡ length module.now.globals }
    requires arguments { length args.now ≡ 3 }
    ensures falls { left.new ≤ left.old }
    ensures ends { Throughout P.may stop.old stop.new (λ before after.
        RunAnswers H.stands (both_run H.meaning (program_of functions.now) (tree_of module.now) args.now
        (state_of state host.old left.old left.old before))
        result host.new left.new after) }
{
    let mut last = *left;
    let start = module.start;
    match call_start(state, functions, alloc, host, stop, left, &mut last, start)? {
        Called::Returned(state) => call_apply(
            state, functions, alloc, host, stop, left, &mut last, module, args,
        ),
        Called::Ended(end) => Ok(end),
    }
}

/// Makes an instance of the module and runs it.
fn run_module<H: Host, P: Stop>(
    alloc: Global,
    module: &Module,
    args: &[u64],
    host: &mut H,
    stop: &mut P,
    left: &mut u64,
) -> Result<RunEnd<H::Refusal>, AllocError>
    requires valid { IsValid (tree_of module.now) }
    requires allowed { MayCall H.allowed (program_in (tree_of module.now)) host.old left.old }
    requires answers { ImportsTyped H.allowed H.meaning (program_in (tree_of module.now)) }
    requires arguments { length args.now ≡ 3 }
    ensures falls { left.new ≤ left.old }
    ensures ends { Throughout P.may stop.old stop.new (λ before after.
        RunAnswers H.stands (run_of H.meaning (tree_of module.now) args.now host.old left.old before) result host.new left.new after) }
{
    let Some(instance) = instantiate(alloc, module)? else {
        return Ok(RunEnd::Trap(TrapKind::OutOfBounds));
    };
    let Instance { functions, data } = instance;
    call_both(data, &functions, alloc, host, stop, left, module, args)
}

/// What runs contracts. It keeps nothing between runs.
#[derive(Clone, Copy, PartialEq, Eq, Debug)]
pub struct Machine;

impl Machine {
    /// A machine. It keeps nothing.
    pub fn new() -> Machine {
        Machine
    }

    /// Makes an instance of the module, calls its start function, where there is one, and then its `apply` with three
    /// arguments. `left` are the steps that may be taken. Looks at the stop each time that the steps left, in rounds of
    /// `ROUND_STEPS`, have come into a lower round. A segment that doesn't fit is a trap before anything runs.
    ///
    /// After want of memory and after a cut, the host and `left` are as the last instruction done, or the host's own
    /// refused call, left them.
    pub fn run<H: Host, P: Stop>(
        &mut self,
        alloc: Global,
        module: &ValidModule,
        args: [u64; 3],
        host: &mut H,
        stop: &mut P,
        left: &mut u64,
    ) -> Result<RunEnd<H::Refusal>, AllocError>
        // The host allows each import, with all arguments of its type.
        requires allowed { MayCall H.allowed (program_in (tree_of module.now)) host.old left.old }
        // The host answers each import as a function of its type does.
        requires answers { ImportsTyped H.allowed H.meaning (program_in (tree_of module.now)) }
        ensures ends { Throughout P.may stop.old stop.new (λ before after.
            RunAnswers H.stands (run_of H.meaning (tree_of module.now) args host.old left.old before) result host.new left.new after
            × CountsLooks (P.looks stop.old) (P.looks stop.new) before after) }

        // The same where what was asked is left out: with this, `answers_like` says what a run is over any host that replies alike.
        ensures comes { Comes H.stands (run_of H.meaning (tree_of module.now) args host.old left.old) result host.new left.new }

        // A run that no look cut is the run that nothing disturbs, with as many looks.
        ensures undisturbed { Uncut result → IfOk result (λ end.
            EndsWith H.stands end host.new left.new (CountsLooks (P.looks stop.old) (P.looks stop.new) undisturbed)
            (run_of H.meaning (tree_of module.now) args host.old left.old undisturbed)) }
        ensures cut { (at : ℕ) → result ≡ Ok (RunEnd.Cut at) → AskedLast P.may stop.old at stop.new }
        ensures uncut { Uncut result → Passes P.may stop.old stop.new }
        ensures limit { result ≡ Ok RunEnd.StepLimit → left.new ≡ 0 }
        ensures falls { left.new ≤ left.old }
    {
        run_module(alloc, module.module(), &args, host, stop, left)
    }
}
