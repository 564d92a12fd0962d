//! The loop of a run: looks, steps, instructions and host calls.
ghost use Rattle.std.specs.Prelude.{◌≡◌, ℕ, ◌<◌, ◌≤◌, [], length, Ok, None, Some};
ghost use Rattle.ante_wmem.specs.HostCalls.{StaysAllowed};
ghost use Rattle.ante_wmeaning.specs.PlainInstructions.{popped};
ghost use Rattle.ante_wmeaning.specs.Environment.{Environment, Throughout};
ghost use Rattle.ante_wmeaning.specs.Configurations.{Program, on_stack};
ghost use Rattle.ante_wmeaning.specs.Execution.{invoked, round, due, call_host};
ghost use Rattle.ante_wmeaning.specs.RunEnds.{Sound};
ghost use Rattle.ante_wmeaning.specs.HostConditions.{MayCall, MayBelow, IsHosts, Replies};
ghost use Rattle.ante_wrun.specs.ThreadStates.{state_of, going_over, after, IsNested};
ghost use Rattle.ante_wrun.specs.Control.{program_of};
ghost use Rattle.ante_wrun.specs.InstructionCycle.{MayLook, look_of, Pays, host_arguments, HostLeads, TurnLeads, RunLeads};

use crate::control::{Functions, Next, act, call_function};
use crate::stretch::run_stretch;
use crate::thread::{Thread, next_instr};
use ante_base::Stop;
use ante_wmeaning::RunEnd;
use ante_wmem::{Host, HostAnswer, HostFn};
use ante_wtree::FuncType;
use ante_wtree::limits::ROUND_STEPS;
use std::alloc::{AllocError, Global};

/// Whether an instruction's step could be paid.
pub(crate) enum Paid {
    Yes,
    StepLimit,
    Cut(u64),
}

/// What comes after a host call.
#[derive(Drop)]
pub(crate) enum HostNext<R> {
    Go,
    Ended(RunEnd<R>),
    Lacks,
}

/// What comes after a turn of the loop.
#[derive(Drop)]
pub(crate) enum Progress<R> {
    Go,
    /// The last body has ended.
    Over,
    Ended(RunEnd<R>),
}

#[inline(always)]
fn round(left: u64) -> u64
    ensures { result ≡ round left }
{
    if left == 0 {
        0
    } else {
        (left - 1) / ROUND_STEPS + 1
    }
}

#[inline(always)]
fn is_due(left: u64, last: u64) -> bool
    ensures { result ≡ due left last }
{
    round(left) < round(last)
}

#[inline(always)]
fn take_step(left: &mut u64, last: &mut u64) -> Paid
    ensures steps { Pays left.old last.old result left.new last.new }
    ensures look { look_of result ≡ None }
{
    if *left == 0 {
        return Paid::StepLimit;
    }
    *last = *left;
    *left -= 1;
    Paid::Yes
}

/// Looks at the stop, if a look is due, and pays the step of the next instruction.
#[inline(always)]
fn pay<P: Stop>(stop: &mut P, left: &mut u64, last: &mut u64) -> Paid
    ensures look { MayLook P.may (due left.old last.old) stop.old (look_of result) stop.new }
    ensures steps { Pays left.old last.old result left.new last.new }
{
    if !is_due(*left, *last) {
        return take_step(left, last);
    }
    match stop.look() {
        Some(at) => Paid::Cut(at),
        None => take_step(left, last),
    }
}

/// Calls a function of the host. A 0 is on top of its arguments, as room for the result.
#[inline(never)]
fn host_call<'a, H: Host>(
    thread: &mut Thread<'a>,
    host: &mut H,
    kind: &FuncType,
    number: u32,
    left: &mut u64,
) -> HostNext<H::Refusal>
    requires room { length kind.now.params < length thread.old.state.values.stack }
    requires nested { IsNested thread.old }
    requires allowed { H.allowed host.old number (host_arguments kind.now thread.old.state.values.stack) left.old }
    requires replies { let args = host_arguments kind.now thread.old.state.values.stack in
        Replies kind.now.results (H.meaning host.old number args thread.old.state.memory left.old).reply }
    ensures leads { (program : Program) (last : ℕ) (environment : Environment) →
        let s = on_stack (state_of thread.old.state host.old left.old last environment) (popped thread.old.state.values.stack) in
        HostLeads H.meaning H.stands program (after H.meaning program thread.old (call_host H.meaning kind.now number s))
        result thread.new host.new left.new last environment }
    ensures after { StaysAllowed H.allowed host.old left.old host.new left.new }
    ensures nested { IsNested thread.new }
    ensures falls { left.new ≤ left.old }
    ensures early { result ≡ HostNext.Ended RunEnd.Done → ⊥ }
{
    let count = kind.params.len();
    thread.state.values.mask(kind.params.as_slice());
    let args = thread.state.values.arguments(count);
    match host.call(HostFn(number), args, &mut thread.state.memory, left) {
        HostAnswer::Value(answer) => {
            thread.state.values.answer(count, answer);
            HostNext::Go
        }
        HostAnswer::Nothing => {
            thread.state.values.discard(count);
            HostNext::Go
        }
        HostAnswer::Exit => HostNext::Ended(RunEnd::Exit),
        HostAnswer::Refused(refusal) => HostNext::Ended(RunEnd::Refused(refusal)),
        HostAnswer::StepLimit => {
            *left = 0;
            HostNext::Ended(RunEnd::StepLimit)
        }
        HostAnswer::OutOfMemory => HostNext::Lacks,
    }
}

/// Executes the next instruction.
#[inline(always)]
fn turn<'a, H: Host, P: Stop>(
    thread: &mut Thread<'a>,
    functions: &Functions<'a>,
    alloc: Global,
    host: &mut H,
    stop: &mut P,
    left: &mut u64,
    last: &mut u64,
) -> Result<Progress<H::Refusal>, AllocError>
    requires below { MayBelow H.allowed (program_of functions.now) host.old left.old }
    requires sound { Sound (going_over H.meaning (program_of functions.now) thread.old host.old left.old last.old) }
    requires nested { IsNested thread.old }
    ensures leads { let program = program_of functions.now in
        Throughout P.may stop.old stop.new (λ before after.
        TurnLeads H.meaning H.stands program (going_over H.meaning program thread.old host.old left.old last.old before)
        result thread.new host.new left.new last.new after) }
    ensures falls { result ≡ Ok Progress.Go → left.new < left.old }
    ensures allowed { result ≡ Ok Progress.Go → MayBelow H.allowed (program_of functions.now) host.new left.new }
    ensures sound { result ≡ Ok Progress.Go → Sound (going_over H.meaning (program_of functions.now) thread.new host.new left.new last.new) }
    ensures nested { result ≡ Ok Progress.Go → IsNested thread.new }
    ensures over { result ≡ Ok Progress.Over → MayBelow H.allowed (program_of functions.now) host.new left.new }
    ensures early { result ≡ Ok (Progress.Ended RunEnd.Done) → ⊥ }
    ensures sinks { left.new ≤ left.old }
{
    let instr = match next_instr::<H>(thread) {
        Some(instr) => instr,
        None => return Ok(Progress::Over),
    };
    match pay(stop, left, last) {
        Paid::Yes => {}
        Paid::StepLimit => return Ok(Progress::Ended(RunEnd::StepLimit)),
        Paid::Cut(at) => return Ok(Progress::Ended(RunEnd::Cut { at })),
    }
    match act::<H>(thread, functions, alloc, instr, left) {
        Ok(Next::Go) => Ok(Progress::Go),
        Ok(Next::Trap(kind)) => Ok(Progress::Ended(RunEnd::Trap(kind))),
        Ok(Next::StepLimit) => Ok(Progress::Ended(RunEnd::StepLimit)),
        Ok(Next::CallDepth) => Ok(Progress::Ended(RunEnd::CallDepth)),
        Ok(Next::HostCall(kind, number)) => match host_call(thread, host, kind, number, left) {
            HostNext::Go => Ok(Progress::Go),
            HostNext::Ended(end) => Ok(Progress::Ended(end)),
            HostNext::Lacks => Err(AllocError),
        },
        Err(error) => {
            *left = *last;
            Err(error)
        }
    }
}

/// Runs until the last body has ended, which answers none, or the run has ended before.
fn run_thread<'a, H: Host, P: Stop>(
    thread: &mut Thread<'a>,
    functions: &Functions<'a>,
    alloc: Global,
    host: &mut H,
    stop: &mut P,
    left: &mut u64,
    last: &mut u64,
) -> Result<Option<RunEnd<H::Refusal>>, AllocError>
    requires below { MayBelow H.allowed (program_of functions.now) host.old left.old }
    requires sound { Sound (going_over H.meaning (program_of functions.now) thread.old host.old left.old last.old) }
    requires nested { IsNested thread.old }
    ensures leads { let program = program_of functions.now in
        Throughout P.may stop.old stop.new (λ before after.
        RunLeads H.stands (going_over H.meaning program thread.old host.old left.old last.old before)
        result thread.new host.new left.new last.new after) }
    ensures allowed { result ≡ Ok None → MayBelow H.allowed (program_of functions.now) host.new left.new }
    ensures early { result ≡ Ok (Some RunEnd.Done) → ⊥ }
    ensures sinks { left.new ≤ left.old }
{
    'turns: loop {
        if let Some(kind) = run_stretch::<H>(thread, alloc, left, last) {
            return Ok(Some(RunEnd::Trap(kind)));
        }
        match turn(thread, functions, alloc, host, stop, left, last) {
            Ok(Progress::Go) => {}
            Ok(Progress::Over) => return Ok(None),
            Ok(Progress::Ended(end)) => return Ok(Some(end)),
            Err(error) => return Err(error),
        }
    }
}

/// Calls a function from outside and runs it to its end.
pub(crate) fn invoke<'a, H: Host, P: Stop>(
    thread: &mut Thread<'a>,
    functions: &Functions<'a>,
    alloc: Global,
    host: &mut H,
    stop: &mut P,
    left: &mut u64,
    last: &mut u64,
    function: u32,
) -> Result<Option<RunEnd<H::Refusal>>, AllocError>
    requires idle { (length thread.old.code.now ≡ 0) × (thread.old.frames ≡ []) }
    requires below { MayBelow H.allowed (program_of functions.now) host.old left.old }
    requires sound { Sound (λ environment.
        invoked H.meaning (program_of functions.now) thread.old.free function (state_of thread.old.state host.old left.old last.old environment)) }
    requires here { IsHosts (program_of functions.now) function → MayCall H.allowed (program_of functions.now) host.old left.old }
    ensures leads { let program = program_of functions.now in
        Throughout P.may stop.old stop.new (λ before after.
        RunLeads H.stands (invoked H.meaning program thread.old.free function (state_of thread.old.state host.old left.old last.old before))
        result thread.new host.new left.new last.new after) }
    ensures allowed { result ≡ Ok None → MayBelow H.allowed (program_of functions.now) host.new left.new }
    ensures early { result ≡ Ok (Some RunEnd.Done) → ⊥ }
    ensures sinks { left.new ≤ left.old }
{
    match call_function::<H>(thread, functions, alloc, function) {
        Ok(Next::Go) => run_thread(thread, functions, alloc, host, stop, left, last),
        Ok(Next::Trap(kind)) => Ok(Some(RunEnd::Trap(kind))),
        Ok(Next::StepLimit) => Ok(Some(RunEnd::StepLimit)),
        Ok(Next::CallDepth) => Ok(Some(RunEnd::CallDepth)),
        Ok(Next::HostCall(kind, number)) => match host_call(thread, host, kind, number, left) {
            HostNext::Go => run_thread(thread, functions, alloc, host, stop, left, last),
            HostNext::Ended(end) => Ok(Some(end)),
            HostNext::Lacks => Err(AllocError),
        },
        Err(error) => Err(error),
    }
}
