//! What one instruction does to a thread (section 4.4.5).
ghost use Rattle.std.specs.Prelude.{◌≡◌, ℕ, ◌<◌, ◌≤◌, None, Some, length, IfOk, slice_get};
ghost use Rattle.ante_wtree.specs.Expressions.{cons, cons_shape, expression_of};
ghost use Rattle.ante_wmeaning.specs.PlainInstructions.{low, top, popped};
ghost use Rattle.ante_wmeaning.specs.Environment.{Environment};
ghost use Rattle.ante_wmeaning.specs.Configurations.{Program, on_stack, stack_of};
ghost use Rattle.ante_wmeaning.specs.Execution.{is_of, element, grow, target, call};
ghost use Rattle.ante_wrun.specs.ThreadStates.{state_of, whole_acts, after, IsNested};
ghost use Rattle.ante_wrun.specs.Control.{instance_of, program_of, own_at, Leads, NotHostCall, GivenAt, Takes, Leaves};
ghost use Rattle.ante_wmeaning.specs.RunEnds.{NotStuck};

use crate::blocks::{Frame, begin_body, label};
use crate::thread::{Thread, branch, leave};
use ante_wmeaning::TrapKind;
use ante_wmem::Host;
use ante_wtree::{FuncType, Instr, Shape, result_of, same_type, shape_of};
use ante_wvalues::{Tried, low, plain_with_room};
use std::alloc::{AllocError, Global};

/// A function of the module: one of its own, with the number of its locals beside the parameters, or one of the host's.
#[derive(Clone, Copy)]
pub(crate) enum Function<'a> {
    Own {
        kind: &'a FuncType,
        locals: u32,
        body: &'a [Instr],
    },
    Host {
        kind: &'a FuncType,
        number: u32,
    },
}

/// The parts of a module that calls look at.
#[derive(Drop)]
pub(crate) struct Functions<'a> {
    pub(crate) types: &'a [FuncType],
    pub(crate) all: Vec<Function<'a>>,
    pub(crate) table: Vec<Option<u32>>,
}

/// What comes after an instruction.
pub(crate) enum Next<'a> {
    Go,
    Trap(TrapKind),
    StepLimit,
    CallDepth,
    /// A call of this function of the host. A 0 is on top of the arguments, as room for the result.
    HostCall(&'a FuncType, u32),
}

fn is_of(function: Function<'_>, wanted: &FuncType) -> bool
    ensures { result ≡ is_of (instance_of function.entry) wanted.now }
{
    match function {
        Function::Own { kind, .. } => same_type(
            kind,
            wanted.params.as_slice(),
            wanted.results.as_slice(),
        ),
        Function::Host { kind, .. } => same_type(
            kind,
            wanted.params.as_slice(),
            wanted.results.as_slice(),
        ),
    }
}

/// The function that the table has at a place, if it is of the type that is named.
fn element(functions: &Functions<'_>, wanted: u32, at: u32) -> Result<u32, TrapKind>
    requires { element (program_of functions.now) wanted at ≡ None → ⊥ }
    ensures { element (program_of functions.now) wanted at ≡ Some result }
{
    match functions.table.get(at as usize).copied() {
        Some(Some(function)) => {
            if is_of(
                functions.all[function as usize],
                &functions.types[wanted as usize],
            ) {
                Ok(function)
            } else {
                Err(TrapKind::WrongType)
            }
        }
        Some(None) | None => Err(TrapKind::NoElement),
    }
}

/// Begins a frame for one of the module's functions.
#[inline(never)]
fn enter<'a, H: Host>(
    thread: &mut Thread<'a>,
    alloc: Global,
    kind: &'a FuncType,
    locals: u32,
    body: &'a [Instr],
) -> Result<Next<'a>, AllocError>
    requires operands { length kind.now.params ≤ length thread.old.state.values.stack }
    requires nested { IsNested thread.old }
    ensures own { IfOk result NotHostCall }
    ensures nested { IfOk result (λ next. IsNested thread.new) }
    ensures leads { IfOk result (λ next. (program : Program) (w : H) (left last : ℕ) (environment : Environment) →
        Leads H.meaning program
        (after H.meaning program thread.old
        (own_at H.meaning program thread.old.free kind.entry.now locals (expression_of body.entry.now) (state_of thread.old.state w left last environment)))
        next thread.new w left last environment) }
{
    let params = kind.params.len();
    if thread.free == 0 {
        return Ok(Next::CallDepth);
    }
    let frame = Frame::Call {
        kind: result_of(kind.results.as_slice()),
        base: thread.state.values.below(),
        locals: thread.state.values.local_count(),
        free: thread.free,
        rest: thread.code,
    };
    thread.frames.push(alloc, frame)?;
    thread.state.values.enter(alloc, params, locals)?;
    thread.code = body;
    thread.free -= 1;
    Ok(Next::Go)
}

/// Calls a function.
#[inline(never)]
pub(crate) fn call_function<'a, H: Host>(
    thread: &mut Thread<'a>,
    functions: &Functions<'a>,
    alloc: Global,
    at: u32,
) -> Result<Next<'a>, AllocError>
    requires takes { Takes (slice_get (program_of functions.now).functions at) (length thread.old.state.values.stack) }
    requires nested { IsNested thread.old }
    ensures given { IfOk result (λ next. GivenAt (program_of functions.now) at next) }
    ensures nested { IfOk result (λ next. IsNested thread.new) }
    ensures leads { IfOk result (λ next. (w : H) (left last : ℕ) (environment : Environment) →
        let program = program_of functions.now in
        Leads H.meaning program
        (after H.meaning program thread.old (call H.meaning program thread.old.free at (state_of thread.old.state w left last environment)))
        next thread.new w left last environment) }
{
    match functions.all[at as usize] {
        Function::Own { kind, locals, body } => { enter::<H>(thread, alloc, kind, locals, body) }
        Function::Host { kind, number } => {
            thread.state.values.push_with_room(alloc, 0)?;
            Ok(Next::HostCall(kind, number))
        }
    }
}

#[inline(never)]
fn call_indirect<'a, H: Host>(
    thread: &mut Thread<'a>,
    functions: &Functions<'a>,
    alloc: Global,
    wanted: u32,
) -> Result<Next<'a>, AllocError>
    requires room { 0 < length thread.old.state.values.stack }
    requires leaves { let stack = thread.old.state.values.stack in
        Leaves (program_of functions.now) (element (program_of functions.now) wanted (low (top stack))) (length (popped stack)) }
    requires nested { IsNested thread.old }
    ensures nested { IfOk result (λ next. IsNested thread.new) }
    ensures leads { IfOk result (λ next. (w : H) (left last : ℕ) (environment : Environment) →
        let program = program_of functions.now in
        let s = state_of thread.old.state w left last environment in
        Leads H.meaning program
        (after H.meaning program thread.old
        (target (element program wanted (low (top (stack_of s)))) (call H.meaning program thread.old.free) (on_stack s (popped (stack_of s)))))
        next thread.new w left last environment) }
{
    let at = low(thread.state.values.pop());
    match element(functions, wanted, at) {
        Ok(function) => call_function::<H>(thread, functions, alloc, function),
        Err(kind) => Ok(Next::Trap(kind)),
    }
}

/// Makes the memory grow, where the pages can be paid.
#[inline(never)]
fn grow<'a, H: Host>(
    thread: &mut Thread<'a>,
    alloc: Global,
    left: &mut u64,
) -> Result<Next<'a>, AllocError>
    requires room { 0 < length thread.old.state.values.stack }
    requires nested { IsNested thread.old }
    ensures falls { left.new ≤ left.old }
    ensures nested { IfOk result (λ next. IsNested thread.new) }
    ensures leads { IfOk result (λ next. (program : Program) (w : H) (last : ℕ) (environment : Environment) →
        let s = state_of thread.old.state w left.old last environment in
        Leads H.meaning program
        (after H.meaning program thread.old (grow (low (top (stack_of s))) (on_stack s (popped (stack_of s)))))
        next thread.new w left.new last environment) }
{
    let pages = low(thread.state.values.pop());
    let grows = pages <= thread.state.memory.most() - thread.state.memory.pages();
    if grows && u64::from(pages) > *left {
        *left = 0;
        return Ok(Next::StepLimit);
    }
    let answer = thread.state.memory.grow(alloc, pages)?;
    thread
        .state
        .values
        .push_with_room(alloc, u64::from(answer))?;
    if grows {
        *left -= u64::from(pages);
    }
    Ok(Next::Go)
}

/// Begins a block, a loop or the chosen part of an `if`. No other instruction is done here.
#[inline(never)]
fn begin<'a, H: Host>(
    thread: &mut Thread<'a>,
    alloc: Global,
    shape: Shape<'a>,
) -> Result<Next<'a>, AllocError>
    requires sound { (program : Program) × (w : H) × (left : ℕ) × (last : ℕ) × (environment : Environment) ×
        NotStuck (whole_acts H.meaning program thread.old (cons_shape shape (expression_of thread.old.code.now)) w left last environment) }
    requires nested { IsNested thread.old }
    ensures nested { IfOk result (λ next. IsNested thread.new) }
    ensures leads { IfOk result (λ next. (program : Program) (w : H) (left last : ℕ) (environment : Environment) →
        Leads H.meaning program
        (whole_acts H.meaning program thread.old (cons_shape shape.entry (expression_of thread.old.code.now)) w left last environment)
        next thread.new w left last environment) }
{
    let values = &mut thread.state.values;
    match begin_body::<H>(values, &mut thread.frames, alloc, shape, thread.code) {
        Some(code) => {
            thread.code = code;
            Ok(Next::Go)
        }
        None => Err(AllocError),
    }
}

/// Executes an instruction whose step is paid; an `Err` is want of memory.
#[inline(always)]
pub(crate) fn act<'a, H: Host>(
    thread: &mut Thread<'a>,
    functions: &Functions<'a>,
    alloc: Global,
    instr: &'a Instr,
    left: &mut u64,
) -> Result<Next<'a>, AllocError>
    requires sound { (w : H) × (last : ℕ) × (environment : Environment) × (let program = program_of functions.now in
        NotStuck (whole_acts H.meaning program thread.old (cons instr.now (expression_of thread.old.code.now)) w left.old last environment)) }
    requires nested { IsNested thread.old }
    ensures falls { left.new ≤ left.old }
    ensures nested { IfOk result (λ next. IsNested thread.new) }
    ensures leads { IfOk result (λ next. (w : H) (last : ℕ) (environment : Environment) →
        let program = program_of functions.now in
        Leads H.meaning program
        (whole_acts H.meaning program thread.old (cons instr.entry.now (expression_of thread.old.code.now)) w left.old last environment)
        next thread.new w left.new last environment) }
{
    let shape = shape_of(instr);
    match shape {
        Shape::Plain(_) => match plain_with_room(&mut thread.state, alloc, instr) {
            Tried::Done => Ok(Next::Go),
            Tried::Trap(kind) => Ok(Next::Trap(kind)),
            Tried::Untouched => Err(AllocError),
        },
        Shape::Block(..) | Shape::Loop(..) | Shape::If(..) => begin::<H>(thread, alloc, shape),
        Shape::Br(depth) => {
            branch::<H>(thread, depth);
            Ok(Next::Go)
        }
        Shape::BrIf(depth) => {
            if low(thread.state.values.pop()) == 0 {
                return Ok(Next::Go);
            }
            branch::<H>(thread, depth);
            Ok(Next::Go)
        }
        Shape::BrTable(labels, last) => {
            let at = low(thread.state.values.pop());
            let depth = label(labels, last, at);
            branch::<H>(thread, depth);
            Ok(Next::Go)
        }
        Shape::Return => {
            leave::<H>(thread);
            Ok(Next::Go)
        }
        Shape::Call(function) => call_function::<H>(thread, functions, alloc, function),
        Shape::CallIndirect(kind) => call_indirect::<H>(thread, functions, alloc, kind),
        Shape::MemoryGrow => grow::<H>(thread, alloc, left),
    }
}
