//! Stretches of instructions that no look interrupts and that want no memory: plain ones, and blocks and branches inside a
//! function. Their values, steps and code are kept at hand until the stretch ends.
ghost use Rattle.std.specs.Prelude.{◌≡◌, ℕ, ◌-◌, ◌<◌, ◌≤◌, ◌%◌};
ghost use Rattle.ante_wtree.specs.Limits.{round_steps};
ghost use Rattle.ante_wmeaning.specs.Configurations.{Program};
ghost use Rattle.ante_wmeaning.specs.RunEnds.{Sound};
ghost use Rattle.ante_wrun.specs.ThreadStates.{going_over, IsNested, Nested};
ghost use Rattle.ante_wrun.specs.Stretches.{stepping, going_with, ThroughoutQuiet, MoveLeads, CodeLeads, StretchLeads};

use crate::blocks::{Frame, after_blocks, control_within};
use crate::thread::Thread;
use ante_stack::Stack;
use ante_wmeaning::TrapKind;
use ante_wmem::{Host, Memory};
use ante_wtree::Instr;
use ante_wtree::limits::ROUND_STEPS;
use ante_wvalues::{Tried, ValueStack, plain};
use std::alloc::Global;
use std::mem;

/// What became of the next instruction.
#[derive(Clone, Copy)]
pub(crate) enum Moved<'a> {
    /// It is done, and this code comes next.
    To(&'a [Instr]),
    Trap(TrapKind),
    /// Nothing is done: it is none for a stretch.
    Stays,
}

/// The code that is left after so many steps, and whether the last of them trapped.
#[derive(Clone, Copy)]
pub(crate) struct Stretch<'a> {
    pub(crate) code: &'a [Instr],
    pub(crate) steps: u64,
    pub(crate) trap: Option<TrapKind>,
}

/// Executes the next instruction, if it is one for a stretch.
#[inline(always)]
fn advance<'a, H: Host>(
    values: &mut ValueStack,
    globals: &mut Vec<u64>,
    memory: &mut Memory,
    frames: &mut Stack<Frame<'a>>,
    alloc: Global,
    code: &'a [Instr],
) -> Moved<'a>
    requires { (program : Program) × (w : H) × (free : ℕ) × (left : ℕ) × (0 < left % round_steps) ×
        Sound (going_with H.meaning program free frames.old code.now values.old globals.old.items memory.old w left) }
    ensures leads { (program : Program) (w : H) (free left : ℕ) → 0 < left % round_steps → ThroughoutQuiet (λ before after.
        MoveLeads H.meaning program free frames.new
        (going_with H.meaning program free frames.old code.entry.now values.old globals.old.items memory.old w left before)
        result values.new (stepping values.new globals.new.items memory.new w (left - 1) after)) }
    ensures undone { result ≡ Moved.Stays →
        (values.new ≡ values.old) × (globals.new.items ≡ globals.old.items) × (memory.new ≡ memory.old) × (frames.new ≡ frames.old) }
    ensures below { values.new.below ≡ values.old.below }
    ensures nested { (below : ℕ) → Nested below frames.old → Nested below frames.new }
{
    let Some((instr, rest)) = code.split_first() else {
        return Moved::Stays;
    };
    match plain(values, globals, memory, instr) {
        Tried::Done => Moved::To(rest),
        Tried::Trap(kind) => Moved::Trap(kind),
        Tried::Untouched => match control_within::<H>(values, frames, alloc, instr, rest) {
            Some(code) => Moved::To(code),
            None => Moved::Stays,
        },
    }
}

/// Executes instructions, at most so many.
#[inline(always)]
fn run_code<'a, H: Host>(
    values: &mut ValueStack,
    globals: &mut Vec<u64>,
    memory: &mut Memory,
    frames: &mut Stack<Frame<'a>>,
    alloc: Global,
    code: &'a [Instr],
    most: u64,
) -> Stretch<'a>
    requires { (program : Program) × (w : H) × (free : ℕ) × (left : ℕ) × (most ≤ left % round_steps) ×
        Sound (going_with H.meaning program free frames.old code.now values.old globals.old.items memory.old w left) }
    ensures leads { (program : Program) (w : H) (free left : ℕ) → most ≤ left % round_steps → ThroughoutQuiet (λ before after.
        CodeLeads H.meaning program free frames.new
        (going_with H.meaning program free frames.old code.entry.now values.old globals.old.items memory.old w left before)
        result.trap result.code.now values.new (stepping values.new globals.new.items memory.new w (left - result.steps) after)) }
    ensures few { result.steps ≤ most }
    ensures below { values.new.below ≡ values.old.below }
    ensures nested { (below : ℕ) → Nested below frames.old → Nested below frames.new }
{
    let mut rest = code;
    let mut steps = 0;
    'instructions: while steps < most {
        rest = after_blocks::<H>(frames, rest);
        match advance::<H>(values, globals, memory, frames, alloc, rest) {
            Moved::To(code) => {
                rest = code;
                steps += 1;
            }
            Moved::Trap(kind) => {
                return Stretch {
                    code: rest,
                    steps: steps + 1,
                    trap: Some(kind),
                };
            }
            Moved::Stays => {
                return Stretch {
                    code: rest,
                    steps,
                    trap: None,
                };
            }
        }
    }
    Stretch {
        code: rest,
        steps,
        trap: None,
    }
}

/// Executes the instructions that are next, up to the next look. The answer is the trap of the last one, if it has one.
#[inline(never)]
pub(crate) fn run_stretch<'a, H: Host>(
    thread: &mut Thread<'a>,
    alloc: Global,
    left: &mut u64,
    last: &mut u64,
) -> Option<TrapKind>
    requires nested { IsNested thread.old }
    requires sound { (program : Program) × (w : H) × Sound (going_over H.meaning program thread.old w left.old last.old) }
    ensures leads { (program : Program) (w : H) → ThroughoutQuiet (λ before after.
        StretchLeads H.meaning program
        (going_over H.meaning program thread.old w left.old last.old before)
        result thread.new w left.new last.new after) }
    ensures sinks { left.new ≤ left.old }
    ensures nested { IsNested thread.new }
{
    // Where the instruction executed last took more steps, a look may be due.
    if *last <= *left || *last - *left > 1 {
        return None;
    }
    let mut values = mem::replace(&mut thread.state.values, ValueStack::new(alloc));
    let done = run_code::<H>(
        &mut values,
        &mut thread.state.globals,
        &mut thread.state.memory,
        &mut thread.frames,
        alloc,
        thread.code,
        *left % ROUND_STEPS,
    );
    thread.state.values = values;
    thread.code = done.code;
    *left -= done.steps;
    *last -= done.steps;
    done.trap
}
