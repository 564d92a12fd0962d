//! The open bodies of a run, on one explicit stack.
ghost use Rattle.std.specs.Prelude.{◌≡◌, ℕ, ◌∷◌, length};
ghost use Rattle.ante_wmeaning.specs.Environment.{Environment};
ghost use Rattle.ante_wmeaning.specs.Configurations.{Program, Normal, Branch, Returned};
ghost use Rattle.ante_wrun.specs.ThreadStates.{state_of, under, whole, going_over, Nested, IsNested, Finds, Reaches, Returns, Gives};
ghost use Rattle.ante_wmeaning.specs.RunEnds.{NotStuck};

use crate::blocks::{Frame, inner_label, land};
use ante_stack::Stack;
use ante_wmem::Host;
use ante_wtree::{Instr, ValueKind};
use ante_wvalues::Data;

/// What is left of the innermost body, and the bodies round it.
#[derive(Drop)]
pub(crate) struct Thread<'a> {
    pub(crate) code: &'a [Instr],
    pub(crate) frames: Stack<Frame<'a>>,
    pub(crate) state: Data,
    /// How many frames calls may still make.
    pub(crate) free: u32,
}

/// Goes on after a body that ended, whose frame was taken off.
#[inline(never)]
pub(crate) fn resume<'a, H: Host>(thread: &mut Thread<'a>, frame: Frame<'a>)
    requires gives { Gives frame (length thread.old.state.values.stack) }
    requires nested { Nested (length thread.old.state.values.below) (frame ∷ thread.old.frames) }
    ensures whole { (program : Program) (w : H) (left last : ℕ) (environment : Environment) →
        under H.meaning program thread.old.free thread.old.state.values.below (frame.entry ∷ thread.old.frames)
        (Normal (state_of thread.old.state w left last environment))
        ≡ going_over H.meaning program thread.new w left last environment }
    ensures frames { thread.new.frames ≡ thread.old.frames }
    ensures nested { IsNested thread.new }
{
    match frame {
        Frame::Block { rest, .. } => thread.code = rest,
        Frame::Loop { rest, .. } => thread.code = rest,
        Frame::Call {
            kind,
            base,
            locals,
            free,
            rest,
        } => {
            thread.state.values.leave(kind, base, locals);
            thread.free = free;
            thread.code = rest;
        }
    }
}

/// The next instruction, or none where the last body has ended.
#[inline(always)]
pub(crate) fn next_instr<'a, H: Host>(thread: &mut Thread<'a>) -> Option<&'a Instr>
    requires sound { (program : Program) × (w : H) × (left : ℕ) × (last : ℕ) × (environment : Environment) ×
        NotStuck (going_over H.meaning program thread.old w left last environment) }
    requires nested { IsNested thread.old }
    ensures finds { (program : Program) (w : H) (left last : ℕ) (environment : Environment) →
        Finds H.meaning program (going_over H.meaning program thread.old w left last environment)
        result thread.new (state_of thread.new.state w left last environment) }
    ensures nested { IsNested thread.new }
{
    'bodies: loop {
        if let Some((first, rest)) = thread.code.split_first() {
            thread.code = rest;
            return Some(first);
        }
        let Some(frame) = thread.frames.pop() else {
            return None;
        };
        resume::<H>(thread, frame);
    }
}

/// Branches to the label of a depth. The function's own label is where it returns to.
#[inline(never)]
pub(crate) fn branch<'a, H: Host>(thread: &mut Thread<'a>, depth: u32)
    requires reaches { Reaches thread.old.frames depth (length thread.old.state.values.stack) }
    requires nested { IsNested thread.old }
    ensures whole { (program : Program) (w : H) (left last : ℕ) (environment : Environment) →
        whole H.meaning program thread.old (Branch depth (state_of thread.old.state w left last environment))
        ≡ going_over H.meaning program thread.new w left last environment }
    ensures nested { IsNested thread.new }
{
    match inner_label(&thread.frames, depth) {
        Some(frame) => {
            let values = &mut thread.state.values;
            thread.code = land::<H>(values, &mut thread.frames, depth, frame);
        }
        None => leave::<H>(thread),
    }
}

/// Returns from the function.
#[inline(never)]
pub(crate) fn leave<'a, H: Host>(thread: &mut Thread<'a>)
    requires returns { Returns thread.old.frames (length thread.old.state.values.stack) }
    requires nested { IsNested thread.old }
    ensures whole { (program : Program) (w : H) (left last : ℕ) (environment : Environment) →
        whole H.meaning program thread.old (Returned (state_of thread.old.state w left last environment))
        ≡ going_over H.meaning program thread.new w left last environment }
    ensures nested { IsNested thread.new }
{
    'frames: while let Some(frame) = thread.frames.pop() {
        match frame {
            Frame::Block { .. } | Frame::Loop { .. } => {}
            Frame::Call { .. } => {
                resume::<H>(thread, frame);
                return;
            }
        }
    }
    unreachable!()
}
