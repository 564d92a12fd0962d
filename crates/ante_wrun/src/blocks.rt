//! Control instructions that stay within their function (section 4.4.5), on its values and open bodies.
ghost use Rattle.std.specs.Prelude.{◌≡◌, ℕ, ◌==◌, if◌then◌else◌, None, Some, length, drop, slice_get, slice_index_or, MatchOption};
ghost use Rattle.ante_wtree.specs.Expressions.{cons, cons_shape, expression_of};
ghost use Rattle.ante_wmeaning.specs.Environment.{Environment};
ghost use Rattle.ante_wmeaning.specs.Configurations.{Program, Branch};
ghost use Rattle.ante_wrun.specs.ThreadStates.{state_of, under, goes, Reaches, Nested};
ghost use Rattle.ante_wrun.specs.Stretches.{SameFrom, IsInner, IsOwnLabel, HasRule, Within};

use ante_stack::Stack;
use ante_wmem::Host;
use ante_wtree::{Instr, Shape, ValueKind, shape_of};
use ante_wvalues::{Data, ValueStack, low};
use std::alloc::Global;

/// A body that isn't ended, with what is to be done after it.
#[derive(Clone, Copy)]
pub(crate) enum Frame<'a> {
    Block {
        kind: Option<ValueKind>,
        height: usize,
        rest: &'a [Instr],
    },
    Loop {
        height: usize,
        body: &'a [Instr],
        rest: &'a [Instr],
    },
    /// Where the caller's locals begin and how many they are, and how many frames are free for it.
    Call {
        kind: Option<ValueKind>,
        base: usize,
        locals: usize,
        free: u32,
        rest: &'a [Instr],
    },
}

/// The code that is next after the blocks and loops that have ended.
#[inline(always)]
pub(crate) fn after_blocks<'a, H: Host>(
    frames: &mut Stack<Frame<'a>>,
    code: &'a [Instr],
) -> &'a [Instr]
    ensures same { SameFrom H.meaning frames.old code.entry.now frames.new result.now }
    ensures nested { (below : ℕ) → Nested below frames.old → Nested below frames.new }
{
    let mut rest = code;
    'ended: while rest.is_empty() {
        let Some(frame) = frames.top() else {
            return rest;
        };
        match frame {
            Frame::Block { rest: after, .. } => {
                frames.discard();
                rest = after;
            }
            Frame::Loop { rest: after, .. } => {
                frames.discard();
                rest = after;
            }
            Frame::Call { .. } => return rest,
        }
    }
    rest
}

/// Takes the innermost frames away.
#[inline(always)]
fn discard(frames: &mut Stack<Frame<'_>>, count: usize)
    ensures { frames.new ≡ drop count frames.old }
{
    for _ in 0..count {
        frames.discard();
    }
}

/// The block or loop whose label has this depth; none where the label is the function's own.
#[inline(always)]
pub(crate) fn inner_label<'a>(frames: &Stack<Frame<'a>>, depth: u32) -> Option<Frame<'a>>
    requires { (count : ℕ) × Reaches frames.now depth count }
    ensures { MatchOption result (IsOwnLabel frames.now depth) (λ frame. (slice_get frames.now depth ≡ Some frame) × IsInner frame) }
{
    let Some(frame) = frames.at(depth as usize) else {
        unreachable!()
    };
    match frame {
        Frame::Block { .. } | Frame::Loop { .. } => Some(frame),
        Frame::Call { .. } => None,
    }
}

/// Branches to a block's or a loop's label.
#[inline(always)]
pub(crate) fn land<'a, H: Host>(
    values: &mut ValueStack,
    frames: &mut Stack<Frame<'a>>,
    depth: u32,
    frame: Frame<'a>,
) -> &'a [Instr]
    requires label { slice_get frames.old depth ≡ Some frame }
    requires inner { IsInner frame }
    requires reaches { Reaches frames.old depth (length values.old.stack) }
    ensures leads { (program : Program) (w : H) (free left last : ℕ) (environment : Environment) (d : Data) →
        under H.meaning program free values.old.below frames.old (Branch depth (state_of (record d { values = values.old }) w left last environment))
        ≡ goes H.meaning program free frames.new result.now values.new (state_of (record d { values = values.new }) w left last environment) }
    ensures below { values.new.below ≡ values.old.below }
    ensures nested { (below : ℕ) → Nested below frames.old → Nested below frames.new }
{
    match frame {
        Frame::Block { kind, height, rest } => {
            values.unwind(kind, height);
            discard(frames, depth as usize + 1);
            rest
        }
        Frame::Loop { height, body, .. } => {
            values.keep(height);
            discard(frames, depth as usize);
            body
        }
        Frame::Call { .. } => unreachable!(),
    }
}

/// The label that a table of labels has at a place, or its last one.
pub(crate) fn label(labels: &[u32], last: u32, at: u32) -> u32
    ensures { result ≡ slice_index_or labels.now at last }
{
    let at = at as usize;
    if at < labels.len() { labels[at] } else { last }
}

fn chosen<'a>(test: u32, one: &'a [Instr], two: &'a [Instr]) -> &'a [Instr]
    ensures { result ≡ (if test == 0 then two.entry else one.entry) }
{
    if test == 0 { two } else { one }
}

/// Begins a block, a loop or the chosen part of an `if`: the code that is next. None, with nothing done, for another
/// instruction, and where memory is wanted.
#[inline(always)]
pub(crate) fn begin_body<'a, H: Host>(
    values: &mut ValueStack,
    frames: &mut Stack<Frame<'a>>,
    alloc: Global,
    shape: Shape<'a>,
    rest: &'a [Instr],
) -> Option<&'a [Instr]>
    requires { HasRule H.meaning (cons_shape shape (expression_of rest.now)) values.old frames.old }
    ensures leads { Within H.meaning (cons_shape shape.entry (expression_of rest.entry.now)) values.old frames.old result values.new frames.new }
    ensures undone { result ≡ None → (values.new ≡ values.old) × (frames.new ≡ frames.old) }
    ensures below { values.new.below ≡ values.old.below }
    ensures nested { (below : ℕ) → Nested below frames.old → Nested below frames.new }
{
    match shape {
        Shape::Block(kind, body) => {
            let height = values.height();
            match frames.push(alloc, Frame::Block { kind, height, rest }) {
                Ok(()) => Some(body),
                Err(_) => None,
            }
        }
        Shape::Loop(_, body) => {
            let height = values.height();
            match frames.push(alloc, Frame::Loop { height, body, rest }) {
                Ok(()) => Some(body),
                Err(_) => None,
            }
        }
        Shape::If(kind, one, two) => {
            let height = values.height() - 1;
            match frames.push(alloc, Frame::Block { kind, height, rest }) {
                Ok(()) => {
                    let test = low(values.pop());
                    Some(chosen(test, one, two))
                }
                Err(_) => None,
            }
        }
        Shape::Plain(_)
        | Shape::Br(_)
        | Shape::BrIf(_)
        | Shape::BrTable(..)
        | Shape::Return
        | Shape::Call(_)
        | Shape::CallIndirect(_)
        | Shape::MemoryGrow => None,
    }
}

/// Branches to a label inside the function, or goes on where a condition is 0: the code that is next. None, with nothing
/// done, for another instruction, and where the label is the function's own.
#[inline(always)]
fn branch_within<'a, H: Host>(
    values: &mut ValueStack,
    frames: &mut Stack<Frame<'a>>,
    shape: Shape<'a>,
    rest: &'a [Instr],
) -> Option<&'a [Instr]>
    requires { HasRule H.meaning (cons_shape shape (expression_of rest.now)) values.old frames.old }
    ensures leads { Within H.meaning (cons_shape shape.entry (expression_of rest.entry.now)) values.old frames.old result values.new frames.new }
    ensures undone { result ≡ None → (values.new ≡ values.old) × (frames.new ≡ frames.old) }
    ensures below { values.new.below ≡ values.old.below }
    ensures nested { (below : ℕ) → Nested below frames.old → Nested below frames.new }
{
    match shape {
        Shape::Br(depth) => {
            let frame = inner_label(frames, depth)?;
            Some(land::<H>(values, frames, depth, frame))
        }
        Shape::BrIf(depth) => {
            if low(values.top()) == 0 {
                let _ = values.pop();
                return Some(rest);
            }
            let frame = inner_label(frames, depth)?;
            let _ = values.pop();
            Some(land::<H>(values, frames, depth, frame))
        }
        Shape::BrTable(labels, last) => {
            let depth = label(labels, last, low(values.top()));
            let frame = inner_label(frames, depth)?;
            let _ = values.pop();
            Some(land::<H>(values, frames, depth, frame))
        }
        Shape::Plain(_)
        | Shape::Block(..)
        | Shape::Loop(..)
        | Shape::If(..)
        | Shape::Return
        | Shape::Call(_)
        | Shape::CallIndirect(_)
        | Shape::MemoryGrow => None,
    }
}

/// Executes a control instruction that stays within its function: the code that is next. None, with nothing done, for
/// another one, and where memory is wanted.
#[inline(always)]
pub(crate) fn control_within<'a, H: Host>(
    values: &mut ValueStack,
    frames: &mut Stack<Frame<'a>>,
    alloc: Global,
    instr: &'a Instr,
    rest: &'a [Instr],
) -> Option<&'a [Instr]>
    requires { HasRule H.meaning (cons instr.now (expression_of rest.now)) values.old frames.old }
    ensures leads { Within H.meaning (cons instr.entry.now (expression_of rest.entry.now)) values.old frames.old result values.new frames.new }
    ensures undone { result ≡ None → (values.new ≡ values.old) × (frames.new ≡ frames.old) }
    ensures below { values.new.below ≡ values.old.below }
    ensures nested { (below : ℕ) → Nested below frames.old → Nested below frames.new }
{
    let shape = shape_of(instr);
    match shape {
        Shape::Block(..) | Shape::Loop(..) | Shape::If(..) => {
            begin_body::<H>(values, frames, alloc, shape, rest)
        }
        Shape::Br(_) | Shape::BrIf(_) | Shape::BrTable(..) => {
            branch_within::<H>(values, frames, shape, rest)
        }
        Shape::Plain(_)
        | Shape::Return
        | Shape::Call(_)
        | Shape::CallIndirect(_)
        | Shape::MemoryGrow => None,
    }
}
