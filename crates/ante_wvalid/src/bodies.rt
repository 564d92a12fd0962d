ghost use Rattle.std.specs.Prelude.{◌≡◌, ◌↔◌, ◌∷◌, [], Some, IsTrue, IfOk, None};
ghost use Rattle.ante_wtree.specs.Expressions.{expression_of};
ghost use Rattle.ante_wtree.specs.Types.{kinds_of};
ghost use Rattle.ante_wvalid.specs.Typing.{Typed, inside};
ghost use Rattle.ante_wvalid.specs.OperandStacks.{Carries, BlockTurns, IfTurns, context_in, step_of};

use crate::jumps::{call, call_by_table, grow, jump, jump_among, jump_if, leave, plain};
use crate::operand_types::OperandTypes;
use crate::scope::{Scope, kinds};
use ante_stack::Stack;
use ante_wtree::{Instr, Shape, ValueKind, shape_of};
use std::alloc::{AllocError, Global};

/// Whether a sequence begun with no operands leaves this result.
#[cycle(bodies)]
pub fn sequence(
    scope: &Scope<'_>,
    labels: &mut Stack<Option<ValueKind>>,
    alloc: Global,
    body: &[Instr],
    wanted: Option<ValueKind>,
) -> Result<bool, AllocError>
    ensures typed { IfOk result (λ yes. IsTrue yes ↔ Typed (context_in scope.now labels.old) (expression_of body.now) [] (kinds_of wanted)) }
    ensures labels { IfOk result (λ _. labels.new ≡ labels.old) }
{
    let mut operands = OperandTypes::new(alloc);
    let mut rest = body;
    'instrs: while let Some((instr, tail)) = rest.split_first() {
        if !step(scope, labels, alloc, shape_of(instr), &mut operands)? {
            return Ok(false);
        }
        rest = tail;
    }
    Ok(operands.are(kinds(wanted)))
}

/// The body of a block with this label.
#[cycle(bodies)]
fn inner(
    scope: &Scope<'_>,
    labels: &mut Stack<Option<ValueKind>>,
    alloc: Global,
    label: Option<ValueKind>,
    body: &[Instr],
    kind: Option<ValueKind>,
) -> Result<bool, AllocError>
    ensures typed { IfOk result (λ yes. IsTrue yes ↔ Typed (inside label (context_in scope.now labels.old)) (expression_of body.now) [] (kinds_of kind)) }
    ensures labels { IfOk result (λ _. labels.new ≡ labels.old) }
{
    labels.push(alloc, label)?;
    let typed = sequence(scope, labels, alloc, body, kind)?;
    labels.pop();
    Ok(typed)
}

#[cycle(bodies)]
fn block(
    scope: &Scope<'_>,
    labels: &mut Stack<Option<ValueKind>>,
    alloc: Global,
    label: Option<ValueKind>,
    body: &[Instr],
    kind: Option<ValueKind>,
    operands: &mut OperandTypes,
) -> Result<bool, AllocError>
    ensures carries { IfOk result (λ yes. Carries (BlockTurns (context_in scope.now labels.old) label (expression_of body.now) kind) yes
        operands.old operands.new) }
    ensures labels { IfOk result (λ _. labels.new ≡ labels.old) }
{
    if !inner(scope, labels, alloc, label, body, kind)? {
        return Ok(false);
    }
    operands.push_all(alloc, kinds(kind))?;
    Ok(true)
}

#[cycle(bodies)]
fn choice(
    scope: &Scope<'_>,
    labels: &mut Stack<Option<ValueKind>>,
    alloc: Global,
    one: &[Instr],
    two: &[Instr],
    kind: Option<ValueKind>,
    operands: &mut OperandTypes,
) -> Result<bool, AllocError>
    ensures carries { IfOk result (λ yes. Carries (IfTurns (context_in scope.now labels.old) (expression_of one.now)
        (expression_of two.now) kind) yes operands.old operands.new) }
    ensures labels { IfOk result (λ _. labels.new ≡ labels.old) }
{
    if !inner(scope, labels, alloc, kind, one, kind)? {
        return Ok(false);
    }
    if !inner(scope, labels, alloc, kind, two, kind)? {
        return Ok(false);
    }
    let typed = operands.turn(alloc, &[ValueKind::I32], kinds(kind))?;
    Ok(typed)
}

#[cycle(bodies)]
fn step(
    scope: &Scope<'_>,
    labels: &mut Stack<Option<ValueKind>>,
    alloc: Global,
    shape: Shape<'_>,
    operands: &mut OperandTypes,
) -> Result<bool, AllocError>
    ensures carries { IfOk result (λ yes. Carries (step_of (context_in scope.now labels.old) shape.entry) yes operands.old operands.new) }
    ensures labels { IfOk result (λ _. labels.new ≡ labels.old) }
{
    match shape {
        Shape::Plain(instr) => plain(scope, alloc, instr, operands),
        Shape::Block(kind, body) => block(scope, labels, alloc, kind, body, kind, operands),
        Shape::Loop(kind, body) => block(scope, labels, alloc, None, body, kind, operands),
        Shape::If(kind, one, two) => choice(scope, labels, alloc, one, two, kind, operands),
        Shape::Br(n) => Ok(jump(labels, n, operands)),
        Shape::BrIf(n) => jump_if(labels, alloc, n, operands),
        Shape::BrTable(targets, n) => Ok(jump_among(labels, targets, n, operands)),
        Shape::Return => Ok(leave(scope.result, operands)),
        Shape::Call(f) => call(scope, alloc, f, operands),
        Shape::CallIndirect(number) => call_by_table(scope, alloc, number, operands),
        Shape::MemoryGrow => grow(scope, alloc, operands),
    }
}
