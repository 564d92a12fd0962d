ghost use Rattle.std.specs.Prelude.{◌≡◌, ◌↔◌, [], Some, slice_get, IsTrue, IfOk, All};
ghost use Rattle.ante_wvalid.specs.Typing.{With, Leaves, LeavesIf, LeavesAmong, CallsNamed, CallsByTable, Grows};
ghost use Rattle.ante_wvalid.specs.OperandStacks.{Carries, CarriesPlain, context_in};

use crate::operand_types::OperandTypes;
use crate::scope::{Scope, Signature, function_type, kinds, numbered};
use ante_stack::Stack;
use ante_wtree::{PlainInstr, ValueKind};
use std::alloc::{AllocError, Global};

pub fn plain(
    scope: &Scope<'_>,
    alloc: Global,
    instr: PlainInstr,
    operands: &mut OperandTypes,
) -> Result<bool, AllocError>
    ensures { IfOk result (λ typed. CarriesPlain scope.now instr typed operands.old operands.new) }
{
    match scope.signature(instr) {
        Signature::Fixed(takes, gives) => operands.turn(alloc, takes, gives),
        Signature::Drops => Ok(operands.drop_any()),
        Signature::Selects => operands.select(alloc),
        Signature::Unbounded => {
            operands.forget();
            Ok(true)
        }
        Signature::Untyped => Ok(false),
    }
}

pub fn leave(label: Option<ValueKind>, operands: &mut OperandTypes) -> bool
    ensures { Carries (Leaves label) result operands.old operands.new }
{
    if !operands.pop_all(kinds(label)) {
        return false;
    }
    operands.forget();
    true
}

pub fn jump(labels: &Stack<Option<ValueKind>>, n: u32, operands: &mut OperandTypes) -> bool
    ensures { Carries (With (slice_get labels.now n) Leaves) result operands.old operands.new }
{
    match labels.at(n as usize) {
        Some(label) => leave(label, operands),
        None => false,
    }
}

pub fn jump_if(
    labels: &Stack<Option<ValueKind>>,
    alloc: Global,
    n: u32,
    operands: &mut OperandTypes,
) -> Result<bool, AllocError>
    ensures { IfOk result (λ typed. Carries (With (slice_get labels.now n) LeavesIf) typed operands.old operands.new) }
{
    let Some(label) = labels.at(n as usize) else {
        return Ok(false);
    };
    if !operands.pop_kind(ValueKind::I32) {
        return Ok(false);
    }
    let wanted = kinds(label);
    operands.turn(alloc, wanted, wanted)
}

fn is_label(labels: &Stack<Option<ValueKind>>, n: u32, label: Option<ValueKind>) -> bool
    ensures { IsTrue result ↔ (slice_get labels.now n ≡ Some label) }
{
    labels.at(n as usize) == Some(label)
}

fn agree(labels: &Stack<Option<ValueKind>>, targets: &[u32], label: Option<ValueKind>) -> bool
    ensures { IsTrue result ↔ All (λ k. slice_get labels.now k ≡ Some label) targets.now }
{
    let mut rest = targets;
    'targets: while let Some((target, tail)) = rest.split_first() {
        if !is_label(labels, *target, label) {
            return false;
        }
        rest = tail;
    }
    true
}

pub fn jump_among(
    labels: &Stack<Option<ValueKind>>,
    targets: &[u32],
    n: u32,
    operands: &mut OperandTypes,
) -> bool
    ensures { Carries (With (slice_get labels.now n) (LeavesAmong labels.now targets.now)) result operands.old operands.new }
{
    let Some(label) = labels.at(n as usize) else {
        return false;
    };
    if !agree(labels, targets, label) {
        return false;
    }
    if !operands.pop_kind(ValueKind::I32) {
        return false;
    }
    leave(label, operands)
}

pub fn call(
    scope: &Scope<'_>,
    alloc: Global,
    f: u32,
    operands: &mut OperandTypes,
) -> Result<bool, AllocError>
    ensures { IfOk result (λ typed. Carries (CallsNamed (context_in scope.now []) f) typed operands.old operands.new) }
{
    match function_type(scope.types, scope.functions, f) {
        Some(callee) => {
            operands.turn(alloc, callee.params.as_slice(), callee.results.as_slice())
        }
        None => Ok(false),
    }
}

pub fn call_by_table(
    scope: &Scope<'_>,
    alloc: Global,
    number: u32,
    operands: &mut OperandTypes,
) -> Result<bool, AllocError>
    ensures { IfOk result (λ typed. Carries (CallsByTable (context_in scope.now []) number) typed operands.old operands.new) }
{
    if !scope.table {
        return Ok(false);
    }
    let Some(callee) = numbered(scope.types, number) else {
        return Ok(false);
    };
    if !operands.pop_kind(ValueKind::I32) {
        return Ok(false);
    }
    operands.turn(alloc, callee.params.as_slice(), callee.results.as_slice())
}

pub fn grow(
    scope: &Scope<'_>,
    alloc: Global,
    operands: &mut OperandTypes,
) -> Result<bool, AllocError>
    ensures { IfOk result (λ typed. Carries (Grows (context_in scope.now [])) typed operands.old operands.new) }
{
    if !scope.memory {
        return Ok(false);
    }
    operands.turn(alloc, &[ValueKind::I32], &[ValueKind::I32])
}
