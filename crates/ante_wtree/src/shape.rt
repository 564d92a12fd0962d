ghost use Rattle.std.specs.Prelude.{◌≡◌};
ghost use Rattle.ante_wtree.specs.Expressions.{Expression, cons, cons_shape};

use crate::instructions::{Instr, PlainInstr, ValueKind};

/// What an instruction is, without its bodies' places in memory.
#[derive(Clone, Copy)]
pub enum Shape<'a> {
    Plain(PlainInstr),
    Block(Option<ValueKind>, &'a [Instr]),
    Loop(Option<ValueKind>, &'a [Instr]),
    If(Option<ValueKind>, &'a [Instr], &'a [Instr]),
    Br(u32),
    BrIf(u32),
    BrTable(&'a [u32], u32),
    Return,
    Call(u32),
    CallIndirect(u32),
    MemoryGrow,
}

/// The shape of an instruction.
#[inline(always)]
pub fn shape_of(instr: &Instr) -> Shape<'_>
    ensures { (rest : Expression) → cons instr.now rest ≡ cons_shape result rest }
{
    match instr {
        Instr::Unreachable => Shape::Plain(PlainInstr::Unreachable),
        Instr::Nop => Shape::Plain(PlainInstr::Nop),
        Instr::Block(kind, body) => Shape::Block(*kind, body),
        Instr::Loop(kind, body) => Shape::Loop(*kind, body),
        Instr::If(kind, one, two) => Shape::If(*kind, one, two),
        Instr::Br(label) => Shape::Br(*label),
        Instr::BrIf(label) => Shape::BrIf(*label),
        Instr::BrTable(labels, label) => Shape::BrTable(labels.as_slice(), *label),
        Instr::Return => Shape::Return,
        Instr::Call(function) => Shape::Call(*function),
        Instr::CallIndirect(kind) => Shape::CallIndirect(*kind),
        Instr::Drop => Shape::Plain(PlainInstr::Drop),
        Instr::Select => Shape::Plain(PlainInstr::Select),
        Instr::LocalGet(n) => Shape::Plain(PlainInstr::LocalGet(*n)),
        Instr::LocalSet(n) => Shape::Plain(PlainInstr::LocalSet(*n)),
        Instr::LocalTee(n) => Shape::Plain(PlainInstr::LocalTee(*n)),
        Instr::GlobalGet(n) => Shape::Plain(PlainInstr::GlobalGet(*n)),
        Instr::GlobalSet(n) => Shape::Plain(PlainInstr::GlobalSet(*n)),
        Instr::Load(kind, at) => Shape::Plain(PlainInstr::Load(*kind, *at)),
        Instr::Store(kind, at) => Shape::Plain(PlainInstr::Store(*kind, *at)),
        Instr::MemorySize => Shape::Plain(PlainInstr::MemorySize),
        Instr::MemoryGrow => Shape::MemoryGrow,
        Instr::I32Const(n) => Shape::Plain(PlainInstr::I32Const(*n)),
        Instr::I64Const(n) => Shape::Plain(PlainInstr::I64Const(*n)),
        Instr::I32Eqz => Shape::Plain(PlainInstr::I32Eqz),
        Instr::I32Compare(op) => Shape::Plain(PlainInstr::I32Compare(*op)),
        Instr::I64Eqz => Shape::Plain(PlainInstr::I64Eqz),
        Instr::I64Compare(op) => Shape::Plain(PlainInstr::I64Compare(*op)),
        Instr::I32Unary(op) => Shape::Plain(PlainInstr::I32Unary(*op)),
        Instr::I32Binary(op) => Shape::Plain(PlainInstr::I32Binary(*op)),
        Instr::I64Unary(op) => Shape::Plain(PlainInstr::I64Unary(*op)),
        Instr::I64Binary(op) => Shape::Plain(PlainInstr::I64Binary(*op)),
        Instr::I32WrapI64 => Shape::Plain(PlainInstr::I32WrapI64),
        Instr::I64ExtendI32S => Shape::Plain(PlainInstr::I64ExtendI32S),
        Instr::I64ExtendI32U => Shape::Plain(PlainInstr::I64ExtendI32U),
    }
}
