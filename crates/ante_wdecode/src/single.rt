ghost use Rattle.std.specs.Prelude.{◌≡◌};
ghost use Rattle.ante_wtree.specs.Expressions.{cons, Plain};
ghost use Rattle.ante_wdecode.specs.Rules.{ReadsAs};
ghost use Rattle.ante_wdecode.specs.Instructions.{indexed_of, memarg, completes};

use crate::fault::{DecodeKind, Unread, fault};
use crate::items::{number, read_vector, signed32, signed64, this_byte};
use crate::opcodes::{Indexed, Opcode};
use ante_wtree::limits::MOST_BRANCH_TARGETS;
use ante_wtree::{Instr, MemArg, PlainInstr};
use std::alloc::Global;

fn read_memarg(bytes: &[u8]) -> Result<(MemArg, &[u8]), Unread>
    ensures { ReadsAs (λ x. (x.0, x.1.now)) result (memarg.read bytes.now) }
{
    let (align, rest) = number(bytes)?;
    let (offset, rest) = number(rest)?;
    Ok((MemArg { align, offset }, rest))
}

fn indexed_instr(indexed: Indexed, n: u32) -> Instr
    ensures { cons result ≡ Plain (indexed_of indexed n) }
{
    match indexed {
        Indexed::LocalGet => Instr::LocalGet(n),
        Indexed::LocalSet => Instr::LocalSet(n),
        Indexed::LocalTee => Instr::LocalTee(n),
        Indexed::GlobalGet => Instr::GlobalGet(n),
        Indexed::GlobalSet => Instr::GlobalSet(n),
    }
}

fn plain_instr(plain: PlainInstr) -> Instr
    ensures { cons result ≡ Plain plain }
{
    match plain {
        PlainInstr::Unreachable => Instr::Unreachable,
        PlainInstr::Nop => Instr::Nop,
        PlainInstr::Drop => Instr::Drop,
        PlainInstr::Select => Instr::Select,
        PlainInstr::LocalGet(n) => Instr::LocalGet(n),
        PlainInstr::LocalSet(n) => Instr::LocalSet(n),
        PlainInstr::LocalTee(n) => Instr::LocalTee(n),
        PlainInstr::GlobalGet(n) => Instr::GlobalGet(n),
        PlainInstr::GlobalSet(n) => Instr::GlobalSet(n),
        PlainInstr::Load(kind, at) => Instr::Load(kind, at),
        PlainInstr::Store(kind, at) => Instr::Store(kind, at),
        PlainInstr::MemorySize => Instr::MemorySize,
        PlainInstr::I32Const(n) => Instr::I32Const(n),
        PlainInstr::I64Const(n) => Instr::I64Const(n),
        PlainInstr::I32Eqz => Instr::I32Eqz,
        PlainInstr::I32Compare(op) => Instr::I32Compare(op),
        PlainInstr::I64Eqz => Instr::I64Eqz,
        PlainInstr::I64Compare(op) => Instr::I64Compare(op),
        PlainInstr::I32Unary(op) => Instr::I32Unary(op),
        PlainInstr::I32Binary(op) => Instr::I32Binary(op),
        PlainInstr::I64Unary(op) => Instr::I64Unary(op),
        PlainInstr::I64Binary(op) => Instr::I64Binary(op),
        PlainInstr::I32WrapI64 => Instr::I32WrapI64,
        PlainInstr::I64ExtendI32S => Instr::I64ExtendI32S,
        PlainInstr::I64ExtendI32U => Instr::I64ExtendI32U,
    }
}

pub fn rest_of(alloc: Global, opcode: Opcode, bytes: &[u8]) -> Result<(Instr, &[u8]), Unread>
    ensures { ReadsAs (λ x. (cons x.0, x.1.now)) result ((completes opcode).read bytes.now) }
{
    match opcode {
        Opcode::Fixed(plain) => Ok((plain_instr(plain), bytes)),
        Opcode::Indexed(indexed) => {
            let (n, rest) = number(bytes)?;
            Ok((indexed_instr(indexed, n), rest))
        }
        Opcode::Load(kind) => {
            let (at, rest) = read_memarg(bytes)?;
            Ok((Instr::Load(kind, at), rest))
        }
        Opcode::Store(kind) => {
            let (at, rest) = read_memarg(bytes)?;
            Ok((Instr::Store(kind, at), rest))
        }
        Opcode::MemorySize => {
            let rest = this_byte(0x00, bytes)?;
            Ok((Instr::MemorySize, rest))
        }
        Opcode::MemoryGrow => {
            let rest = this_byte(0x00, bytes)?;
            Ok((Instr::MemoryGrow, rest))
        }
        Opcode::I32Const => {
            let (n, rest) = signed32(bytes)?;
            Ok((Instr::I32Const(n), rest))
        }
        Opcode::I64Const => {
            let (n, rest) = signed64(bytes)?;
            Ok((Instr::I64Const(n), rest))
        }
        Opcode::Br => {
            let (label, rest) = number(bytes)?;
            Ok((Instr::Br(label), rest))
        }
        Opcode::BrIf => {
            let (label, rest) = number(bytes)?;
            Ok((Instr::BrIf(label), rest))
        }
        Opcode::BrTable => {
            let (labels, rest) = read_vector(alloc, MOST_BRANCH_TARGETS, bytes)?;
            let (label, rest) = number(rest)?;
            Ok((Instr::BrTable(labels, label), rest))
        }
        Opcode::Return => Ok((Instr::Return, bytes)),
        Opcode::Call => {
            let (function, rest) = number(bytes)?;
            Ok((Instr::Call(function), rest))
        }
        Opcode::CallIndirect => {
            let (kind, rest) = number(bytes)?;
            let rest = this_byte(0x00, rest)?;
            Ok((Instr::CallIndirect(kind), rest))
        }
        Opcode::Block | Opcode::Loop | Opcode::If | Opcode::Else | Opcode::End => {
            Err(fault(bytes, DecodeKind::Form))
        }
    }
}
