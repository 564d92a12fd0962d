ghost use Rattle.std.specs.Prelude.{◌≡◌};
ghost use Rattle.ante_wdecode.specs.Rules.{ReadsAs, among};
ghost use Rattle.ante_wdecode.specs.Opcodes.{opcodes, memory, comparisons, i32_numbers, i64_numbers, is_between, is_float, no_opcode, an_opcode, no_kind};

use crate::fault::{DecodeKind, Unread, ended, fault};
use ante_wnum::{Binary, Compare, Unary};
use ante_wtree::{LoadKind, PlainInstr, StoreKind};

/// The instructions with the number of a local or a global.
#[derive(Clone, Copy)]
pub enum Indexed {
    LocalGet,
    LocalSet,
    LocalTee,
    GlobalGet,
    GlobalSet,
}

/// What an opcode begins (sections 5.4.1 to 5.4.5).
#[derive(Clone, Copy)]
pub enum Opcode {
    /// The opcode is all of the instruction.
    Fixed(PlainInstr),
    Indexed(Indexed),
    Load(LoadKind),
    Store(StoreKind),
    MemorySize,
    MemoryGrow,
    I32Const,
    I64Const,
    Br,
    BrIf,
    BrTable,
    Return,
    Call,
    CallIndirect,
    Block,
    Loop,
    If,
    Else,
    End,
}

/// What the byte begins, where it is an opcode of the profile.
pub fn opcode_of(byte: u8) -> Option<Opcode>
    ensures { result ≡ among opcodes byte }
{
    match byte {
        0x00 => Some(Opcode::Fixed(PlainInstr::Unreachable)),
        0x01 => Some(Opcode::Fixed(PlainInstr::Nop)),
        0x02 => Some(Opcode::Block),
        0x03 => Some(Opcode::Loop),
        0x04 => Some(Opcode::If),
        0x05 => Some(Opcode::Else),
        0x0B => Some(Opcode::End),
        0x0C => Some(Opcode::Br),
        0x0D => Some(Opcode::BrIf),
        0x0E => Some(Opcode::BrTable),
        0x0F => Some(Opcode::Return),
        0x10 => Some(Opcode::Call),
        0x11 => Some(Opcode::CallIndirect),
        0x1A => Some(Opcode::Fixed(PlainInstr::Drop)),
        0x1B => Some(Opcode::Fixed(PlainInstr::Select)),
        0x20 => Some(Opcode::Indexed(Indexed::LocalGet)),
        0x21 => Some(Opcode::Indexed(Indexed::LocalSet)),
        0x22 => Some(Opcode::Indexed(Indexed::LocalTee)),
        0x23 => Some(Opcode::Indexed(Indexed::GlobalGet)),
        0x24 => Some(Opcode::Indexed(Indexed::GlobalSet)),
        _ => opcode_of_memory(byte),
    }
}

fn opcode_of_memory(byte: u8) -> Option<Opcode>
    ensures { result ≡ among memory byte }
{
    match byte {
        0x28 => Some(Opcode::Load(LoadKind::I32)),
        0x29 => Some(Opcode::Load(LoadKind::I64)),
        0x2C => Some(Opcode::Load(LoadKind::I32S8)),
        0x2D => Some(Opcode::Load(LoadKind::I32U8)),
        0x2E => Some(Opcode::Load(LoadKind::I32S16)),
        0x2F => Some(Opcode::Load(LoadKind::I32U16)),
        0x30 => Some(Opcode::Load(LoadKind::I64S8)),
        0x31 => Some(Opcode::Load(LoadKind::I64U8)),
        0x32 => Some(Opcode::Load(LoadKind::I64S16)),
        0x33 => Some(Opcode::Load(LoadKind::I64U16)),
        0x34 => Some(Opcode::Load(LoadKind::I64S32)),
        0x35 => Some(Opcode::Load(LoadKind::I64U32)),
        0x36 => Some(Opcode::Store(StoreKind::I32)),
        0x37 => Some(Opcode::Store(StoreKind::I64)),
        0x3A => Some(Opcode::Store(StoreKind::I32As8)),
        0x3B => Some(Opcode::Store(StoreKind::I32As16)),
        0x3C => Some(Opcode::Store(StoreKind::I64As8)),
        0x3D => Some(Opcode::Store(StoreKind::I64As16)),
        0x3E => Some(Opcode::Store(StoreKind::I64As32)),
        0x3F => Some(Opcode::MemorySize),
        0x40 => Some(Opcode::MemoryGrow),
        0x41 => Some(Opcode::I32Const),
        0x42 => Some(Opcode::I64Const),
        _ => opcode_of_comparisons(byte),
    }
}

fn opcode_of_comparisons(byte: u8) -> Option<Opcode>
    ensures { result ≡ among comparisons byte }
{
    match byte {
        0x45 => Some(Opcode::Fixed(PlainInstr::I32Eqz)),
        0x46 => Some(Opcode::Fixed(PlainInstr::I32Compare(Compare::Eq))),
        0x47 => Some(Opcode::Fixed(PlainInstr::I32Compare(Compare::Ne))),
        0x48 => Some(Opcode::Fixed(PlainInstr::I32Compare(Compare::LtS))),
        0x49 => Some(Opcode::Fixed(PlainInstr::I32Compare(Compare::LtU))),
        0x4A => Some(Opcode::Fixed(PlainInstr::I32Compare(Compare::GtS))),
        0x4B => Some(Opcode::Fixed(PlainInstr::I32Compare(Compare::GtU))),
        0x4C => Some(Opcode::Fixed(PlainInstr::I32Compare(Compare::LeS))),
        0x4D => Some(Opcode::Fixed(PlainInstr::I32Compare(Compare::LeU))),
        0x4E => Some(Opcode::Fixed(PlainInstr::I32Compare(Compare::GeS))),
        0x4F => Some(Opcode::Fixed(PlainInstr::I32Compare(Compare::GeU))),
        0x50 => Some(Opcode::Fixed(PlainInstr::I64Eqz)),
        0x51 => Some(Opcode::Fixed(PlainInstr::I64Compare(Compare::Eq))),
        0x52 => Some(Opcode::Fixed(PlainInstr::I64Compare(Compare::Ne))),
        0x53 => Some(Opcode::Fixed(PlainInstr::I64Compare(Compare::LtS))),
        0x54 => Some(Opcode::Fixed(PlainInstr::I64Compare(Compare::LtU))),
        0x55 => Some(Opcode::Fixed(PlainInstr::I64Compare(Compare::GtS))),
        0x56 => Some(Opcode::Fixed(PlainInstr::I64Compare(Compare::GtU))),
        0x57 => Some(Opcode::Fixed(PlainInstr::I64Compare(Compare::LeS))),
        0x58 => Some(Opcode::Fixed(PlainInstr::I64Compare(Compare::LeU))),
        0x59 => Some(Opcode::Fixed(PlainInstr::I64Compare(Compare::GeS))),
        0x5A => Some(Opcode::Fixed(PlainInstr::I64Compare(Compare::GeU))),
        _ => opcode_of_i32_numbers(byte),
    }
}

fn opcode_of_i32_numbers(byte: u8) -> Option<Opcode>
    ensures { result ≡ among i32_numbers byte }
{
    match byte {
        0x67 => Some(Opcode::Fixed(PlainInstr::I32Unary(Unary::Clz))),
        0x68 => Some(Opcode::Fixed(PlainInstr::I32Unary(Unary::Ctz))),
        0x69 => Some(Opcode::Fixed(PlainInstr::I32Unary(Unary::Popcnt))),
        0x6A => Some(Opcode::Fixed(PlainInstr::I32Binary(Binary::Add))),
        0x6B => Some(Opcode::Fixed(PlainInstr::I32Binary(Binary::Sub))),
        0x6C => Some(Opcode::Fixed(PlainInstr::I32Binary(Binary::Mul))),
        0x6D => Some(Opcode::Fixed(PlainInstr::I32Binary(Binary::DivS))),
        0x6E => Some(Opcode::Fixed(PlainInstr::I32Binary(Binary::DivU))),
        0x6F => Some(Opcode::Fixed(PlainInstr::I32Binary(Binary::RemS))),
        0x70 => Some(Opcode::Fixed(PlainInstr::I32Binary(Binary::RemU))),
        0x71 => Some(Opcode::Fixed(PlainInstr::I32Binary(Binary::And))),
        0x72 => Some(Opcode::Fixed(PlainInstr::I32Binary(Binary::Or))),
        0x73 => Some(Opcode::Fixed(PlainInstr::I32Binary(Binary::Xor))),
        0x74 => Some(Opcode::Fixed(PlainInstr::I32Binary(Binary::Shl))),
        0x75 => Some(Opcode::Fixed(PlainInstr::I32Binary(Binary::ShrS))),
        0x76 => Some(Opcode::Fixed(PlainInstr::I32Binary(Binary::ShrU))),
        0x77 => Some(Opcode::Fixed(PlainInstr::I32Binary(Binary::Rotl))),
        0x78 => Some(Opcode::Fixed(PlainInstr::I32Binary(Binary::Rotr))),
        _ => opcode_of_i64_numbers(byte),
    }
}

fn opcode_of_i64_numbers(byte: u8) -> Option<Opcode>
    ensures { result ≡ among i64_numbers byte }
{
    match byte {
        0x79 => Some(Opcode::Fixed(PlainInstr::I64Unary(Unary::Clz))),
        0x7A => Some(Opcode::Fixed(PlainInstr::I64Unary(Unary::Ctz))),
        0x7B => Some(Opcode::Fixed(PlainInstr::I64Unary(Unary::Popcnt))),
        0x7C => Some(Opcode::Fixed(PlainInstr::I64Binary(Binary::Add))),
        0x7D => Some(Opcode::Fixed(PlainInstr::I64Binary(Binary::Sub))),
        0x7E => Some(Opcode::Fixed(PlainInstr::I64Binary(Binary::Mul))),
        0x7F => Some(Opcode::Fixed(PlainInstr::I64Binary(Binary::DivS))),
        0x80 => Some(Opcode::Fixed(PlainInstr::I64Binary(Binary::DivU))),
        0x81 => Some(Opcode::Fixed(PlainInstr::I64Binary(Binary::RemS))),
        0x82 => Some(Opcode::Fixed(PlainInstr::I64Binary(Binary::RemU))),
        0x83 => Some(Opcode::Fixed(PlainInstr::I64Binary(Binary::And))),
        0x84 => Some(Opcode::Fixed(PlainInstr::I64Binary(Binary::Or))),
        0x85 => Some(Opcode::Fixed(PlainInstr::I64Binary(Binary::Xor))),
        0x86 => Some(Opcode::Fixed(PlainInstr::I64Binary(Binary::Shl))),
        0x87 => Some(Opcode::Fixed(PlainInstr::I64Binary(Binary::ShrS))),
        0x88 => Some(Opcode::Fixed(PlainInstr::I64Binary(Binary::ShrU))),
        0x89 => Some(Opcode::Fixed(PlainInstr::I64Binary(Binary::Rotl))),
        0x8A => Some(Opcode::Fixed(PlainInstr::I64Binary(Binary::Rotr))),
        0xA7 => Some(Opcode::Fixed(PlainInstr::I32WrapI64)),
        0xAC => Some(Opcode::Fixed(PlainInstr::I64ExtendI32S)),
        0xAD => Some(Opcode::Fixed(PlainInstr::I64ExtendI32U)),
        _ => None,
    }
}

fn is_within(low: u8, high: u8, byte: u8) -> bool
    ensures { result ≡ is_between low high byte }
{
    low <= byte && byte <= high
}

fn is_float_opcode(byte: u8) -> bool
    ensures { result ≡ is_float byte }
{
    is_within(0x2A, 0x2B, byte)
        || is_within(0x38, 0x39, byte)
        || is_within(0x43, 0x44, byte)
        || is_within(0x5B, 0x66, byte)
        || is_within(0x8B, 0xA6, byte)
        || is_within(0xA8, 0xAB, byte)
        || is_within(0xAE, 0xBF, byte)
}

fn not_an_opcode(byte: u8) -> DecodeKind
    ensures { result ≡ no_opcode byte }
{
    if is_float_opcode(byte) {
        DecodeKind::Float
    } else {
        DecodeKind::Opcode
    }
}

/// What is wrong with a byte that is no kind of values.
pub fn not_a_kind(byte: u8) -> DecodeKind
    ensures { result ≡ no_kind byte }
{
    if is_within(0x7C, 0x7D, byte) {
        DecodeKind::Float
    } else {
        DecodeKind::Form
    }
}

pub fn read_opcode(bytes: &[u8]) -> Result<(Opcode, &[u8]), Unread>
    ensures { ReadsAs (λ x. (x.0, x.1.now)) result (an_opcode.read bytes.now) }
{
    let Some((first, rest)) = bytes.split_first() else {
        return Err(ended(bytes));
    };
    match opcode_of(*first) {
        Some(opcode) => Ok((opcode, rest)),
        None => Err(fault(bytes, not_an_opcode(*first))),
    }
}
