use ante_pack::Seq;
use ante_wnum::{Binary, Compare, Unary};

/// A value's kind; this profile has no floating-point values (section 2.3.1).
#[derive(Clone, Copy, PartialEq, Eq, Debug)]
pub enum ValueKind {
    I32,
    I64,
}

/// A load: the kind of its result, and for a narrow one the bits that are read and how they are extended.
#[derive(Clone, Copy, PartialEq, Eq, Debug)]
pub enum LoadKind {
    I32,
    I64,
    I32S8,
    I32U8,
    I32S16,
    I32U16,
    I64S8,
    I64U8,
    I64S16,
    I64U16,
    I64S32,
    I64U32,
}

/// A store: the kind of its operand, and for a narrow one the bits that are written.
#[derive(Clone, Copy, PartialEq, Eq, Debug)]
pub enum StoreKind {
    I32,
    I64,
    I32As8,
    I32As16,
    I64As8,
    I64As16,
    I64As32,
}

/// The alignment, as the exponent of a power of two, and the offset in bytes (section 2.4.4).
#[derive(Clone, Copy, PartialEq, Eq, Debug)]
pub struct MemArg {
    pub align: u32,
    pub offset: u32,
}

/// An instruction of the profile (section 2.4). Numbers of locals, globals, functions, types and labels are the
/// standard's.
#[derive(Debug, Drop)]
pub enum Instr {
    Unreachable,
    Nop,
    /// The kind of the result, where there is one, and the body.
    Block(Option<ValueKind>, Vec<Instr>),
    Loop(Option<ValueKind>, Vec<Instr>),
    /// What is run where the operand isn't 0, and what is run where it is.
    If(Option<ValueKind>, Vec<Instr>, Vec<Instr>),
    Br(u32),
    BrIf(u32),
    /// The labels, and the one for every other operand.
    BrTable(Seq<u32>, u32),
    Return,
    Call(u32),
    /// By the number of the type.
    CallIndirect(u32),
    Drop,
    Select,
    LocalGet(u32),
    LocalSet(u32),
    LocalTee(u32),
    GlobalGet(u32),
    GlobalSet(u32),
    Load(LoadKind, MemArg),
    Store(StoreKind, MemArg),
    MemorySize,
    MemoryGrow,
    /// The 32 bits of the constant.
    I32Const(u32),
    /// The 64 bits of the constant.
    I64Const(u64),
    I32Eqz,
    I32Compare(Compare),
    I64Eqz,
    I64Compare(Compare),
    I32Unary(Unary),
    I32Binary(Binary),
    I64Unary(Unary),
    I64Binary(Binary),
    I32WrapI64,
    I64ExtendI32S,
    I64ExtendI32U,
}

/// The instructions that touch only operands, locals, globals and the bytes of the memory: all but those that hold
/// others, jump, call or make the memory grow.
#[derive(Clone, Copy, Debug)]
pub enum PlainInstr {
    Unreachable,
    Nop,
    Drop,
    Select,
    LocalGet(u32),
    LocalSet(u32),
    LocalTee(u32),
    GlobalGet(u32),
    GlobalSet(u32),
    Load(LoadKind, MemArg),
    Store(StoreKind, MemArg),
    MemorySize,
    I32Const(u32),
    I64Const(u64),
    I32Eqz,
    I32Compare(Compare),
    I64Eqz,
    I64Compare(Compare),
    I32Unary(Unary),
    I32Binary(Binary),
    I64Unary(Unary),
    I64Binary(Binary),
    I32WrapI64,
    I64ExtendI32S,
    I64ExtendI32U,
}
