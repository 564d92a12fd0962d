ghost use Rattle.std.specs.Prelude.{◌≡◌, ◌&&◌, List, ◌∷◌, ◌++◌, Option, Some, nat_le, slice_get};
ghost use Rattle.ante_wtree.specs.declared.instructions.ValueKind.TheVariants.{I32};
ghost use Rattle.std.specs.Option.{option_copied};
ghost use Rattle.ante_wtree.specs.Accesses.{load_exponent, load_result, store_exponent, store_operand};
ghost use Rattle.ante_wtree.specs.Types.{kinds_of};
ghost use Rattle.ante_wvalid.specs.Typing.{type_of, only_if, type_numbered};
ghost use Rattle.ante_wvalid.specs.OperandStacks.{context_in, type_in};

use ante_wtree::{
    FuncType, Global, LoadKind, PlainInstr, StoreKind, ValueKind, exponent, load_result,
    load_width, store_operand, store_width,
};

const I: ValueKind = ValueKind::I32;

const L: ValueKind = ValueKind::I64;

/// What a body is typed in, but for its labels.
#[derive(Clone, Copy)]
pub struct Scope<'a> {
    pub types: &'a [FuncType],
    pub functions: &'a [u32],
    pub table: bool,
    pub memory: bool,
    pub globals: &'a [Global],
    pub params: &'a [ValueKind],
    pub locals: &'a [ValueKind],
    pub result: Option<ValueKind>,
}

/// The type of a plain instruction.
#[derive(Clone, Copy)]
pub enum Signature {
    Fixed(&'static [ValueKind], &'static [ValueKind]),
    Drops,
    Selects,
    Unbounded,
    Untyped,
}

pub fn one(kind: ValueKind) -> &'static [ValueKind]
    ensures { result.now ≡ kinds_of (Some kind) }
{
    match kind {
        ValueKind::I32 => &[ValueKind::I32],
        ValueKind::I64 => &[ValueKind::I64],
    }
}

pub fn kinds(kind: Option<ValueKind>) -> &'static [ValueKind]
    ensures { result.now ≡ kinds_of kind }
{
    match kind {
        None => &[],
        Some(kind) => one(kind),
    }
}

/// What a load gives, and the most that it may be aligned to, as an exponent.
fn loaded(kind: LoadKind) -> (ValueKind, u32)
    ensures { result ≡ (load_result kind, load_exponent kind) }
{
    (load_result(kind), exponent(load_width(kind)))
}

/// What a store takes, and the most that it may be aligned to, as an exponent.
fn stored(kind: StoreKind) -> (ValueKind, u32)
    ensures { result ≡ (store_operand kind, store_exponent kind) }
{
    (store_operand(kind), exponent(store_width(kind)))
}

/// What a store takes: an address, and a value on top of it.
fn address_and(kind: ValueKind) -> &'static [ValueKind]
    ensures { result.now ≡ I32 ∷ kinds_of (Some kind) }
{
    match kind {
        ValueKind::I32 => &[ValueKind::I32, ValueKind::I32],
        ValueKind::I64 => &[ValueKind::I32, ValueKind::I64],
    }
}

fn only_if(holds: bool, signature: Signature) -> Signature
    ensures { type_in result ≡ only_if holds (type_in signature) }
{
    if holds { signature } else { Signature::Untyped }
}

fn aligned(memory: bool, align: u32, exponent: u32) -> bool
    ensures { result ≡ (memory && nat_le align exponent) }
{
    memory && align <= exponent
}

/// The type of this number.
pub fn numbered(types: &[FuncType], number: u32) -> Option<&FuncType>
    ensures { option_copied result ≡ slice_get types.now number }
{
    types.get(number as usize)
}

/// The type of a function.
pub fn function_type<'a>(types: &'a [FuncType], functions: &[u32], f: u32) -> Option<&'a FuncType>
    ensures { option_copied result ≡ type_numbered types.now (slice_get functions.now f) }
{
    match functions.get(f as usize).copied() {
        Some(number) => numbered(types, number),
        None => None,
    }
}

impl<'a> Scope<'a> {
    fn local(&self, n: u32) -> Option<ValueKind>
        ensures { result ≡ slice_get (self.now.params.now ++ self.now.locals.now) n }
    {
        let at = n as usize;
        let count = self.params.len();
        if at < count {
            return self.params.get(at).copied();
        }
        self.locals.get(at - count).copied()
    }

    fn global(&self, n: u32) -> Option<Global>
        ensures { result ≡ slice_get self.now.globals.now n }
    {
        self.globals.get(n as usize).copied()
    }

    pub fn signature(&self, instr: PlainInstr) -> Signature
        ensures { (labels : List (Option ValueKind)) → type_in result ≡ type_of (context_in self.now labels) instr }
    {
        match instr {
            PlainInstr::Unreachable => Signature::Unbounded,
            PlainInstr::Nop => Signature::Fixed(&[], &[]),
            PlainInstr::Drop => Signature::Drops,
            PlainInstr::Select => Signature::Selects,
            PlainInstr::LocalGet(n) => match self.local(n) {
                Some(kind) => Signature::Fixed(&[], one(kind)),
                None => Signature::Untyped,
            },
            PlainInstr::LocalSet(n) => match self.local(n) {
                Some(kind) => Signature::Fixed(one(kind), &[]),
                None => Signature::Untyped,
            },
            PlainInstr::LocalTee(n) => match self.local(n) {
                Some(kind) => Signature::Fixed(one(kind), one(kind)),
                None => Signature::Untyped,
            },
            PlainInstr::GlobalGet(n) => match self.global(n) {
                Some(global) => Signature::Fixed(&[], one(global.kind)),
                None => Signature::Untyped,
            },
            PlainInstr::GlobalSet(n) => match self.global(n) {
                Some(global) => only_if(global.changes, Signature::Fixed(one(global.kind), &[])),
                None => Signature::Untyped,
            },
            PlainInstr::Load(kind, at) => {
                let (gives, exponent) = loaded(kind);
                only_if(
                    aligned(self.memory, at.align, exponent),
                    Signature::Fixed(&[ValueKind::I32], one(gives)),
                )
            }
            PlainInstr::Store(kind, at) => {
                let (takes, exponent) = stored(kind);
                only_if(
                    aligned(self.memory, at.align, exponent),
                    Signature::Fixed(address_and(takes), &[]),
                )
            }
            PlainInstr::MemorySize => {
                only_if(self.memory, Signature::Fixed(&[], &[ValueKind::I32]))
            }
            PlainInstr::I32Const(_) => Signature::Fixed(&[], &[I]),
            PlainInstr::I64Const(_) => Signature::Fixed(&[], &[L]),
            PlainInstr::I32Eqz | PlainInstr::I32Unary(_) => Signature::Fixed(&[I], &[I]),
            PlainInstr::I32Compare(_) | PlainInstr::I32Binary(_) => {
                Signature::Fixed(&[I, I], &[I])
            }
            PlainInstr::I64Eqz | PlainInstr::I32WrapI64 => Signature::Fixed(&[L], &[I]),
            PlainInstr::I64Compare(_) => Signature::Fixed(&[L, L], &[I]),
            PlainInstr::I64Unary(_) => Signature::Fixed(&[L], &[L]),
            PlainInstr::I64Binary(_) => Signature::Fixed(&[L, L], &[L]),
            PlainInstr::I64ExtendI32S | PlainInstr::I64ExtendI32U => {
                Signature::Fixed(&[I], &[L])
            }
        }
    }
}
