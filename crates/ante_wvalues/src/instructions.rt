//! The plain instructions (sections 4.4.1 to 4.4.4).
ghost use Rattle.std.specs.Prelude.{◌≡◌, ◌<◌, ◌==◌, if◌then◌else◌, ℕ, List, length};
ghost use Rattle.ante_wmem.specs.Linear.{LinearMemory};
ghost use Rattle.ante_wmeaning.specs.PlainInstructions.{gives, done, popped};
ghost use Rattle.ante_wvalues.specs.PlainSteps.{values_in, values_of, Tries, TriesPlain, Ready, plain_of};

use crate::data::{Data, extended, low, trap_of};
use crate::values::ValueStack;
use ante_wmeaning::TrapKind;
use ante_wmem::Memory;
use ante_wnum::{
    Binary, Compare, i32_binary, i32_compare, i32_unary, i64_binary, i64_compare, i64_unary,
};
use ante_wtree::{Instr, LoadKind, MemArg, PlainInstr, StoreKind, load_width, store_width};
use std::alloc::Global;

/// What became of an instruction.
#[derive(Clone, Copy)]
pub enum Tried {
    Done,
    Trap(TrapKind),
    /// It isn't plain, or there is no room for its answer.
    Untouched,
}

/// Puts an answer on top of the operands.
#[inline(always)]
fn give(values: &mut ValueStack, answer: u64) -> Tried
    ensures effect { (globals : List ℕ) (memory : LinearMemory) → let old = values_in values.old globals memory in
        Tries (gives old values.old.stack answer) result old (values_in values.new globals memory) }
    ensures below { values.new.below ≡ values.old.below }
{
    match values.push(answer) {
        Ok(()) => Tried::Done,
        Err(_) => Tried::Untouched,
    }
}

/// Puts an answer in place of the topmost operand.
#[inline(always)]
fn give_for_one(values: &mut ValueStack, answer: u64) -> Tried
    requires { 0 < length values.old.stack }
    ensures effect { (globals : List ℕ) (memory : LinearMemory) → let old = values_in values.old globals memory in
        Tries (gives old (popped values.old.stack) answer) result old (values_in values.new globals memory) }
    ensures below { values.new.below ≡ values.old.below }
{
    values.put(answer);
    Tried::Done
}

#[inline(always)]
fn select(values: &mut ValueStack) -> Tried
    requires { 2 < length values.old.stack }
    ensures effect { (globals : List ℕ) (memory : LinearMemory) → let old = values_in values.old globals memory in
        Tries (done PlainInstr.Select old) result old (values_in values.new globals memory) }
    ensures below { values.new.below ≡ values.old.below }
{
    let test = low(values.pop());
    let two = values.pop();
    let one = values.top();
    let chosen = if test == 0 { two } else { one };
    values.put(chosen);
    Tried::Done
}

#[inline(always)]
fn load(values: &mut ValueStack, memory: &Memory, kind: LoadKind, at: MemArg) -> Tried
    requires { 0 < length values.old.stack }
    ensures effect { (globals : List ℕ) → let old = values_in values.old globals memory.now in
        Tries (done (PlainInstr.Load kind at) old) result old (values_in values.new globals memory.now) }
    ensures below { values.new.below ≡ values.old.below }
{
    let address = low(values.top());
    let Ok(bits) = memory.load(address, at.offset, load_width(kind)) else {
        return Tried::Trap(TrapKind::OutOfBounds);
    };
    values.put(extended(kind, bits));
    Tried::Done
}

#[inline(always)]
fn store(values: &mut ValueStack, memory: &mut Memory, kind: StoreKind, at: MemArg) -> Tried
    requires { 1 < length values.old.stack }
    ensures effect { (globals : List ℕ) → let old = values_in values.old globals memory.old in
        Tries (done (PlainInstr.Store kind at) old) result old (values_in values.new globals memory.new) }
    ensures below { values.new.below ≡ values.old.below }
{
    let value = values.pop();
    let address = low(values.pop());
    match memory.store(address, at.offset, store_width(kind), value) {
        Ok(()) => Tried::Done,
        Err(_) => Tried::Trap(TrapKind::OutOfBounds),
    }
}

#[inline(always)]
fn binary_32(values: &mut ValueStack, op: Binary) -> Tried
    requires { 1 < length values.old.stack }
    ensures effect { (globals : List ℕ) (memory : LinearMemory) → let old = values_in values.old globals memory in
        Tries (done (PlainInstr.I32Binary op) old) result old (values_in values.new globals memory) }
    ensures below { values.new.below ≡ values.old.below }
{
    let two = low(values.pop());
    let one = low(values.top());
    match i32_binary(op, one, two) {
        Ok(answer) => {
            values.put(u64::from(answer));
            Tried::Done
        }
        Err(kind) => Tried::Trap(trap_of(kind)),
    }
}

#[inline(always)]
fn binary_64(values: &mut ValueStack, op: Binary) -> Tried
    requires { 1 < length values.old.stack }
    ensures effect { (globals : List ℕ) (memory : LinearMemory) → let old = values_in values.old globals memory in
        Tries (done (PlainInstr.I64Binary op) old) result old (values_in values.new globals memory) }
    ensures below { values.new.below ≡ values.old.below }
{
    let two = values.pop();
    let one = values.top();
    match i64_binary(op, one, two) {
        Ok(answer) => {
            values.put(answer);
            Tried::Done
        }
        Err(kind) => Tried::Trap(trap_of(kind)),
    }
}

#[inline(always)]
fn compare_32(values: &mut ValueStack, op: Compare) -> Tried
    requires { 1 < length values.old.stack }
    ensures effect { (globals : List ℕ) (memory : LinearMemory) → let old = values_in values.old globals memory in
        Tries (done (PlainInstr.I32Compare op) old) result old (values_in values.new globals memory) }
    ensures below { values.new.below ≡ values.old.below }
{
    let two = low(values.pop());
    let one = low(values.top());
    values.put(u64::from(i32_compare(op, one, two)));
    Tried::Done
}

#[inline(always)]
fn compare_64(values: &mut ValueStack, op: Compare) -> Tried
    requires { 1 < length values.old.stack }
    ensures effect { (globals : List ℕ) (memory : LinearMemory) → let old = values_in values.old globals memory in
        Tries (done (PlainInstr.I64Compare op) old) result old (values_in values.new globals memory) }
    ensures below { values.new.below ≡ values.old.below }
{
    let two = values.pop();
    let one = values.top();
    values.put(u64::from(i64_compare(op, one, two)));
    Tried::Done
}

#[inline(always)]
fn zero_test(value: u64) -> u64
    ensures { result ≡ (if value == 0 then 1 else 0) }
{
    u64::from(value == 0)
}

/// Executes a plain instruction; where there is no room for its answer, or the instruction isn't plain, nothing is done.
#[inline(always)]
pub fn plain(
    values: &mut ValueStack,
    globals: &mut Vec<u64>,
    memory: &mut Memory,
    instr: &Instr,
) -> Tried
    requires ready { Ready (plain_of instr.now) (values_in values.old globals.old.items memory.old) }
    ensures effect { TriesPlain (plain_of instr.now) result
        (values_in values.old globals.old.items memory.old) (values_in values.new globals.new.items memory.new) }
    ensures below { values.new.below ≡ values.old.below }
{
    match instr {
        Instr::LocalGet(n) => {
            let value = values.local(*n);
            give(values, value)
        }
        Instr::LocalSet(n) => {
            let value = values.pop();
            values.set_local(*n, value);
            Tried::Done
        }
        Instr::LocalTee(n) => {
            let value = values.top();
            values.set_local(*n, value);
            Tried::Done
        }
        Instr::I32Binary(op) => binary_32(values, *op),
        Instr::I64Binary(op) => binary_64(values, *op),
        Instr::I32Compare(op) => compare_32(values, *op),
        Instr::I64Compare(op) => compare_64(values, *op),
        Instr::Load(kind, at) => load(values, memory, *kind, *at),
        Instr::Store(kind, at) => store(values, memory, *kind, *at),
        Instr::Unreachable => Tried::Trap(TrapKind::Unreachable),
        Instr::I32Const(n) => give(values, u64::from(*n)),
        Instr::I64Const(n) => give(values, *n),
        Instr::GlobalGet(n) => {
            let value = globals[*n as usize];
            give(values, value)
        }
        Instr::GlobalSet(n) => {
            let value = values.pop();
            globals[*n as usize] = value;
            Tried::Done
        }
        Instr::MemorySize => {
            let pages = memory.pages();
            give(values, u64::from(pages))
        }
        Instr::Drop => {
            let _ = values.pop();
            Tried::Done
        }
        Instr::Select => select(values),
        Instr::Nop => Tried::Done,
        Instr::I32Eqz => {
            let operand = low(values.top());
            give_for_one(values, zero_test(u64::from(operand)))
        }
        Instr::I64Eqz => {
            let operand = values.top();
            give_for_one(values, zero_test(operand))
        }
        Instr::I32Unary(op) => {
            let operand = low(values.top());
            give_for_one(values, u64::from(i32_unary(*op, operand)))
        }
        Instr::I64Unary(op) => {
            let operand = values.top();
            give_for_one(values, i64_unary(*op, operand))
        }
        Instr::I64ExtendI32S => {
            let operand = low(values.top());
            give_for_one(values, extended(LoadKind::I64S32, u64::from(operand)))
        }
        Instr::I32WrapI64 | Instr::I64ExtendI32U => {
            let operand = low(values.top());
            give_for_one(values, u64::from(operand))
        }
        Instr::Block(..)
        | Instr::Loop(..)
        | Instr::If(..)
        | Instr::Br(_)
        | Instr::BrIf(_)
        | Instr::BrTable(..)
        | Instr::Return
        | Instr::Call(_)
        | Instr::CallIndirect(_)
        | Instr::MemoryGrow => Tried::Untouched,
    }
}

/// The same, where room is made first.
#[inline(never)]
pub fn plain_with_room(state: &mut Data, alloc: Global, instr: &Instr) -> Tried
    requires ready { Ready (plain_of instr.now) (values_of state.old) }
    ensures effect { TriesPlain (plain_of instr.now) result (values_of state.old) (values_of state.new) }
    ensures below { state.new.values.below ≡ state.old.values.below }
{
    if state.values.make_room(alloc).is_err() {
        return Tried::Untouched;
    }
    plain(
        &mut state.values,
        &mut state.globals,
        &mut state.memory,
        instr,
    )
}
