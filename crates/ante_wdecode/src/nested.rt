ghost use Rattle.std.specs.Prelude.{◌≡◌, ℕ, ◌<◌, ◌≤◌, length};
ghost use Rattle.ante_wtree.specs.Expressions.{cons, expression_of, If};
ghost use Rattle.ante_wdecode.specs.Rules.{ReadsAs, among};
ghost use Rattle.ante_wdecode.specs.Instructions.{block_types, block_type};
ghost use Rattle.ante_wdecode.specs.NestedInstructions.{Sequence, body_at, block_within, if_within, item_at, item_of, inside, seq_at, block_of, expression};

use crate::fault::{DecodeKind, Unread, ended, fault};
use crate::opcodes::{Opcode, not_a_kind, read_opcode};
use crate::single::rest_of;
use ante_wtree::{Instr, ValueKind};
use std::alloc::Global;

/// An instruction, or what ends a sequence.
#[derive(Drop)]
pub enum Part {
    Ends(bool),
    One(Instr),
}

fn block_type_of(byte: u8) -> Option<Option<ValueKind>>
    ensures { result ≡ among block_types byte }
{
    match byte {
        0x40 => Some(None),
        0x7F => Some(Some(ValueKind::I32)),
        0x7E => Some(Some(ValueKind::I64)),
        _ => None,
    }
}

fn result_kind(bytes: &[u8]) -> Result<(Option<ValueKind>, &[u8]), Unread>
    ensures { ReadsAs (λ x. (x.0, x.1.now)) result (block_type.read bytes.now) }
{
    let Some((first, rest)) = bytes.split_first() else {
        return Err(ended(bytes));
    };
    match block_type_of(*first) {
        Some(kind) => Ok((kind, rest)),
        None => Err(fault(bytes, not_a_kind(*first))),
    }
}

#[cycle(sequence)]
fn sequence(alloc: Global, depth: u32, bytes: &[u8]) -> Result<(Vec<Instr>, bool, &[u8]), Unread>
    ensures { (n : ℕ) → length bytes.now < n → ReadsAs {Y = Sequence} (λ x. (expression_of x.0.items, x.1, x.2.now)) result (seq_at n depth bytes.now) }
{
    let mut front = Vec::new(alloc);
    let mut rest = bytes;
    'items: loop {
        let (part, after) = next_part(alloc, depth, rest)?;
        match part {
            Part::Ends(by_else) => return Ok((front, by_else, after)),
            Part::One(instr) => {
                front.push(instr)?;
                rest = after;
            }
        }
    }
}

#[cycle(sequence)]
fn body(alloc: Global, depth: u32, bytes: &[u8]) -> Result<(Vec<Instr>, &[u8]), Unread>
    ensures { (n : ℕ) → length bytes.now < n → ReadsAs (λ x. (expression_of x.0.items, x.1.now)) result (body_at (seq_at n depth) bytes.now) }
{
    let (body, by_else, rest) = sequence(alloc, depth, bytes)?;
    if by_else {
        return Err(Unread::Fault {
            left: rest.len() + 1,
            kind: DecodeKind::Form,
        });
    }
    Ok((body, rest))
}

fn block_instr(looped: bool, kind: Option<ValueKind>, body: Vec<Instr>) -> Instr
    ensures { cons result ≡ block_of looped kind (expression_of body.items) }
{
    if looped {
        Instr::Loop(kind, body)
    } else {
        Instr::Block(kind, body)
    }
}

fn if_instr(kind: Option<ValueKind>, one: Vec<Instr>, two: Vec<Instr>) -> Instr
    ensures { cons result ≡ If kind (expression_of one.items) (expression_of two.items) }
{
    Instr::If(kind, one, two)
}

#[cycle(sequence)]
fn block(alloc: Global, depth: u32, looped: bool, bytes: &[u8]) -> Result<(Instr, &[u8]), Unread>
    ensures { (n : ℕ) → length bytes.now < n → ReadsAs (λ x. (cons x.0, x.1.now)) result (block_within looped n depth bytes.now) }
{
    if depth == 0 {
        return Err(Unread::Fault {
            left: bytes.len() + 1,
            kind: DecodeKind::Limit,
        });
    }
    let (kind, rest) = result_kind(bytes)?;
    let (body, rest) = body(alloc, depth - 1, rest)?;
    Ok((block_instr(looped, kind, body), rest))
}

#[cycle(sequence)]
fn choice(alloc: Global, depth: u32, bytes: &[u8]) -> Result<(Instr, &[u8]), Unread>
    ensures { (n : ℕ) → length bytes.now < n → ReadsAs (λ x. (cons x.0, x.1.now)) result (if_within n depth bytes.now) }
{
    if depth == 0 {
        return Err(Unread::Fault {
            left: bytes.len() + 1,
            kind: DecodeKind::Limit,
        });
    }
    let (kind, rest) = result_kind(bytes)?;
    let (one, by_else, rest) = sequence(alloc, depth - 1, rest)?;
    if !by_else {
        return Ok((if_instr(kind, one, Vec::new(alloc)), rest));
    }
    let (two, rest) = body(alloc, depth - 1, rest)?;
    Ok((if_instr(kind, one, two), rest))
}

#[cycle(sequence)]
fn next_part(alloc: Global, depth: u32, bytes: &[u8]) -> Result<(Part, &[u8]), Unread>
    ensures { (n : ℕ) → length bytes.now ≤ n → ReadsAs (λ x. (item_of x.0, x.1.now)) result (item_at depth (inside (seq_at n) depth) bytes.now) }
{
    let (opcode, rest) = read_opcode(bytes)?;
    match opcode {
        Opcode::Else => Ok((Part::Ends(true), rest)),
        Opcode::End => Ok((Part::Ends(false), rest)),
        Opcode::Block => {
            let (instr, rest) = block(alloc, depth, false, rest)?;
            Ok((Part::One(instr), rest))
        }
        Opcode::Loop => {
            let (instr, rest) = block(alloc, depth, true, rest)?;
            Ok((Part::One(instr), rest))
        }
        Opcode::If => {
            let (instr, rest) = choice(alloc, depth, rest)?;
            Ok((Part::One(instr), rest))
        }
        other => {
            let (instr, rest) = rest_of(alloc, other, rest)?;
            Ok((Part::One(instr), rest))
        }
    }
}

/// An expression (section 5.4.6) in which blocks are nested `depth` deep at most.
pub fn read_expression(
    alloc: Global,
    depth: u32,
    bytes: &[u8],
) -> Result<(Vec<Instr>, &[u8]), Unread>
    ensures { ReadsAs (λ x. (expression_of x.0.items, x.1.now)) result ((expression depth).read bytes.now) }
{
    match body(alloc, depth, bytes) {
        Ok((body, rest)) => Ok((body, rest)),
        Err(why) => Err(why),
    }
}
