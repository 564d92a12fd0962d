ghost use Rattle.std.specs.Prelude.{◌≡◌, List, ℕ, Bool};
ghost use Rattle.std.specs.Str.{is_utf8};
ghost use Rattle.ante_wdecode.specs.Rules.{ReadsAs, among, raw, items};
ghost use Rattle.ante_wdecode.specs.Opcodes.{value_types, value_type};
ghost use Rattle.ante_wdecode.specs.Instructions.{vector};
ghost use Rattle.ante_wdecode.specs.Modules.{any, name, func_type, flags, flag, limits_of, limits, sized_type};

use crate::fault::{DecodeKind, Unread, ended, fault};
use crate::items::{Item, limited_number, number, read_vector, this_byte};
use crate::opcodes::not_a_kind;
use ante_pack::{Bytes, Seq};
use ante_wtree::limits::{MOST_PARAMS, MOST_TABLE_ELEMENTS};
use ante_wtree::{FuncType, Limits, ValueKind};
use std::alloc::Global;

/// As many as a u32 can say.
pub const ANY: u32 = 0xFFFF_FFFF;

pub fn raw_bytes(count: u32, bytes: &[u8]) -> Result<(&[u8], &[u8]), Unread>
    ensures { ReadsAs (λ x. (x.0.now, x.1.now)) result ((raw count).read bytes.now) }
{
    let count = count as usize;
    if bytes.len() < count {
        return Err(ended(bytes));
    }
    Ok(bytes.split_at(count))
}

fn is_text(bytes: &[u8]) -> bool
    ensures { result ≡ is_utf8 bytes.now }
{
    match str::from_utf8(bytes) {
        Ok(_) => true,
        Err(_) => false,
    }
}

pub fn name_bytes(bytes: &[u8]) -> Result<(&[u8], &[u8]), Unread>
    ensures { ReadsAs (λ x. (x.0.now, x.1.now)) result (name.read bytes.now) }
{
    let (length, rest) = number(bytes)?;
    let (text, after) = raw_bytes(length, rest)?;
    if is_text(text) {
        Ok((text, after))
    } else {
        Err(fault(rest, DecodeKind::Utf8))
    }
}

pub fn read_name(alloc: Global, bytes: &[u8]) -> Result<(Bytes, &[u8]), Unread>
    ensures { ReadsAs (λ x. (x.0, x.1.now)) result (name.read bytes.now) }
{
    let (text, rest) = name_bytes(bytes)?;
    let text = Bytes::from_slice(alloc, text)?;
    Ok((text, rest))
}

fn value_kind_of(byte: u8) -> Option<ValueKind>
    ensures { result ≡ among value_types byte }
{
    match byte {
        0x7F => Some(ValueKind::I32),
        0x7E => Some(ValueKind::I64),
        _ => None,
    }
}

pub fn read_kind(bytes: &[u8]) -> Result<(ValueKind, &[u8]), Unread>
    ensures { ReadsAs (λ x. (x.0, x.1.now)) result (value_type.read bytes.now) }
{
    let Some((first, rest)) = bytes.split_first() else {
        return Err(ended(bytes));
    };
    match value_kind_of(*first) {
        Some(kind) => Ok((kind, rest)),
        None => Err(fault(bytes, not_a_kind(*first))),
    }
}

impl Item for ValueKind {
    ghost rule = { value_type };

    fn read(_alloc: Global, bytes: &[u8]) -> Result<(ValueKind, &[u8]), Unread> {
        read_kind(bytes)
    }
}

impl Item for FuncType {
    ghost rule = { func_type };

    fn read(alloc: Global, bytes: &[u8]) -> Result<(FuncType, &[u8]), Unread> {
        let rest = this_byte(0x60, bytes)?;
        let (params, rest) = read_vector(alloc, MOST_PARAMS, rest)?;
        let (results, rest) = read_vector(alloc, ANY, rest)?;
        Ok((FuncType { params, results }, rest))
    }
}

fn flag_of(byte: u8) -> Option<bool>
    ensures { result ≡ among flags byte }
{
    match byte {
        0x00 => Some(false),
        0x01 => Some(true),
        _ => None,
    }
}

pub fn read_flag(bytes: &[u8]) -> Result<(bool, &[u8]), Unread>
    ensures { ReadsAs (λ x. (x.0, x.1.now)) result (flag.read bytes.now) }
{
    let Some((first, rest)) = bytes.split_first() else {
        return Err(ended(bytes));
    };
    match flag_of(*first) {
        Some(set) => Ok((set, rest)),
        None => Err(fault(bytes, DecodeKind::Form)),
    }
}

fn limits_with(most: u32, has_most: bool, bytes: &[u8]) -> Result<(Limits, &[u8]), Unread>
    ensures { ReadsAs (λ x. (x.0, x.1.now)) result ((limits_of most has_most).read bytes.now) }
{
    if has_most {
        let (least, rest) = limited_number(most, bytes)?;
        let (n, rest) = number(rest)?;
        return Ok((
            Limits {
                least,
                most: Some(n),
            },
            rest,
        ));
    }
    let (least, rest) = limited_number(most, bytes)?;
    Ok((Limits { least, most: None }, rest))
}

/// Limits of which the first is at most so large.
pub fn read_limits(most: u32, bytes: &[u8]) -> Result<(Limits, &[u8]), Unread>
    ensures { ReadsAs (λ x. (x.0, x.1.now)) result ((limits most).read bytes.now) }
{
    let (has_most, rest) = read_flag(bytes)?;
    limits_with(most, has_most, rest)
}

/// The type of a table of the module's own, or of a memory.
fn read_sized(of_table: bool, bytes: &[u8]) -> Result<(Limits, &[u8]), Unread>
    ensures { ReadsAs (λ x. (x.0, x.1.now)) result ((sized_type of_table).read bytes.now) }
{
    if of_table {
        let rest = this_byte(0x70, bytes)?;
        return read_limits(MOST_TABLE_ELEMENTS, rest);
    }
    read_limits(ANY, bytes)
}

fn sized_items(
    alloc: Global,
    of_table: bool,
    count: u32,
    bytes: &[u8],
) -> Result<(Seq<Limits>, &[u8]), Unread>
    ensures { ReadsAs (λ x. (x.0, x.1.now)) result ((items count (sized_type of_table)).read bytes.now) }
{
    let mut items = Seq::new(alloc);
    let mut rest = bytes;
    for _ in 0..count {
        let (item, after) = read_sized(of_table, rest)?;
        items.push(alloc, item)?;
        rest = after;
    }
    Ok((items, rest))
}

/// The tables of a module, or its memories.
pub fn read_sized_vector(
    alloc: Global,
    of_table: bool,
    bytes: &[u8],
) -> Result<(Seq<Limits>, &[u8]), Unread>
    ensures { ReadsAs (λ x. (x.0, x.1.now)) result ((vector any (sized_type of_table)).read bytes.now) }
{
    let (count, rest) = limited_number(ANY, bytes)?;
    sized_items(alloc, of_table, count, rest)
}
