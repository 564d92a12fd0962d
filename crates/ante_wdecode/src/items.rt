ghost use Rattle.std.specs.Prelude.{◌≡◌, ◌≤◌, List};
ghost use Rattle.ante_wdecode.specs.Rules.{Rule, ReadsAs, u32, s32, s64, limited, byte, items};
ghost use Rattle.ante_wdecode.specs.Instructions.{vector};

use crate::fault::{DecodeKind, Unread, ended, fault};
use crate::integers::{Misread, read_s32, read_s64, read_u32};
use ante_pack::Seq;
use std::alloc::Global;

/// A type with a rule of the binary format.
pub trait Item: Drop {
    ghost rule: { Rule Self };

    fn read(alloc: Global, bytes: &[u8]) -> Result<(Self, &[u8]), Unread>
        ensures { ReadsAs (λ x. (x.0, x.1.now)) result (rule.read bytes.now) };
}

pub fn number(bytes: &[u8]) -> Result<(u32, &[u8]), Unread>
    ensures { ReadsAs (λ x. (x.0, x.1.now)) result (u32.read bytes.now) }
{
    match read_u32(bytes) {
        Ok((value, rest)) => Ok((value, rest)),
        Err(Misread::Short) => Err(ended(bytes)),
        Err(Misread::Leb) => Err(fault(bytes, DecodeKind::Leb)),
    }
}

pub fn signed32(bytes: &[u8]) -> Result<(u32, &[u8]), Unread>
    ensures { ReadsAs (λ x. (x.0, x.1.now)) result (s32.read bytes.now) }
{
    match read_s32(bytes) {
        Ok((value, rest)) => Ok((value, rest)),
        Err(Misread::Short) => Err(ended(bytes)),
        Err(Misread::Leb) => Err(fault(bytes, DecodeKind::Leb)),
    }
}

pub fn signed64(bytes: &[u8]) -> Result<(u64, &[u8]), Unread>
    ensures { ReadsAs (λ x. (x.0, x.1.now)) result (s64.read bytes.now) }
{
    match read_s64(bytes) {
        Ok((value, rest)) => Ok((value, rest)),
        Err(Misread::Short) => Err(ended(bytes)),
        Err(Misread::Leb) => Err(fault(bytes, DecodeKind::Leb)),
    }
}

pub fn limited_number(most: u32, bytes: &[u8]) -> Result<(u32, &[u8]), Unread>
    ensures { ReadsAs (λ x. (x.0, x.1.now)) result ((limited most).read bytes.now) }
{
    let (count, rest) = number(bytes)?;
    if most < count {
        return Err(fault(bytes, DecodeKind::Limit));
    }
    Ok((count, rest))
}

pub fn this_byte(wanted: u8, bytes: &[u8]) -> Result<&[u8], Unread>
    ensures { ReadsAs (λ x. (tt, x.now)) result ((byte wanted).read bytes.now) }
{
    let Some((first, rest)) = bytes.split_first() else {
        return Err(ended(bytes));
    };
    if *first == wanted {
        Ok(rest)
    } else {
        Err(fault(bytes, DecodeKind::Form))
    }
}

/// Memory grows with the items that are there, and not with the count.
pub fn read_items<T: Item>(
    alloc: Global,
    count: u32,
    bytes: &[u8],
) -> Result<(Seq<T>, &[u8]), Unread>
    ensures { ReadsAs (λ x. (x.0, x.1.now)) result ((items count T.rule).read bytes.now) }
{
    let mut items = Seq::new(alloc);
    let mut rest = bytes;
    for _ in 0..count {
        let (item, after) = T::read(alloc, rest)?;
        items.push(alloc, item)?;
        rest = after;
    }
    Ok((items, rest))
}

/// A vector of at most so many items (section 5.1.3).
pub fn read_vector<T: Item>(
    alloc: Global,
    most: u32,
    bytes: &[u8],
) -> Result<(Seq<T>, &[u8]), Unread>
    ensures { ReadsAs (λ x. (x.0, x.1.now)) result ((vector most T.rule).read bytes.now) }
{
    let (count, rest) = limited_number(most, bytes)?;
    read_items(alloc, count, rest)
}

impl Item for u32 {
    ghost rule = { u32 };

    fn read(_alloc: Global, bytes: &[u8]) -> Result<(u32, &[u8]), Unread> {
        number(bytes)
    }
}
