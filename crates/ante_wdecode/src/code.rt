ghost use Rattle.std.specs.Prelude.{◌≡◌, ◌++◌, ◌-◌, None, map, slice_get, replicate, OnOk};
ghost use Rattle.ante_wtree.specs.Limits.{most_locals};
ghost use Rattle.ante_wtree.specs.Trees.{body_of};
ghost use Rattle.ante_wdecode.specs.Rules.{ReadsAs, filling, misfit_of};
ghost use Rattle.ante_wdecode.specs.Modules.{groups, func, code, params_of, codes};

use crate::fault::{Unread, ended, misfit, moved};
use crate::items::{limited_number, number};
use crate::nested::read_expression;
use crate::types::read_kind;
use ante_pack::Seq;
use ante_wtree::limits::{MOST_LOCALS, MOST_NESTED_BLOCKS};
use ante_wtree::{Code, FuncType, ValueKind};
use std::alloc::{AllocError, Global};

fn push_locals(
    locals: &mut Seq<ValueKind>,
    alloc: Global,
    count: u32,
    kind: ValueKind,
) -> Result<(), AllocError>
    ensures { OnOk result (locals.new ≡ locals.old ++ replicate count kind) }
{
    for _ in 0..count {
        locals.push(alloc, kind)?;
    }
    Ok(())
}

fn read_groups(
    alloc: Global,
    most: u32,
    count: u32,
    bytes: &[u8],
) -> Result<(Seq<ValueKind>, &[u8]), Unread>
    ensures { ReadsAs (λ x. (x.0, x.1.now)) result ((groups most count).read bytes.now) }
{
    let mut locals = Seq::new(alloc);
    let mut left = most;
    let mut rest = bytes;
    for _ in 0..count {
        let (n, after) = limited_number(left, rest)?;
        let (kind, after) = read_kind(after)?;
        push_locals(&mut locals, alloc, n, kind)?;
        left -= n;
        rest = after;
    }
    Ok((locals, rest))
}

fn read_func(alloc: Global, most: u32, bytes: &[u8]) -> Result<(Code, &[u8]), Unread>
    ensures { ReadsAs (λ x. (body_of x.0, x.1.now)) result ((func most).read bytes.now) }
{
    let (count, rest) = number(bytes)?;
    let (locals, rest) = read_groups(alloc, most, count, rest)?;
    let (body, rest) = read_expression(alloc, MOST_NESTED_BLOCKS, rest)?;
    Ok((Code { locals, body }, rest))
}

fn read_part(alloc: Global, most: u32, size: u32, bytes: &[u8]) -> Result<(Code, &[u8]), Unread>
    ensures { ReadsAs (λ x. (body_of x.0, x.1.now)) result ((filling (misfit_of None) size (func most)).read bytes.now) }
{
    let size = size as usize;
    if bytes.len() < size {
        return Err(ended(bytes));
    }
    let (part, after) = bytes.split_at(size);
    match read_func(alloc, most, part) {
        Ok((code, more)) => {
            if more.is_empty() {
                return Ok((code, after));
            }
            Err(misfit(None, more.len() + after.len()))
        }
        Err(why) => Err(moved(None, after.len(), why)),
    }
}

fn read_code(alloc: Global, most: u32, bytes: &[u8]) -> Result<(Code, &[u8]), Unread>
    ensures { ReadsAs (λ x. (body_of x.0, x.1.now)) result ((code most).read bytes.now) }
{
    let (size, rest) = number(bytes)?;
    read_part(alloc, most, size, rest)
}

fn locals_beside(params: usize) -> u32
    ensures { result ≡ most_locals - params }
{
    if params < MOST_LOCALS as usize {
        MOST_LOCALS - params as u32
    } else {
        0
    }
}

fn locals_of_type(types: &[FuncType], n: u32) -> u32
    ensures { result ≡ most_locals - params_of (slice_get types.now n) }
{
    match types.get(n as usize) {
        Some(func_type) => locals_beside(func_type.params.len()),
        None => MOST_LOCALS,
    }
}

/// A body for each function, given by the number of its type.
pub fn read_codes<'a>(
    alloc: Global,
    types: &[FuncType],
    functions: &[u32],
    bytes: &'a [u8],
) -> Result<(Seq<Code>, &'a [u8]), Unread>
    ensures { ReadsAs (λ x. (map body_of x.0, x.1.now)) result ((codes types.now functions.now).read bytes.now) }
{
    let mut codes = Seq::new(alloc);
    let mut rest = bytes;
    for n in functions {
        let most = locals_of_type(types, *n);
        let (code, after) = read_code(alloc, most, rest)?;
        codes.push(alloc, code)?;
        rest = after;
    }
    Ok((codes, rest))
}
