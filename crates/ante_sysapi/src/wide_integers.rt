// Integers of 128 bits. The first argument is where the 16 bytes of the answer go.
ghost use Rattle.std.specs.Prelude.{◌≡◌, ℕ, ◌<◌, ◌/◌, ◌%◌, true, codes, int_div, int_rem, IsOk, IfOk, IfErr};
ghost use Rattle.std.specs.Int.{w128, to_le_bytes};
ghost use Rattle.ante_calls.specs.Calls as calls;
ghost use Rattle.ante_calls.specs.WideIntegers as wide;
ghost use Rattle.ante_sysapi.specs.Answers.{Tells};
ghost use Rattle.ante_wmem.specs.Linear.{LinearMemory, is_inside, written};

use ante_arguments::{arg, arg32, bytes_from, put};
use ante_types::{Failure, Label};
use ante_wmem::{HostAnswer, Memory};
use std::alloc::{AllocError, Global};

/// The bytes of a number in the memory.
pub(crate) const WIDE_SIZE: u32 = 16;

/// The worth of the higher word.
const HIGH_WORD: u128 = 18_446_744_073_709_551_616;

// The number in two words, the lower first.
fn wide_arg(args: &[u64], at: usize) -> u128
    requires at { at < 1000 }
    ensures { result ≡ wide.wide_arg args.now at }
{
    u128::from(arg(args, at)) + HIGH_WORD * u128::from(arg(args, at + 1))
}

fn put_wide(args: &[u64], memory: &mut Memory, number: u128)
    requires inside { is_inside memory.old.bytes (calls.arg32 args.now 0) 16 ≡ true }
    ensures { memory.new ≡ written memory.old (calls.arg32 args.now 0) (to_le_bytes w128 number) }
{
    put(memory, arg32(args, 0), &number.to_le_bytes());
}

// ---- products and quotients

pub(crate) fn multi3(args: &[u64], memory: &mut Memory) -> HostAnswer<Failure>
    ensures { (left : ℕ) → Tells (λ v. wide.multi3 v args.now memory.old left) result memory.new left }
{
    let Some(_) = bytes_from(args, 0, WIDE_SIZE, memory) else {
        return HostAnswer::Refused(Failure::BadPointer);
    };
    let product = wide_arg(args, 1).wrapping_mul(wide_arg(args, 3));
    put_wide(args, memory, product);
    HostAnswer::Nothing
}

fn division_by_zero(alloc: Global) -> Result<Failure, AllocError>
    ensures { IfOk result (λ f. f ≡ calls.trapped (codes "DivZero")) }
{
    let kind = Label::new(alloc, b"DivZero")?;
    Ok(Failure::Trap { kind })
}

// The two numbers of a division, or the answer where it can't be made.
fn operands(
    args: &[u64],
    memory: &Memory,
    alloc: Global,
) -> Result<(u128, u128), HostAnswer<Failure>>
    ensures inside { IsOk result → is_inside memory.now.bytes (calls.arg32 args.now 0) 16 ≡ true }
    ensures numbers { IfOk result (λ r. r ≡ (wide.wide_arg args.now 1, wide.wide_arg args.now 3)) }
    ensures divisor { IfOk result (λ r. 0 < r.1) }
    ensures refused { IfErr result (λ a. (divide : ℕ → ℕ → ℕ) (m : LinearMemory) (left : ℕ) → Tells (λ v. wide.dividing divide v args.now memory.now left) a m left) }
{
    let Some(_) = bytes_from(args, 0, WIDE_SIZE, memory) else {
        return Err(HostAnswer::Refused(Failure::BadPointer));
    };
    let (a, b) = (wide_arg(args, 1), wide_arg(args, 3));
    if b != 0 {
        return Ok((a, b));
    }
    match division_by_zero(alloc) {
        Ok(failure) => Err(HostAnswer::Refused(failure)),
        Err(_) => Err(HostAnswer::OutOfMemory),
    }
}

// The least number by -1 is itself.
fn signed_quotient(a: u128, b: u128) -> u128
    requires { 0 < b }
    ensures { result ≡ wide.unsigned (int_div (wide.signed a) (wide.signed b)) }
{
    a.cast_signed()
        .wrapping_div(b.cast_signed())
        .cast_unsigned()
}

fn signed_remainder(a: u128, b: u128) -> u128
    requires { 0 < b }
    ensures { result ≡ wide.unsigned (int_rem (wide.signed a) (wide.signed b)) }
{
    a.cast_signed()
        .wrapping_rem(b.cast_signed())
        .cast_unsigned()
}

pub(crate) fn divti3(args: &[u64], memory: &mut Memory, alloc: Global) -> HostAnswer<Failure>
    ensures { (left : ℕ) → Tells (λ v. wide.divti3 v args.now memory.old left) result memory.new left }
{
    match operands(args, memory, alloc) {
        Ok((a, b)) => {
            put_wide(args, memory, signed_quotient(a, b));
            HostAnswer::Nothing
        }
        Err(answer) => answer,
    }
}

pub(crate) fn udivti3(args: &[u64], memory: &mut Memory, alloc: Global) -> HostAnswer<Failure>
    ensures { (left : ℕ) → Tells (λ v. wide.udivti3 v args.now memory.old left) result memory.new left }
{
    match operands(args, memory, alloc) {
        Ok((a, b)) => {
            put_wide(args, memory, a / b);
            HostAnswer::Nothing
        }
        Err(answer) => answer,
    }
}

pub(crate) fn modti3(args: &[u64], memory: &mut Memory, alloc: Global) -> HostAnswer<Failure>
    ensures { (left : ℕ) → Tells (λ v. wide.modti3 v args.now memory.old left) result memory.new left }
{
    match operands(args, memory, alloc) {
        Ok((a, b)) => {
            put_wide(args, memory, signed_remainder(a, b));
            HostAnswer::Nothing
        }
        Err(answer) => answer,
    }
}

pub(crate) fn umodti3(args: &[u64], memory: &mut Memory, alloc: Global) -> HostAnswer<Failure>
    ensures { (left : ℕ) → Tells (λ v. wide.umodti3 v args.now memory.old left) result memory.new left }
{
    match operands(args, memory, alloc) {
        Ok((a, b)) => {
            put_wide(args, memory, a % b);
            HostAnswer::Nothing
        }
        Err(answer) => answer,
    }
}

// ---- shifts

// A count of 128 or more shifts all bits out.
fn up(a: u128, count: u32) -> u128
    ensures { result ≡ wide.up a count }
{
    if count >= 128 { 0 } else { a << count }
}

fn down(a: u128, count: u32) -> u128
    ensures { result ≡ wide.down a count }
{
    if count >= 128 { 0 } else { a >> count }
}

// It leaves copies of the sign.
fn down_signed(a: u128, count: u32) -> u128
    ensures { result ≡ wide.down_signed a count }
{
    a.cast_signed().unbounded_shr(count).cast_unsigned()
}

pub(crate) fn shlti3(args: &[u64], memory: &mut Memory) -> HostAnswer<Failure>
    ensures { (left : ℕ) → Tells (λ v. wide.shlti3 v args.now memory.old left) result memory.new left }
{
    let Some(_) = bytes_from(args, 0, WIDE_SIZE, memory) else {
        return HostAnswer::Refused(Failure::BadPointer);
    };
    put_wide(args, memory, up(wide_arg(args, 1), arg32(args, 3)));
    HostAnswer::Nothing
}

pub(crate) fn ashrti3(args: &[u64], memory: &mut Memory) -> HostAnswer<Failure>
    ensures { (left : ℕ) → Tells (λ v. wide.ashrti3 v args.now memory.old left) result memory.new left }
{
    let Some(_) = bytes_from(args, 0, WIDE_SIZE, memory) else {
        return HostAnswer::Refused(Failure::BadPointer);
    };
    put_wide(args, memory, down_signed(wide_arg(args, 1), arg32(args, 3)));
    HostAnswer::Nothing
}

pub(crate) fn lshrti3(args: &[u64], memory: &mut Memory) -> HostAnswer<Failure>
    ensures { (left : ℕ) → Tells (λ v. wide.lshrti3 v args.now memory.old left) result memory.new left }
{
    let Some(_) = bytes_from(args, 0, WIDE_SIZE, memory) else {
        return HostAnswer::Refused(Failure::BadPointer);
    };
    put_wide(args, memory, down(wide_arg(args, 1), arg32(args, 3)));
    HostAnswer::Nothing
}
