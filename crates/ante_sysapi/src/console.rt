// What a run prints.
ghost use Rattle.std.specs.Prelude.{◌≡◌, ◌≤◌, ◌++◌, take, ℕ, OnOk, OnErr, IfSome, length};
ghost use Rattle.std.specs.Int.{w128, from_le_bytes};
ghost use Rattle.std.specs.Option.{option_map};
ghost use Rattle.ante_calls.specs.Calls as calls;
ghost use Rattle.ante_calls.specs.Console as console;
ghost use Rattle.ante_sysapi.specs.Answers.{Prints, Says};
ghost use Rattle.ante_wmem.specs.Linear.{LinearMemory};

use crate::text::text;
use crate::wide_integers::WIDE_SIZE;
use ante_arguments::{arg, bytes_from, first, name_arg, pay, range};
use ante_pack::{Bytes, name_text};
use ante_types::{Failure, RunContext};
use ante_wmem::{HostAnswer, Memory};
use itoa::Buffer;
use std::alloc::{AllocError, Global};

/// A console ends there.
const MOST_CONSOLE: usize = 65_536;

// Appends what there is room for.
#[tactic(auto, using(crate::proofs::Cut::cut_full, crate::proofs::Cut::cut_room))]
fn append(console: &mut Bytes, more: &[u8], most: usize, alloc: Global) -> Result<(), AllocError>
    ensures ok { OnOk result (console.new ≡ take most (console.old ++ more.now)) }
    ensures err { OnErr result (console.new ≡ console.old) }
{
    if console.len() > most {
        *console = Bytes::from_slice(alloc, first(console.as_slice(), most))?;
        return Ok(());
    }
    let room = most - console.len();
    console.append(alloc, first(more, room))
}

fn print(more: &[u8], run: &mut RunContext, alloc: Global) -> HostAnswer<Failure>
    ensures answer { Prints more.now result run.old run.new }
    ensures mode { run.new.mode ≡ run.old.mode }
{
    match append(&mut run.console, more, MOST_CONSOLE, alloc) {
        Ok(()) => HostAnswer::Nothing,
        Err(_) => HostAnswer::OutOfMemory,
    }
}

// ---- bytes of the memory, which are paid

pub(crate) fn prints(
    args: &[u64],
    memory: &Memory,
    run: &mut RunContext,
    alloc: Global,
    left: &mut u64,
) -> HostAnswer<Failure>
    ensures answer { Says (λ v. console.prints v args.now memory.now left.old) result run.old run.new memory.now left.new }
    ensures falls { left.new ≤ left.old }
    ensures mode { run.new.mode ≡ run.old.mode }
{
    let Some(bytes) = text(args, 0, memory) else {
        return HostAnswer::Refused(Failure::BadPointer);
    };
    if !pay(left, bytes.len()) {
        return HostAnswer::StepLimit;
    }
    print(bytes, run, alloc)
}

pub(crate) fn prints_l(
    args: &[u64],
    memory: &Memory,
    run: &mut RunContext,
    alloc: Global,
    left: &mut u64,
) -> HostAnswer<Failure>
    ensures answer { Says (λ v. console.prints_l v args.now memory.now left.old) result run.old run.new memory.now left.new }
    ensures falls { left.new ≤ left.old }
    ensures mode { run.new.mode ≡ run.old.mode }
{
    let Some(bytes) = range(args, 0, memory) else {
        return HostAnswer::Refused(Failure::BadPointer);
    };
    if !pay(left, bytes.len()) {
        return HostAnswer::StepLimit;
    }
    print(bytes, run, alloc)
}

pub(crate) fn printhex(
    args: &[u64],
    memory: &Memory,
    run: &mut RunContext,
    alloc: Global,
    left: &mut u64,
) -> HostAnswer<Failure>
    ensures answer { Says (λ v. console.printhex v args.now memory.now left.old) result run.old run.new memory.now left.new }
    ensures falls { left.new ≤ left.old }
    ensures mode { run.new.mode ≡ run.old.mode }
{
    let Some(bytes) = range(args, 0, memory) else {
        return HostAnswer::Refused(Failure::BadPointer);
    };
    if !pay(left, bytes.len()) {
        return HostAnswer::StepLimit;
    }
    let Ok(digits) = hex::encode(alloc, bytes) else {
        return HostAnswer::OutOfMemory;
    };
    print(digits.as_bytes(), run, alloc)
}

// ---- numbers and names

pub(crate) fn printi(args: &[u64], run: &mut RunContext, alloc: Global) -> HostAnswer<Failure>
    ensures answer { (m : LinearMemory) (left : ℕ) → Says (λ v. console.printi v args.now m left) result run.old run.new m left }
    ensures mode { run.new.mode ≡ run.old.mode }
{
    let mut buffer = Buffer::new();
    let digits = buffer.format(arg(args, 0).cast_signed());
    print(digits.as_bytes(), run, alloc)
}

pub(crate) fn printui(args: &[u64], run: &mut RunContext, alloc: Global) -> HostAnswer<Failure>
    ensures answer { (m : LinearMemory) (left : ℕ) → Says (λ v. console.printui v args.now m left) result run.old run.new m left }
    ensures mode { run.new.mode ≡ run.old.mode }
{
    let mut buffer = Buffer::new();
    let digits = buffer.format(arg(args, 0));
    print(digits.as_bytes(), run, alloc)
}

pub(crate) fn printn(args: &[u64], run: &mut RunContext, alloc: Global) -> HostAnswer<Failure>
    ensures answer { (m : LinearMemory) (left : ℕ) → Says (λ v. console.printn v args.now m left) result run.old run.new m left }
    ensures mode { run.new.mode ≡ run.old.mode }
{
    let (text, length) = name_text(name_arg(args, 0));
    let (front, _) = text.split_at(length);
    print(front, run, alloc)
}

// The number in 16 bytes.
fn wide_of(bytes: &[u8]) -> u128
    requires { length bytes.now ≡ 16 }
    ensures { result ≡ from_le_bytes w128 bytes.now }
{
    match bytes.first_chunk::<16>() {
        Some(bytes) => u128::from_le_bytes(*bytes),
        None => unreachable!(),
    }
}

pub(crate) fn printi128(
    args: &[u64],
    memory: &Memory,
    run: &mut RunContext,
    alloc: Global,
) -> HostAnswer<Failure>
    ensures answer { (left : ℕ) → Says (λ v. console.printi128 v args.now memory.now left) result run.old run.new memory.now left }
    ensures mode { run.new.mode ≡ run.old.mode }
{
    let Some(bytes) = bytes_from(args, 0, WIDE_SIZE, memory) else {
        return HostAnswer::Refused(Failure::BadPointer);
    };
    let mut buffer = Buffer::new();
    let digits = buffer.format(wide_of(bytes).cast_signed());
    print(digits.as_bytes(), run, alloc)
}

pub(crate) fn printui128(
    args: &[u64],
    memory: &Memory,
    run: &mut RunContext,
    alloc: Global,
) -> HostAnswer<Failure>
    ensures answer { (left : ℕ) → Says (λ v. console.printui128 v args.now memory.now left) result run.old run.new memory.now left }
    ensures mode { run.new.mode ≡ run.old.mode }
{
    let Some(bytes) = bytes_from(args, 0, WIDE_SIZE, memory) else {
        return HostAnswer::Refused(Failure::BadPointer);
    };
    let mut buffer = Buffer::new();
    let digits = buffer.format(wide_of(bytes));
    print(digits.as_bytes(), run, alloc)
}
