// Calls on the memory alone.
ghost use Rattle.std.specs.Prelude.{◌≡◌, ◌≤◌, true, replicate};
ghost use Rattle.std.specs.Cmp.Lexicographic.{slice_cmp};
ghost use Rattle.std.specs.Ordering.{nat_cmp};
ghost use Rattle.ante_calls.specs.Calls as calls;
ghost use Rattle.ante_calls.specs.MemoryCalls as memory_calls;
ghost use Rattle.ante_sysapi.specs.Answers.{Tells};
ghost use Rattle.ante_wmem.specs.Linear.{is_inside, bytes_at, written};

use ante_arguments::{arg32, bytes_from, pay};
use ante_types::Failure;
use ante_wmem::{HostAnswer, Memory};
use std::cmp::Ordering;

// As if through a second buffer.
fn move_within(memory: &mut Memory, to: u32, from: u32, count: u32)
    requires to { is_inside memory.old.bytes to count ≡ true }
    requires from { is_inside memory.old.bytes from count ≡ true }
    ensures { memory.new ≡ written memory.old to (bytes_at memory.old.bytes from count) }
{
    match memory.copy_bytes(to, from, count) {
        Ok(()) => (),
        Err(_) => unreachable!(),
    }
}

fn fill_within(memory: &mut Memory, at: u32, byte: u8, count: u32)
    requires { is_inside memory.old.bytes at count ≡ true }
    ensures { memory.new ≡ written memory.old at (replicate count byte) }
{
    match memory.fill_bytes(at, byte, count) {
        Ok(()) => (),
        Err(_) => unreachable!(),
    }
}

pub(crate) fn memcpy(args: &[u64], memory: &mut Memory, left: &mut u64) -> HostAnswer<Failure>
    ensures answer { Tells (λ v. memory_calls.memcpy v args.now memory.old left.old) result memory.new left.new }
    ensures falls { left.new ≤ left.old }
{
    let (to, from, count) = (arg32(args, 0), arg32(args, 1), arg32(args, 2));
    let Some(_) = bytes_from(args, 0, count, memory) else {
        return HostAnswer::Refused(Failure::BadPointer);
    };
    let Some(_) = bytes_from(args, 1, count, memory) else {
        return HostAnswer::Refused(Failure::BadPointer);
    };
    if !pay(left, count as usize) {
        return HostAnswer::StepLimit;
    }
    if to.abs_diff(from) < count {
        return HostAnswer::Refused(Failure::Overlap);
    }
    move_within(memory, to, from, count);
    HostAnswer::Value(u64::from(to))
}

pub(crate) fn memmove(args: &[u64], memory: &mut Memory, left: &mut u64) -> HostAnswer<Failure>
    ensures answer { Tells (λ v. memory_calls.memmove v args.now memory.old left.old) result memory.new left.new }
    ensures falls { left.new ≤ left.old }
{
    let (to, from, count) = (arg32(args, 0), arg32(args, 1), arg32(args, 2));
    let Some(_) = bytes_from(args, 0, count, memory) else {
        return HostAnswer::Refused(Failure::BadPointer);
    };
    let Some(_) = bytes_from(args, 1, count, memory) else {
        return HostAnswer::Refused(Failure::BadPointer);
    };
    if !pay(left, count as usize) {
        return HostAnswer::StepLimit;
    }
    move_within(memory, to, from, count);
    HostAnswer::Value(u64::from(to))
}

pub(crate) fn memset(args: &[u64], memory: &mut Memory, left: &mut u64) -> HostAnswer<Failure>
    ensures answer { Tells (λ v. memory_calls.memset v args.now memory.old left.old) result memory.new left.new }
    ensures falls { left.new ≤ left.old }
{
    let (to, byte, count) = (arg32(args, 0), arg32(args, 1), arg32(args, 2));
    let Some(_) = bytes_from(args, 0, count, memory) else {
        return HostAnswer::Refused(Failure::BadPointer);
    };
    if !pay(left, count as usize) {
        return HostAnswer::StepLimit;
    }
    fill_within(memory, to, (byte % 256) as u8, count);
    HostAnswer::Value(u64::from(to))
}

fn comparison(order: Ordering) -> u64
    ensures { result ≡ memory_calls.comparison order }
{
    match order {
        Ordering::Less => u64::from(u32::MAX),
        Ordering::Equal => 0,
        Ordering::Greater => 1,
    }
}

pub(crate) fn memcmp(args: &[u64], memory: &Memory, left: &mut u64) -> HostAnswer<Failure>
    ensures answer { Tells (λ v. memory_calls.memcmp v args.now memory.now left.old) result memory.now left.new }
    ensures falls { left.new ≤ left.old }
{
    let count = arg32(args, 2);
    let Some(a) = bytes_from(args, 0, count, memory) else {
        return HostAnswer::Refused(Failure::BadPointer);
    };
    let Some(b) = bytes_from(args, 1, count, memory) else {
        return HostAnswer::Refused(Failure::BadPointer);
    };
    if !pay(left, count as usize) {
        return HostAnswer::StepLimit;
    }
    HostAnswer::Value(comparison(a.cmp(b)))
}
