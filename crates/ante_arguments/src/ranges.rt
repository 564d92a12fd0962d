// Ranges of the memory.
ghost use Rattle.std.specs.Prelude.{◌≡◌, ◌+◌, ◌<◌, length, take, true, is_some, IfSome};
ghost use Rattle.std.specs.Option.{option_map};
ghost use Rattle.ante_calls.specs.Calls as calls;
ghost use Rattle.ante_wmem.specs.Linear.{is_inside, written};

use crate::numbers::arg32;
use ante_wmem::Memory;

/// So many bytes at an address, if they lie in the memory. A range of no bytes always does.
pub fn bytes_in(memory: &Memory, at: u32, count: u32) -> Option<&[u8]>
    ensures bytes { option_map (λ b. b.now) result ≡ calls.bytes_in at count memory.now }
    ensures inside { is_some result ≡ is_inside memory.now.bytes at count }
    ensures count { IfSome result (λ b. length b.now ≡ count) }
{
    memory.read_bytes(at, count).ok()
}

/// The bytes of the range that two arguments name, an address and a count.
pub fn range<'a>(args: &[u64], at: usize, memory: &'a Memory) -> Option<&'a [u8]>
    requires at { at < 1000 }
    ensures bytes { option_map (λ b. b.now) result ≡ calls.range at args.now memory.now }
    ensures inside { is_some result ≡ is_inside memory.now.bytes (calls.arg32 args.now at) (calls.arg32 args.now (at + 1)) }
{
    bytes_in(memory, arg32(args, at), arg32(args, at + 1))
}

/// So many bytes from an argument's address on.
pub fn bytes_from<'a>(args: &[u64], at: usize, count: u32, memory: &'a Memory) -> Option<&'a [u8]>
    ensures bytes { option_map (λ b. b.now) result ≡ calls.bytes_from at count args.now memory.now }
    ensures inside { is_some result ≡ is_inside memory.now.bytes (calls.arg32 args.now at) count }
    ensures count { IfSome result (λ b. length b.now ≡ count) }
{
    bytes_in(memory, arg32(args, at), count)
}

/// At most so many of the first bytes.
pub fn first(bytes: &[u8], most: usize) -> &[u8]
    ensures { result.now ≡ take most bytes.now }
{
    match bytes.split_at_checked(most) {
        Some((front, _)) => front,
        None => bytes,
    }
}

/// Puts the bytes into a range that lies in the memory.
pub fn put(memory: &mut Memory, at: u32, bytes: &[u8])
    requires inside { is_inside memory.old.bytes at (length bytes.now) ≡ true }
    ensures { memory.new ≡ written memory.old at bytes.now }
{
    match memory.write_bytes(at, bytes) {
        Ok(()) => (),
        Err(_) => unreachable!(),
    }
}
