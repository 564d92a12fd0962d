// Texts in the memory, which end before a zero byte.
ghost use Rattle.std.specs.Prelude.{◌≡◌, ◌==◌, length, drop, position};
ghost use Rattle.std.specs.Option.{option_map};
ghost use Rattle.ante_calls.specs.Calls as calls;

use ante_arguments::arg32;
use ante_wmem::Memory;
use ante_wmem::limits::PAGE_SIZE;
use memchr::memchr;

fn size_of(memory: &Memory) -> u32
    ensures { result ≡ length memory.now.bytes }
{
    memory.pages() * PAGE_SIZE as u32
}

// All bytes of a memory of this size from an address on.
fn from_address(memory: &Memory, at: u32, size: u32) -> &[u8]
    requires { size ≡ length memory.now.bytes }
    ensures { result.now ≡ drop at memory.now.bytes }
{
    if at >= size {
        return &[];
    }
    match memory.read_bytes(at, size - at) {
        Ok(bytes) => bytes,
        Err(_) => unreachable!(),
    }
}

// The bytes before the first zero byte, if there is one.
fn before_zero(bytes: &[u8]) -> Option<&[u8]>
    ensures { option_map (λ b. b.now) result ≡ calls.up_to_zero bytes.now (position (λ b. b == 0) bytes.now) }
{
    match memchr(0, bytes) {
        Some(end) => {
            let (text, _) = bytes.split_at(end);
            Some(text)
        }
        None => None,
    }
}

/// The text that an argument names.
pub(crate) fn text<'a>(args: &[u64], at: usize, memory: &'a Memory) -> Option<&'a [u8]>
    ensures { option_map (λ b. b.now) result ≡ calls.text at args.now memory.now }
{
    before_zero(from_address(memory, arg32(args, at), size_of(memory)))
}
