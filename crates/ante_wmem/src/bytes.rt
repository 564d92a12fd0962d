//! Ranges of a slice of bytes, and numbers in them, the lowest byte first.
ghost use Rattle.std.specs.Prelude.{◌≡◌, ◌+◌, ◌^◌, ◌<◌, ◌≤◌, ◌↔◌, length, replicate, true, IsTrue};
ghost use Rattle.ante_wmem.specs.Linear.{IsInside, is_inside, bytes_at, overwritten, little_endian, low_bytes, byte_count};

use crate::Width;

/// The standard's effective address, of 33 bits.
pub(crate) fn effective_address(address: u32, offset: u32) -> usize
    ensures { result ≡ address + offset }
{
    address as usize + offset as usize
}

/// Whether each byte of the range lies in the slice. No sum is made that could wrap.
pub(crate) fn is_inside(bytes: &[u8], at: usize, count: usize) -> bool
    ensures test { result ≡ is_inside bytes.now at count }
    ensures each { IsTrue result ↔ IsInside bytes.now at count }
{
    count == 0 || (at <= bytes.len() && count <= bytes.len() - at)
}

pub(crate) fn byte_count(width: Width) -> usize
    ensures { result ≡ byte_count width }
{
    match width {
        Width::One => 1,
        Width::Two => 2,
        Width::Four => 4,
        Width::Eight => 8,
    }
}

/// The number whose bytes begin at `at`.
pub(crate) fn number_at(bytes: &[u8], at: usize, width: Width) -> u64
    requires { at + byte_count width ≤ length bytes.now }
    ensures { result ≡ little_endian (bytes_at bytes.now at (byte_count width)) }
{
    let b = &bytes[at..];
    match width {
        Width::One => u64::from(b[0]),
        Width::Two => u64::from(u16::from_le_bytes([b[0], b[1]])),
        Width::Four => u64::from(u32::from_le_bytes([b[0], b[1], b[2], b[3]])),
        Width::Eight => u64::from_le_bytes([b[0], b[1], b[2], b[3], b[4], b[5], b[6], b[7]]),
    }
}

/// Puts the lowest bytes of the number at `at`.
pub(crate) fn put_number(bytes: &mut [u8], at: usize, width: Width, value: u64)
    requires { at + byte_count width ≤ length bytes.old }
    ensures { bytes.new ≡ overwritten bytes.old at (low_bytes (byte_count width) value) }
{
    let low = value.to_le_bytes();
    match width {
        Width::One => bytes[at] = low[0],
        Width::Two => bytes[at..at + 2].copy_from_slice(&low[..2]),
        Width::Four => bytes[at..at + 4].copy_from_slice(&low[..4]),
        Width::Eight => bytes[at..at + 8].copy_from_slice(&low),
    }
}

/// Copies the bytes from `from` on to `to`, as if through a second buffer.
pub(crate) fn copy(bytes: &mut [u8], to: usize, from: usize, count: usize)
    requires to { is_inside bytes.old to count ≡ true }
    requires from { is_inside bytes.old from count ≡ true }
    ensures { bytes.new ≡ overwritten bytes.old to (bytes_at bytes.old from count) }
{
    if count > 0 {
        bytes.copy_within(from..from + count, to);
    }
}

/// Puts the byte so many times from `at` on.
pub(crate) fn fill(bytes: &mut [u8], at: usize, byte: u8, count: usize)
    requires { is_inside bytes.old at count ≡ true }
    ensures { bytes.new ≡ overwritten bytes.old at (replicate count byte) }
{
    if count > 0 {
        bytes[at..at + count].fill(byte);
    }
}
