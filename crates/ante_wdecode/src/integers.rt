ghost use Rattle.std.specs.Prelude.{◌≡◌, ◌<◌, ◌≤◌, ◌^◌, true, false};
ghost use Rattle.ante_wdecode.specs.Leb128.{last_value, more_value, leb_at, seen, u32_at, s32_at, s64_at};

/// Why no integer stands at the front of some bytes.
#[derive(Clone, Copy, PartialEq, Eq, Debug)]
pub enum Misread {
    /// The bytes end within the integer.
    Short,
    /// The integer has too many bytes, or bits that its width doesn't have.
    Leb,
}

fn power(exponent: u32) -> u64
    requires { exponent < 64 }
    ensures { result ≡ 2 ^ exponent }
{
    1 << exponent
}

fn last_unsigned(bits: u32, byte: u64) -> Option<u64>
    requires { bits < 64 }
    ensures { result ≡ last_value false bits byte }
{
    if byte < power(bits) { Some(byte) } else { None }
}

fn last_signed(bits: u32, byte: u64) -> Option<u64>
    requires some { 0 < bits }
    requires most { bits ≤ 64 }
    requires seven { byte < 128 }
    ensures { result ≡ last_value true bits byte }
{
    let half = power(bits - 1);
    if byte < 64 {
        if byte < half { Some(byte) } else { None }
    } else if 128 - byte <= half {
        Some(u64::MAX - (127 - byte))
    } else {
        None
    }
}

fn last(signed: bool, bits: u32, byte: u64) -> Option<u64>
    requires some { 0 < bits }
    requires most { bits ≤ 64 }
    requires unsigned { signed ≡ false → bits < 64 }
    requires seven { byte < 128 }
    ensures { result ≡ last_value signed bits byte }
{
    if signed {
        last_signed(bits, byte)
    } else {
        last_unsigned(bits, byte)
    }
}

fn more(byte: u64, high: u64) -> u64
    requires above { 128 ≤ byte }
    requires byte { byte < 256 }
    ensures { result ≡ more_value byte high }
{
    (byte - 128).wrapping_add(high.wrapping_mul(128))
}

fn integer(signed: bool, bits: u32, bytes: &[u8]) -> Result<(u64, &[u8]), Misread>
    requires some { 0 < bits }
    requires most { bits ≤ 64 }
    requires unsigned { signed ≡ false → bits < 64 }
    ensures { seen (λ x. (x.0, x.1.now)) result ≡ leb_at signed bits bytes.now }
{
    let Some((first, rest)) = bytes.split_first() else {
        return Err(Misread::Short);
    };
    let byte = u64::from(*first);
    if byte < 128 {
        return match last(signed, bits, byte) {
            Some(value) => Ok((value, rest)),
            None => Err(Misread::Leb),
        };
    }
    if bits <= 7 {
        return Err(Misread::Leb);
    }
    let (high, rest) = integer(signed, bits - 7, rest)?;
    Ok((more(byte, high), rest))
}

/// The u32 at the front of the bytes (section 5.2.2), and the bytes after it. Longer spellings than the shortest are
/// read, up to five bytes.
pub fn read_u32(bytes: &[u8]) -> Result<(u32, &[u8]), Misread>
    ensures { seen (λ x. (x.0, x.1.now)) result ≡ u32_at bytes.now }
{
    match integer(false, 32, bytes) {
        Ok((value, rest)) => Ok((value as u32, rest)),
        Err(fault) => Err(fault),
    }
}

/// The s32 at the front of the bytes (section 5.2.2), as its 32 bits, and the bytes after it; up to five bytes.
pub fn read_s32(bytes: &[u8]) -> Result<(u32, &[u8]), Misread>
    ensures { seen (λ x. (x.0, x.1.now)) result ≡ s32_at bytes.now }
{
    match integer(true, 32, bytes) {
        Ok((value, rest)) => Ok(((value % 0x1_0000_0000) as u32, rest)),
        Err(fault) => Err(fault),
    }
}

/// The s64 at the front of the bytes (section 5.2.2), as its 64 bits, and the bytes after it; up to ten bytes.
pub fn read_s64(bytes: &[u8]) -> Result<(u64, &[u8]), Misread>
    ensures { seen (λ x. (x.0, x.1.now)) result ≡ s64_at bytes.now }
{
    match integer(true, 64, bytes) {
        Ok((value, rest)) => Ok((value, rest)),
        Err(fault) => Err(fault),
    }
}
