ghost use Rattle.std.specs.Prelude.{◌≡◌, ℕ, ◌<◌, ◌≤◌, ◌^◌, length, drop, Result, Ok, Err};
ghost use Rattle.std.specs.Prelude.{◌-◌, IfOk, nat_lt, if◌then◌else◌};
ghost use Rattle.ante_pack.specs.declared.fault.PackFault.TheVariants.{LongVaruint};
ghost use Rattle.ante_pack.specs.Forms.{ReadsField, IsBytes, ReadsVaruint, Bounded, bytes_at, end_of, varuint, string, varuint_within};
ghost use Rattle.ante_pack.specs.Packed as forms;

use crate::fault::PackFault;
use crate::names::Name;
use crate::{Digest, Key};
use std::marker::Model;

/// Reads packed fields from front to back. A call that is refused leaves the place where it was.
#[derive(Debug, Drop)]
pub struct PackReader<'a> {
    bytes: &'a [u8],
    at: usize,
}

impl<'a> Model for PackReader<'a> {
    ghost use Rattle.std.specs.Prelude.{◌≤◌, length, drop};
    ghost use Rattle.ante_pack.specs.Forms.{Cursor, IsBytes};

    ghost Value = { Cursor };

    ghost view = { λ r. record { at = r.at; rest = drop r.at r.bytes.now } };

    ghost invariant = { λ r. (r.at ≤ length r.bytes.now) × IsBytes r.bytes.now };
}

impl<'a> PackReader<'a> {
    /// A reader at the first of these bytes.
    pub fn new(bytes: &'a [u8]) -> PackReader<'a>
        ensures { result ≡ record { at = 0; rest = bytes.now } }
    {
        PackReader { bytes, at: 0 }
    }

    /// How many bytes were read.
    pub fn at(&self) -> usize
        ensures { result ≡ self.now.at }
    {
        self.at
    }

    /// A second reader at the same place.
    pub fn fork(&self) -> PackReader<'a>
        ensures place { result ≡ self.now }
        ensures bytes { IsBytes self.now.rest }
    {
        let bytes = self.bytes;
        PackReader { bytes, at: self.at }
    }

    fn take(&mut self, count: usize) -> Result<&'a [u8], PackFault>
        ensures bytes { ReadsField (λ s. s.now) result self.old self.new (bytes_at count self.old) }
        ensures count { IfOk result (λ s. length s.now ≡ count) }
    {
        let (_, rest) = self.bytes.split_at(self.at);
        if rest.len() < count {
            return Err(PackFault::Short { at: self.at });
        }
        let (front, _) = rest.split_at(count);
        self.at += count;
        Ok(front)
    }

    /// One byte.
    #[tactic(auto, unfolding(crate::specs::Packed::u8))]
    pub fn u8(&mut self) -> Result<u8, PackFault>
        ensures { ReadsField (λ n. n) result self.old self.new (forms.u8.read self.old) }
    {
        let front = self.take(1)?;
        Ok(front[0])
    }

    /// Two bytes, the lowest first.
    #[tactic(auto, unfolding(crate::specs::Packed::u16))]
    pub fn u16(&mut self) -> Result<u16, PackFault>
        ensures { ReadsField (λ n. n) result self.old self.new (forms.u16.read self.old) }
    {
        let front = self.take(2)?;
        Ok(u16::from_le_bytes([front[0], front[1]]))
    }

    /// Four bytes, the lowest first.
    #[tactic(auto, unfolding(crate::specs::Packed::u32))]
    pub fn u32(&mut self) -> Result<u32, PackFault>
        ensures { ReadsField (λ n. n) result self.old self.new (forms.u32.read self.old) }
    {
        let front = self.take(4)?;
        Ok(u32::from_le_bytes([front[0], front[1], front[2], front[3]]))
    }

    /// Eight bytes, the lowest first.
    #[tactic(auto, unfolding(crate::specs::Packed::u64))]
    pub fn u64(&mut self) -> Result<u64, PackFault>
        ensures { ReadsField (λ n. n) result self.old self.new (forms.u64.read self.old) }
    {
        let front = self.take(8)?;
        Ok(u64::from_le_bytes([
            front[0], front[1], front[2], front[3], front[4], front[5], front[6], front[7],
        ]))
    }

    /// A name as its number, eight bytes.
    #[tactic(auto, unfolding(crate::specs::Packed::name))]
    pub fn name(&mut self) -> Result<Name, PackFault>
        ensures { ReadsField (λ n. n) result self.old self.new (forms.name.read self.old) }
    {
        Ok(Name(self.u64()?))
    }

    /// A LEB128 number of 32 bits in its shortest spelling.
    #[tactic(auto, unfolding(crate::specs::Forms::varuint))]
    pub fn varuint(&mut self) -> Result<u32, PackFault>
        ensures { ReadsField (λ n. n) result self.old self.new (varuint.read self.old) }
    {
        let (_, rest) = self.bytes.split_at(self.at);
        let (number, after) = varuint_of(self.at, rest, 4)?;
        self.at += rest.len() - after.len();
        Ok(number)
    }

    /// A length and that many bytes, which are borrowed from the input.
    #[tactic(auto, unfolding(crate::specs::Forms::string))]
    pub fn bytes(&mut self) -> Result<&'a [u8], PackFault>
        ensures { ReadsField (λ s. s.now) result self.old self.new (string.read self.old) }
    {
        let mut ahead = self.fork();
        let count = ahead.varuint()?;
        let bytes = ahead.take(count as usize)?;
        *self = ahead;
        Ok(bytes)
    }

    /// 32 bytes as they stand.
    #[tactic(auto, unfolding(crate::specs::Packed::digest))]
    pub fn digest(&mut self) -> Result<Digest, PackFault>
        ensures { ReadsField (λ n. n) result self.old self.new (forms.digest.read self.old) }
    {
        let front = self.take(32)?;
        let mut digest = [0; 32];
        digest.copy_from_slice(front);
        Ok(digest)
    }

    /// A kind byte, 0 or 1, and 33 bytes.
    #[tactic(auto, unfolding(crate::specs::Packed::key))]
    pub fn key(&mut self) -> Result<Key, PackFault>
        ensures { ReadsField (λ n. n) result self.old self.new (forms.key.read self.old) }
    {
        let mut ahead = self.fork();
        let front = ahead.take(34)?;
        if front[0] > 1 {
            return Err(PackFault::KeyKind { at: self.at });
        }
        let mut key = [0; 34];
        key.copy_from_slice(front);
        *self = ahead;
        Ok(key)
    }

    /// Refuses bytes that are left.
    pub fn end(&self) -> Result<(), PackFault>
        ensures { result ≡ end_of self.now }
    {
        if self.at < self.bytes.len() {
            return Err(PackFault::Trailing { at: self.at });
        }
        Ok(())
    }
}

/// Reads a varuint from the front of `bytes`; `at` is the place of its first byte, and at most `left` bytes follow that.
fn varuint_of(at: usize, bytes: &[u8], left: u8) -> Result<(u32, &[u8]), PackFault>
    requires { left ≤ 4 }
    ensures number { ReadsVaruint (λ r. (r.0, r.1.now)) result (varuint_within at bytes.now left) }
    ensures small { IfOk result (λ r. Bounded left r.0) }
    ensures rest { IfOk result (λ r. length r.1.now ≤ length bytes.now) }
    ensures place { IfOk result (λ r. r.1.now ≡ drop (length bytes.now - length r.1.now) bytes.now) }
{
    let Some((first, rest)) = bytes.split_first() else {
        return Err(PackFault::Short { at });
    };
    let first = *first;
    if left == 0 {
        return last_of_five(at, first, rest);
    }
    if first < 128 {
        return Ok((u32::from(first), rest));
    }
    let (high, rest) = varuint_of(at, rest, left - 1)?;
    if high == 0 {
        return Err(PackFault::LongVaruint { at });
    }
    Ok((u32::from(first - 128) + 128 * high, rest))
}

fn last_of_five(at: usize, last: u8, rest: &[u8]) -> Result<(u32, &[u8]), PackFault>
    ensures number { ReadsVaruint (λ r. (r.0, r.1.now)) result (if nat_lt last 16 then Ok (last, rest.now) else Err (LongVaruint at)) }
    ensures small { IfOk result (λ r. (r.0 < 16) × (r.1.now ≡ rest.now)) }
{
    if last < 16 {
        Ok((u32::from(last), rest))
    } else {
        Err(PackFault::LongVaruint { at })
    }
}
