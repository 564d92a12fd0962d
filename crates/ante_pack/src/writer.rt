ghost use Rattle.std.specs.Prelude.{◌≡◌, ℕ, ◌<◌, ◌≤◌, ◌^◌, [], ◌++◌, length, take, OnOk, OnErr};
ghost use Rattle.ante_pack.specs.Adds.{Adds};
ghost use Rattle.ante_pack.specs.Forms.{varuint, string};
ghost use Rattle.ante_pack.specs.Packed as forms;

use crate::lists::Bytes;
use crate::names::Name;
use crate::{Digest, Key};
use std::alloc::{AllocError, Global};
use std::marker::Model;

/// Writes packed fields one after the other. A call that is refused leaves what was written as it was.
#[derive(Debug, Drop)]
pub struct PackWriter {
    bytes: Vec<u8>,
}

impl Model for PackWriter {
    ghost use Rattle.std.specs.Prelude.{ℕ, List};

    ghost Value = { List ℕ };

    ghost view = { λ w. w.bytes.items };
}

impl PackWriter {
    /// A writer with no bytes. Takes no memory.
    pub fn new(alloc: Global) -> PackWriter
        ensures { result ≡ [] }
    {
        PackWriter {
            bytes: Vec::new(alloc),
        }
    }

    /// Bytes as they are, with no length before them.
    pub fn put_raw(&mut self, _alloc: Global, bytes: &[u8]) -> Result<(), AllocError>
        ensures ok { OnOk result (Adds self.old self.new bytes.now) }
        ensures err { OnErr result (self.new ≡ self.old) }
    {
        self.bytes.extend_from_slice(bytes)
    }

    /// One byte.
    #[tactic(auto, unfolding(crate::specs::Packed::u8))]
    pub fn put_u8(&mut self, alloc: Global, value: u8) -> Result<(), AllocError>
        ensures ok { OnOk result (Adds self.old self.new (forms.u8.spell value)) }
        ensures err { OnErr result (self.new ≡ self.old) }
    {
        self.put_raw(alloc, &value.to_le_bytes())
    }

    /// Two bytes, the lowest first.
    #[tactic(auto, unfolding(crate::specs::Packed::u16))]
    pub fn put_u16(&mut self, alloc: Global, value: u16) -> Result<(), AllocError>
        ensures ok { OnOk result (Adds self.old self.new (forms.u16.spell value)) }
        ensures err { OnErr result (self.new ≡ self.old) }
    {
        self.put_raw(alloc, &value.to_le_bytes())
    }

    /// Four bytes, the lowest first.
    #[tactic(auto, unfolding(crate::specs::Packed::u32))]
    pub fn put_u32(&mut self, alloc: Global, value: u32) -> Result<(), AllocError>
        ensures ok { OnOk result (Adds self.old self.new (forms.u32.spell value)) }
        ensures err { OnErr result (self.new ≡ self.old) }
    {
        self.put_raw(alloc, &value.to_le_bytes())
    }

    /// Eight bytes, the lowest first.
    #[tactic(auto, unfolding(crate::specs::Packed::u64))]
    pub fn put_u64(&mut self, alloc: Global, value: u64) -> Result<(), AllocError>
        ensures ok { OnOk result (Adds self.old self.new (forms.u64.spell value)) }
        ensures err { OnErr result (self.new ≡ self.old) }
    {
        self.put_raw(alloc, &value.to_le_bytes())
    }

    /// A name as its number, eight bytes.
    #[tactic(auto, unfolding(crate::specs::Packed::name))]
    pub fn put_name(&mut self, alloc: Global, value: Name) -> Result<(), AllocError>
        ensures ok { OnOk result (Adds self.old self.new (forms.name.spell value)) }
        ensures err { OnErr result (self.new ≡ self.old) }
    {
        self.put_u64(alloc, value.0)
    }

    /// LEB128, in the shortest spelling.
    pub fn put_varuint(&mut self, alloc: Global, value: u32) -> Result<(), AllocError>
        ensures ok { OnOk result (Adds self.old self.new (varuint.spell value)) }
        ensures err { OnErr result (self.new ≡ self.old) }
    {
        let (text, len) = varuint_text(value);
        let (front, _) = text.split_at(len);
        self.put_raw(alloc, front)
    }

    /// A length and the bytes, of which there are fewer than 2^32.
    #[tactic(auto, unfolding(crate::specs::Forms::string))]
    pub fn put_bytes(&mut self, _alloc: Global, value: &[u8]) -> Result<(), AllocError>
        requires { length value.now < 2 ^ 32 }
        ensures ok { OnOk result (Adds self.old self.new (string.spell value.now)) }
        ensures err { OnErr result (self.new ≡ self.old) }
    {
        let (text, len) = varuint_text(value.len() as u32);
        let (front, _) = text.split_at(len);
        append_both(&mut self.bytes, front, value)
    }

    /// 32 bytes as they stand.
    #[tactic(auto, unfolding(crate::specs::Packed::digest))]
    pub fn put_digest(&mut self, alloc: Global, value: &Digest) -> Result<(), AllocError>
        ensures ok { OnOk result (Adds self.old self.new (forms.digest.spell value.now)) }
        ensures err { OnErr result (self.new ≡ self.old) }
    {
        self.put_raw(alloc, value)
    }

    /// 34 bytes as they stand.
    #[tactic(auto, unfolding(crate::specs::Packed::key))]
    pub fn put_key(&mut self, alloc: Global, value: &Key) -> Result<(), AllocError>
        ensures ok { OnOk result (Adds self.old self.new (forms.key.spell value.now)) }
        ensures err { OnErr result (self.new ≡ self.old) }
    {
        self.put_raw(alloc, value)
    }

    /// All that was written.
    pub fn into_bytes(self) -> Bytes
        ensures { result ≡ self }
    {
        let PackWriter { bytes } = self;
        Bytes::from_vec(bytes)
    }

    /// What was written so far.
    pub fn as_slice(&self) -> &[u8]
        ensures { result.now ≡ self.now }
    {
        self.bytes.as_slice()
    }
}

/// Appends both pieces, or neither.
fn append_both(bytes: &mut Vec<u8>, first: &[u8], second: &[u8]) -> Result<(), AllocError>
    ensures ok { OnOk result (Adds bytes.old.items bytes.new.items (first.now ++ second.now)) }
    ensures err { OnErr result (bytes.new.items ≡ bytes.old.items) }
{
    let before = bytes.len();
    bytes.extend_from_slice(first)?;
    if bytes.extend_from_slice(second).is_err() {
        bytes.truncate(before);
        return Err(AllocError);
    }
    Ok(())
}

/// The spelling of a varuint, at the front of five bytes.
fn varuint_text(value: u32) -> ([u8; 5], usize)
    ensures text { take result.1 result.0 ≡ varuint.spell value }
    ensures len { result.1 ≤ 5 }
{
    let mut text = [0; 5];
    let mut len: usize = 0;
    let mut left = value;
    while left >= 128 {
        text[len] = 128 + (left % 128) as u8;
        len += 1;
        left /= 128;
    }
    text[len] = left as u8;
    (text, len + 1)
}
