// Feeding packed values into a hasher.
ghost use Rattle.std.specs.Prelude.{◌≡◌, ℕ, List, ◌%◌, ◌^◌};
ghost use Rattle.std.specs.List.{flat_map};
ghost use Rattle.ante_pack.specs.Forms.{varuint};
ghost use Rattle.ante_pack.specs.Packed as forms;
ghost use Rattle.ante_digest.specs.Feeds.{Feeds};
ghost use Rattle.ante_digest.specs.Entries.{counted, sized, packed_key128};

use ante_pack::{Name, Seq};
use sha2::{Digest, Sha256};

/// How many numbers a count or a length may be.
const COUNTS: usize = 4_294_967_296;

pub(crate) fn feed_raw(hasher: &mut Sha256, bytes: &[u8])
    ensures { Feeds hasher.old hasher.new bytes.now }
{
    hasher.update(bytes);
}

#[tactic(auto, unfolding(ante_pack::specs::Packed::u8))]
pub(crate) fn feed_u8(hasher: &mut Sha256, value: u8)
    ensures { Feeds hasher.old hasher.new (forms.u8.spell value) }
{
    feed_raw(hasher, &value.to_le_bytes());
}

#[tactic(auto, unfolding(ante_pack::specs::Packed::u16))]
pub(crate) fn feed_u16(hasher: &mut Sha256, value: u16)
    ensures { Feeds hasher.old hasher.new (forms.u16.spell value) }
{
    feed_raw(hasher, &value.to_le_bytes());
}

#[tactic(auto, unfolding(ante_pack::specs::Packed::u32))]
pub(crate) fn feed_u32(hasher: &mut Sha256, value: u32)
    ensures { Feeds hasher.old hasher.new (forms.u32.spell value) }
{
    feed_raw(hasher, &value.to_le_bytes());
}

#[tactic(auto, unfolding(ante_pack::specs::Packed::u64))]
pub(crate) fn feed_u64(hasher: &mut Sha256, value: u64)
    ensures { Feeds hasher.old hasher.new (forms.u64.spell value) }
{
    feed_raw(hasher, &value.to_le_bytes());
}

pub(crate) fn feed_u128(hasher: &mut Sha256, value: u128)
    ensures { Feeds hasher.old hasher.new (packed_key128 value) }
{
    feed_raw(hasher, &value.to_le_bytes());
}

#[tactic(auto, unfolding(ante_pack::specs::Packed::name))]
pub(crate) fn feed_name(hasher: &mut Sha256, value: Name)
    ensures { Feeds hasher.old hasher.new (forms.name.spell value) }
{
    feed_u64(hasher, value.0);
}

#[tactic(auto, unfolding(ante_pack::specs::Packed::digest))]
pub(crate) fn feed_digest(hasher: &mut Sha256, value: &[u8; 32])
    ensures { Feeds hasher.old hasher.new (forms.digest.spell value.now) }
{
    feed_raw(hasher, value);
}

#[tactic(auto, unfolding(ante_pack::specs::Packed::key))]
pub(crate) fn feed_key(hasher: &mut Sha256, value: &[u8; 34])
    ensures { Feeds hasher.old hasher.new (forms.key.spell value.now) }
{
    feed_raw(hasher, value);
}

/// LEB128, in the shortest spelling.
pub(crate) fn feed_varuint(hasher: &mut Sha256, value: u32)
    ensures { Feeds hasher.old hasher.new (varuint.spell value) }
{
    let mut left = value;
    while left >= 128 {
        feed_raw(hasher, &[128 + (left % 128) as u8]);
        left /= 128;
    }
    feed_raw(hasher, &[left as u8]);
}

/// A length or a count, by its remainder where it is larger.
pub(crate) fn feed_count(hasher: &mut Sha256, count: usize)
    ensures { Feeds hasher.old hasher.new (varuint.spell (count % 2 ^ 32)) }
{
    feed_varuint(hasher, (count % COUNTS) as u32);
}

/// A length and the bytes.
#[tactic(auto, using(crate::proofs::Fed::onto))]
pub(crate) fn feed_sized(hasher: &mut Sha256, bytes: &[u8])
    ensures { Feeds hasher.old hasher.new (sized bytes.now) }
{
    feed_count(hasher, bytes.len());
    feed_raw(hasher, bytes);
}

/// A value that is fed into a hasher in its packed form.
pub(crate) trait Fed {
    ghost packed: { Self → List ℕ };

    fn feed(&self, hasher: &mut Sha256)
        ensures { Feeds hasher.old hasher.new (packed self.now) };
}

fn feed_items<T: Fed>(hasher: &mut Sha256, items: &[T])
    ensures { Feeds hasher.old hasher.new (flat_map T.packed items.now) }
{
    for item in items {
        item.feed(hasher);
    }
}

/// A count and the items.
#[tactic(auto, using(crate::proofs::Fed::onto))]
pub(crate) fn feed_seq<T: Fed>(hasher: &mut Sha256, items: &Seq<T>)
    ensures { Feeds hasher.old hasher.new (counted T.packed items.now) }
{
    feed_count(hasher, items.len());
    feed_items(hasher, items.as_slice());
}
