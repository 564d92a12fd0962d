ghost use Rattle.std.specs.Prelude.{◌≡◌, ◌+◌, ◌<◌, ◌^◌, ◌++◌, drop, IfOk};
ghost use Rattle.std.specs.Int.{w32, to_be_bytes};
ghost use Rattle.sha2.specs.Sha256.{sha256};
ghost use Rattle.ante_pack.specs.Forms.{list_of};
ghost use Rattle.ante_types.specs.Chain.{header, receipt};
ghost use Rattle.ante_types.specs.Ids as ids;

use crate::chain::{Header, Receipt};
use ante_pack::{Digest, PackWriter, Seq, write_seq_fields};
use sha2::{Digest as _, Sha256};
use std::alloc::{AllocError, Global};

/// A transaction's id, the SHA-256 of its packed form.
pub fn trx_id(packed: &[u8]) -> Digest
    ensures { result ≡ sha256 packed.now }
{
    Sha256::digest(packed)
}

/// What the signers of a transaction sign.
#[tactic(auto, unfolding(crate::specs::Ids::signing_digest))]
pub fn signing_digest(chain_id: &Digest, packed: &[u8]) -> Digest
    ensures { result ≡ ids.signing_digest chain_id.now packed.now }
{
    let mut hasher = Sha256::new();
    hasher.update(chain_id.as_slice());
    hasher.update(packed);
    hasher.update([0; 32].as_slice());
    hasher.finalize()
}

/// The SHA-256 of the packed list of receipts.
#[tactic(auto, unfolding(crate::specs::Ids::trx_root))]
pub fn trx_root(alloc: Global, receipts: &Seq<Receipt>) -> Result<Digest, AllocError>
    requires { (list_of receipt).Fits receipts.now }
    ensures { IfOk result (λ root. root ≡ ids.trx_root receipts.now) }
{
    let mut writer = PackWriter::new(alloc);
    write_seq_fields(alloc, &mut writer, receipts)?;
    Ok(Sha256::digest(writer.as_slice()))
}

/// A block's number, by its id.
#[tactic(auto, unfolding(crate::specs::Ids::block_num))]
pub fn block_num(id: &Digest) -> u32
    ensures { result ≡ ids.block_num id.now }
{
    u32::from_be_bytes([id[0], id[1], id[2], id[3]])
}

/// A block's id: its number, and the digest of its packed header from the fifth byte on. The number fits where the
/// predecessor's is below 2^32 - 1.
#[tactic(auto, unfolding(crate::specs::Ids::block_id))]
pub fn block_id(header: &Header) -> Digest
    requires { ids.block_num header.now.previous + 1 < 2 ^ 32 }
    ensures { result ≡ ids.block_id header.now }
{
    let num = block_num(&header.previous) + 1;
    numbered(num, header_digest(header))
}

fn numbered(num: u32, digest: Digest) -> Digest
    ensures { result ≡ to_be_bytes w32 num ++ drop 4 digest }
{
    let mut id = digest;
    let (front, _) = id.split_at_mut(4);
    front.copy_from_slice(&num.to_be_bytes());
    id
}

/// The SHA-256 of the packed header, without taking memory.
fn header_digest(h: &Header) -> Digest
    ensures { result ≡ sha256 (header.spell h.now) }
{
    let mut hasher = Sha256::new();
    hasher.update(h.slot.to_le_bytes().as_slice());
    hasher.update(h.producer.0.to_le_bytes().as_slice());
    hasher.update(h.previous.as_slice());
    hasher.update(h.trx_root.as_slice());
    hasher.finalize()
}
