// How many bytes a block packs to.
ghost use Rattle.std.specs.Prelude.{◌≡◌, ℕ, ◌+◌, ◌*◌, ◌≤◌, ◌<◌, ◌^◌, length};
ghost use Rattle.std.specs.List.{flat_map};
ghost use Rattle.ante_pack.specs.Forms.{varuint, string};
ghost use Rattle.ante_types.specs.Chain.{receipt};
ghost use Rattle.ante_control.specs.Making.{receipt_of, most_block_bytes};
ghost use Rattle.ante_control.specs.Making as making;

use ante_pack::{Bytes, Seq};
use ante_types::Receipt;

/// The most bytes of a block.
const MOST_BLOCK_BYTES: u128 = 2_000_000;

/// The bytes of a header and of the longest seal.
const HEADER_AND_SEAL: u128 = 76 + 258;

/// Whether a receipt of the transaction fits in a block of these receipts, or is the first. Their bytes are counted already.
pub fn has_room(receipts: &[Receipt], size: u128, packed: &[u8], signatures: &Seq<Bytes>) -> bool
    requires bytes { size ≡ length (flat_map receipt.spell receipts.now) }
    requires small { size ≤ most_block_bytes }
    ensures { result ≡ making.has_room receipts.now packed.now signatures.now }
{
    if receipts.is_empty() {
        return true;
    }
    let count = count_size(receipts.len() as u128 + 1);
    HEADER_AND_SEAL + count + size + receipt_size(packed, signatures) <= MOST_BLOCK_BYTES
}

/// The bytes of a receipt of the transaction.
pub fn receipt_size(packed: &[u8], signatures: &Seq<Bytes>) -> u128
    ensures size { (steps : ℕ) → result ≡ length (receipt.spell (receipt_of steps packed.now signatures.now)) }
    ensures small { result ≤ 2 ^ 127 }
{
    let signatures = signatures.as_slice();
    4 + string_size(packed) + count_size(signatures.len() as u128) + strings_size(signatures)
}

// The bytes of the packed texts, without their count.
fn strings_size(texts: &[Bytes]) -> u128
    ensures size { result ≡ length (flat_map string.spell texts.now) }
    ensures small { result ≤ 2 ^ 65 * length texts.now }
{
    let mut size = 0;
    for text in texts {
        size += string_size(text.as_slice());
    }
    size
}

// The bytes of a packed text.
fn string_size(text: &[u8]) -> u128
    ensures size { result ≡ length (string.spell text.now) }
    ensures small { result ≤ 2 ^ 65 }
{
    let length = text.len() as u128;
    count_size(length) + length
}

// The bytes of a packed count.
fn count_size(count: u128) -> u128
    ensures size { result ≡ length (varuint.spell count) }
    ensures small { result ≤ 5 }
{
    if count < 128 {
        1
    } else if count < 16_384 {
        2
    } else if count < 2_097_152 {
        3
    } else if count < 268_435_456 {
        4
    } else {
        5
    }
}
