//! How many bytes signatures take when they are packed.
ghost use Rattle.std.specs.Prelude.{◌≡◌, ◌+◌, ◌≤◌, ◌^◌, length, nat_lt};
ghost use Rattle.ante_execution.specs.Transactions.{packed_size};
ghost use Rattle.ante_pack.specs.Forms.{string, varuint};
ghost use Rattle.ante_types.specs.Limits.{most_transaction_bytes};

use ante_pack::{Bytes, Seq};
use ante_types::limits::MOST_TRANSACTION_BYTES;

const MOST: u128 = MOST_TRANSACTION_BYTES as u128;

#[tactic(auto, unfolding(ante_pack::specs::Forms::varuint, ante_pack::specs::Forms::varuint_bytes))]
fn varuint_len(number: usize) -> u128
    ensures length { result ≡ length (varuint.spell number) }
    ensures small { result ≤ 5 }
{
    if number < 128 {
        1
    } else if number < 16_384 {
        2
    } else if number < 2_097_152 {
        3
    } else if number < 268_435_456 {
        4
    } else {
        5
    }
}

#[tactic(auto, unfolding(ante_pack::specs::Forms::string), using(crate::proofs::Lengths::both_lengths))]
fn string_len(bytes: &Bytes) -> u128
    ensures length { result ≡ length (string.spell bytes.now) }
    ensures small { result ≤ 2 ^ 64 + 5 }
{
    varuint_len(bytes.len()) + bytes.len() as u128
}

/// Whether the packed transaction and the packed list of signatures are too many bytes together.
pub(crate) fn is_too_big(packed: &[u8], signatures: &Seq<Bytes>) -> bool
    ensures { result ≡ nat_lt most_transaction_bytes (packed_size packed.now signatures.now) }
{
    let mut size = packed.len() as u128 + varuint_len(signatures.len());
    let mut rest = signatures.as_slice();
    'each: while let Some((signature, others)) = rest.split_first() {
        if size > MOST {
            return true;
        }
        size += string_len(signature);
        rest = others;
    }
    size > MOST
}
