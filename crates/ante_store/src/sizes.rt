// The size of a packed authority, found without packing it.
ghost use Rattle.std.specs.Prelude.{◌≡◌, ◌+◌, ◌*◌, ◌≤◌, ◌<◌, ◌^◌, length};
ghost use Rattle.std.specs.List.{flat_map};
ghost use Rattle.ante_pack.specs.Forms.{varuint};
ghost use Rattle.ante_pack.specs.Packed as forms;

use ante_pack::{Authority, KeyWeight};

/// The bytes of the packed authority.
pub(crate) fn authority_size(authority: &Authority) -> u128
    ensures size { result ≡ length (forms.authority.spell authority.now) }
    ensures small { result ≤ 2 ^ 127 }
{
    let keys = authority.keys.as_slice();
    let accounts = authority.accounts.len();
    let waits = authority.waits.len();
    4 + count_size(keys.len())
        + keys_size(keys)
        + count_size(accounts)
        + 18 * accounts as u128
        + count_size(waits)
        + 6 * waits as u128
}

// The bytes of a packed count.
fn count_size(count: usize) -> u128
    ensures size { result ≡ length (varuint.spell count) }
    ensures small { result ≤ 5 }
{
    if count < 128 {
        1
    } else if count < 16_384 {
        2
    } else if count < 2_097_152 {
        3
    } else if count < 268_435_456 {
        4
    } else {
        5
    }
}

// The bytes of the packed keys.
fn keys_size(keys: &[KeyWeight]) -> u128
    ensures size { result ≡ length (flat_map forms.key_weight.spell keys.now) }
    ensures small { result ≤ 2 ^ 66 * length keys.now }
{
    let mut size = 0;
    for key in keys {
        size += key_size(key);
    }
    size
}

// The bytes of one packed key with its weight.
fn key_size(key: &KeyWeight) -> u128
    ensures size { result ≡ length (forms.key_weight.spell key.now) }
    ensures small { result ≤ 2 ^ 66 }
{
    key.key.as_slice().len() as u128 + 2
}
