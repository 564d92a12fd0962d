ghost use Rattle.std.specs.Prelude.{◌≡◌, bytes_eq};
ghost use Rattle.ante_verdicts.specs.Named.{named_key, key_text};

use crate::verdicts::Verdicts;
use std::alloc::{AllocError, Global};

/// Names in place of cryptography: a signature is `KEY_` and its key in lower-case hex, and each seal is `OK`.
#[derive(Clone, Copy, Debug, PartialEq, Eq)]
pub struct NamedVerdicts;

const SEAL: [u8; 2] = *b"OK";

impl Verdicts for NamedVerdicts {
    ghost use Rattle.std.proofs.Common.{arith, refl};
    ghost use Rattle.ante_verdicts.specs.Named.{named_judge};

    ghost judge = { λ v. named_judge };

    ghost seals = { λ v producer id. (Prim.omega arith, Prim.omega arith, refl) };

    fn recover(&self, _digest: &[u8; 32], signature: &[u8]) -> Option<[u8; 34]> {
        key_of(signature)
    }

    fn block_ok(&self, _producer: u64, _id: &[u8; 32], seal: &[u8]) -> bool {
        seal == SEAL.as_slice()
    }

    fn seal(&self, alloc: Global, _producer: u64, _id: &[u8; 32]) -> Result<Vec<u8>, AllocError> {
        Vec::from_slice(alloc, SEAL.as_slice())
    }
}

/// The key that a signature names.
fn key_of(signature: &[u8]) -> Option<[u8; 34]>
    ensures { result ≡ named_key signature.now }
{
    let mut key = [0; 34];
    if signature.len() != 72 {
        return None;
    }
    let (_, digits) = signature.split_at(4);
    if hex::decode_to_slice(digits, &mut key).is_err() {
        return None;
    }
    if names(signature, &key) {
        Some(key)
    } else {
        None
    }
}

/// Whether the signature is the key's text.
fn names(signature: &[u8], key: &[u8; 34]) -> bool
    ensures { result ≡ bytes_eq signature.now (key_text key.now) }
{
    let mut text = [0; 72];
    let (front, digits) = text.split_at_mut(4);
    front.copy_from_slice(b"KEY_");
    if hex::encode_to_slice(key.as_slice(), digits).is_err() {
        return false;
    }
    signature == text.as_slice()
}
