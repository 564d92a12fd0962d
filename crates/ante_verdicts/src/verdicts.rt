ghost use Rattle.std.specs.Prelude.{◌≡◌, ℕ, List, IfOk};
ghost use Rattle.ante_verdicts.specs.Judge.{Judge, IsSealed};

use std::alloc::{AllocError, Global};

/// Decides what signatures and seals mean. All answers are functions of what the object holds.
pub trait Verdicts {
    /// What it decides.
    ghost judge: { Self → Judge };

    /// The key that signed the digest, if the signature tells one.
    fn recover(&self, digest: &[u8; 32], signature: &[u8]) -> Option<[u8; 34]>
        ensures { result ≡ (judge self.now).recovers digest.now signature.now };

    /// Whether the seal is the producer's under the block of this id.
    fn block_ok(&self, producer: u64, id: &[u8; 32], seal: &[u8]) -> bool
        ensures { result ≡ (judge self.now).accepts producer id.now seal.now };

    /// The producer's seal under the block of this id.
    fn seal(&self, alloc: Global, producer: u64, id: &[u8; 32]) -> Result<Vec<u8>, AllocError>
        ensures { IfOk result (λ seal. seal.items ≡ (judge self.now).seals producer id.now) };

    /// A law: each seal that it sets is a short one that it accepts.
    ghost seals: { (v : Self) (producer : ℕ) (id : List ℕ) → IsSealed (judge v) producer id };
}
