// Hashes of bytes in the memory.
ghost use Rattle.std.specs.Prelude.{◌≡◌, ◌≤◌};
ghost use Rattle.ante_calls.specs.Hashes as hashes;
ghost use Rattle.ante_sysapi.specs.Answers.{Tells};
ghost use Rattle.sha2.specs.Sha256.{sha256};

use ante_arguments::{arg32, bytes_from, pay, put, range};
use ante_pack::Bytes;
use ante_types::Failure;
use ante_wmem::{HostAnswer, Memory};
use sha2::{Digest, Sha256};
use std::alloc::Global;

const DIGEST_SIZE: u32 = 32;

pub(crate) fn sha256_call(args: &[u64], memory: &mut Memory, left: &mut u64) -> HostAnswer<Failure>
    ensures answer { Tells (λ v. hashes.sha256_call v args.now memory.old left.old) result memory.new left.new }
    ensures falls { left.new ≤ left.old }
{
    let Some(bytes) = range(args, 0, memory) else {
        return HostAnswer::Refused(Failure::BadPointer);
    };
    let Some(_) = bytes_from(args, 2, DIGEST_SIZE, memory) else {
        return HostAnswer::Refused(Failure::BadPointer);
    };
    if !pay(left, bytes.len()) {
        return HostAnswer::StepLimit;
    }
    let digest = Sha256::digest(bytes);
    put(memory, arg32(args, 2), &digest);
    HostAnswer::Nothing
}

pub(crate) fn assert_sha256(
    args: &[u64],
    memory: &Memory,
    alloc: Global,
    left: &mut u64,
) -> HostAnswer<Failure>
    ensures answer { Tells (λ v. hashes.assert_sha256 v args.now memory.now left.old) result memory.now left.new }
    ensures falls { left.new ≤ left.old }
{
    let Some(bytes) = range(args, 0, memory) else {
        return HostAnswer::Refused(Failure::BadPointer);
    };
    let Some(hash) = bytes_from(args, 2, DIGEST_SIZE, memory) else {
        return HostAnswer::Refused(Failure::BadPointer);
    };
    if !pay(left, bytes.len()) {
        return HostAnswer::StepLimit;
    }
    let digest = Sha256::digest(bytes);
    if digest.as_slice() == hash {
        return HostAnswer::Nothing;
    }
    match Bytes::from_slice(alloc, b"hash mismatch") {
        Ok(message) => HostAnswer::Refused(Failure::Assert { message }),
        Err(_) => HostAnswer::OutOfMemory,
    }
}
