// The key that arguments name. Its range is looked at first, and the count of its words last.
ghost use Rattle.std.specs.Prelude.{◌≡◌, ◌<◌, true, IfOk};
ghost use Rattle.ante_calls.specs.Calls as calls;
ghost use Rattle.ante_calls.specs.IndexCalls.{after_key};
ghost use Rattle.ante_idxcalls.specs.Keyed.{with_key, with_keys, with_written, HasKey};
ghost use Rattle.ante_idxcalls.specs.Names.{name_of_call};
ghost use Rattle.ante_wmem.specs.Linear.{is_inside};

use crate::keys::IndexKey;
use crate::replies::refused;
use ante_arguments::{arg, arg32, bytes_from};
use ante_calls::{DbFault, IndexCall};
use ante_types::{Failure, Mode, RunContext};
use ante_wmem::{HostAnswer, Memory};
use std::alloc::Global;

/// The place of the key's address in a search.
pub(crate) const KEY: usize = 3;

/// The bytes of a primary key.
pub(crate) const PRIMARY_SIZE: u32 = 8;

/// The primary key that a search passes behind the other key.
pub(crate) fn primary_arg<K: IndexKey>(args: &[u64]) -> u64
    ensures { result ≡ calls.arg args.now (after_key K.form K.index 3) }
{
    arg(args, K::after(KEY))
}

/// The address of a primary key, behind the other key.
pub(crate) fn primary_at<K: IndexKey>(args: &[u64]) -> u32
    ensures { result ≡ calls.arg32 args.now (after_key K.form K.index 3) }
{
    arg32(args, K::after(KEY))
}

/// The key of a search by the primary key: only its range matters.
pub(crate) fn key_alone<K: IndexKey>(
    args: &[u64],
    memory: &Memory,
) -> Result<K, HostAnswer<Failure>>
    ensures key { HasKey (with_key K.form K.index args.now memory.now) result memory.now }
    ensures inside { IfOk result (λ k. is_inside memory.now.bytes (calls.arg32 args.now 3) K.form.size ≡ true) }
{
    let Some(bytes) = bytes_from(args, KEY, K::size(), memory) else {
        return Err(HostAnswer::Refused(Failure::BadPointer));
    };
    match K::refusal(args, KEY) {
        Some(failure) => Err(HostAnswer::Refused(failure)),
        None => Ok(K::of_bytes(bytes)),
    }
}

/// The key of a search that tells a primary key too.
pub(crate) fn key_sought<K: IndexKey>(
    args: &[u64],
    memory: &Memory,
) -> Result<K, HostAnswer<Failure>>
    ensures key { HasKey (with_keys K.form K.index args.now memory.now) result memory.now }
    ensures inside { IfOk result (λ k. is_inside memory.now.bytes (calls.arg32 args.now 3) K.form.size ≡ true) }
    ensures primary { IfOk result (λ k. is_inside memory.now.bytes (calls.arg32 args.now (after_key K.form K.index 3)) 8 ≡ true) }
{
    let Some(bytes) = bytes_from(args, KEY, K::size(), memory) else {
        return Err(HostAnswer::Refused(Failure::BadPointer));
    };
    let Some(_primary) = bytes_from(args, K::after(KEY), PRIMARY_SIZE, memory) else {
        return Err(HostAnswer::Refused(Failure::BadPointer));
    };
    match K::refusal(args, KEY) {
        Some(failure) => Err(HostAnswer::Refused(failure)),
        None => Ok(K::of_bytes(bytes)),
    }
}

/// The key of a call that writes.
pub(crate) fn key_written<K: IndexKey>(
    call: IndexCall,
    args: &[u64],
    at: usize,
    memory: &Memory,
    run: &RunContext,
    alloc: Global,
) -> Result<K, HostAnswer<Failure>>
    requires { at < 1000 }
    ensures { HasKey (with_written K.form K.index (name_of_call K.form K.index call) run.now.mode at args.now memory.now) result memory.now }
{
    let Some(bytes) = bytes_from(args, at, K::size(), memory) else {
        return Err(HostAnswer::Refused(Failure::BadPointer));
    };
    if run.mode == Mode::Reading {
        return Err(refused::<K>(alloc, call, DbFault::WriteRefused));
    }
    match K::refusal(args, at) {
        Some(failure) => Err(HostAnswer::Refused(failure)),
        None => Ok(K::of_bytes(bytes)),
    }
}
