// How the keys of an index stand in memory and among the arguments, and what its calls are named.
ghost use Rattle.std.specs.Prelude.{◌≡◌, ◌<◌, ◌++◌, length, true, IsTrue};
ghost use Rattle.std.specs.Int.{w64, w128, from_le_bytes, to_le_bytes};
ghost use Rattle.ante_calls.specs.IndexCalls as definitions;
ghost use Rattle.ante_types.specs.Labels.{is_label};
ghost use Rattle.ante_wmem.specs.Linear.{is_inside, written};
ghost use Rattle.ante_idxcalls.specs.Names.{name_of_call};

use ante_arguments::{arg32, put};
use ante_calls::IndexCall;
use ante_idxapi::Indexed;
use ante_pack::Key256;
use ante_types::Failure;
use ante_wmem::Memory;

/// A secondary key as a contract passes it: by its address, behind which the count of its words may stand.
pub trait IndexKey: Indexed {
    /// The bytes of a key.
    fn size() -> u32
        ensures { result ≡ Self.form.size };

    /// The key that these bytes are.
    fn of_bytes(bytes: &[u8]) -> Self
        requires { length bytes.now ≡ Self.form.size }
        ensures { result ≡ Self.form.of_bytes bytes.now };

    /// Puts the key into a range that lies in the memory.
    fn put(self, memory: &mut Memory, at: u32)
        requires inside { is_inside memory.old.bytes at Self.form.size ≡ true }
        ensures written { memory.new ≡ written memory.old at (Self.form.bytes self) }
        ensures size { length memory.new.bytes ≡ length memory.old.bytes };

    /// Why the key whose address this argument is can't be of this width, if it can't.
    fn refusal(args: &[u64], at: usize) -> Option<Failure>
        requires { at < 1000 }
        ensures { result ≡ definitions.key_refusal Self.form Self.index at args.now };

    /// The place of the argument behind the key whose address this one is.
    fn after(at: usize) -> usize
        requires { at < 1000 }
        ensures { result ≡ definitions.after_key Self.form Self.index at };

    /// The call's name as an import.
    fn name_of(call: IndexCall) -> &'static [u8]
        ensures name { result.now ≡ name_of_call Self.form Self.index call }
        ensures label { IsTrue (is_label result.now) };
}

// The number in eight bytes.
fn word_of(bytes: &[u8]) -> u64
    requires { length bytes.now ≡ 8 }
    ensures { result ≡ from_le_bytes w64 bytes.now }
{
    match bytes.first_chunk::<8>() {
        Some(bytes) => u64::from_le_bytes(*bytes),
        None => unreachable!(),
    }
}

// The number in 16 bytes.
fn wide_of(bytes: &[u8]) -> u128
    requires { length bytes.now ≡ 16 }
    ensures { result ≡ from_le_bytes w128 bytes.now }
{
    match bytes.first_chunk::<16>() {
        Some(bytes) => u128::from_le_bytes(*bytes),
        None => unreachable!(),
    }
}

impl IndexKey for u64 {
    fn size() -> u32 {
        8
    }

    fn of_bytes(bytes: &[u8]) -> u64 {
        word_of(bytes)
    }

    fn put(self, memory: &mut Memory, at: u32) {
        put(memory, at, &self.to_le_bytes());
    }

    fn refusal(_args: &[u64], _at: usize) -> Option<Failure> {
        None
    }

    fn after(at: usize) -> usize {
        at + 1
    }

    fn name_of(call: IndexCall) -> &'static [u8] {
        match call {
            IndexCall::Store => b"db_idx64_store",
            IndexCall::Update => b"db_idx64_update",
            IndexCall::Remove => b"db_idx64_remove",
            IndexCall::Next => b"db_idx64_next",
            IndexCall::Previous => b"db_idx64_previous",
            IndexCall::FindPrimary => b"db_idx64_find_primary",
            IndexCall::FindSecondary => b"db_idx64_find_secondary",
            IndexCall::LowerBound => b"db_idx64_lowerbound",
            IndexCall::UpperBound => b"db_idx64_upperbound",
            IndexCall::End => b"db_idx64_end",
        }
    }
}

impl IndexKey for u128 {
    fn size() -> u32 {
        16
    }

    fn of_bytes(bytes: &[u8]) -> u128 {
        wide_of(bytes)
    }

    fn put(self, memory: &mut Memory, at: u32) {
        put(memory, at, &self.to_le_bytes());
    }

    fn refusal(_args: &[u64], _at: usize) -> Option<Failure> {
        None
    }

    fn after(at: usize) -> usize {
        at + 1
    }

    fn name_of(call: IndexCall) -> &'static [u8] {
        match call {
            IndexCall::Store => b"db_idx128_store",
            IndexCall::Update => b"db_idx128_update",
            IndexCall::Remove => b"db_idx128_remove",
            IndexCall::Next => b"db_idx128_next",
            IndexCall::Previous => b"db_idx128_previous",
            IndexCall::FindPrimary => b"db_idx128_find_primary",
            IndexCall::FindSecondary => b"db_idx128_find_secondary",
            IndexCall::LowerBound => b"db_idx128_lowerbound",
            IndexCall::UpperBound => b"db_idx128_upperbound",
            IndexCall::End => b"db_idx128_end",
        }
    }
}

// The words' bytes.
fn bytes_of(key: Key256) -> [u8; 32]
    ensures { result ≡ to_le_bytes w128 key.first ++ to_le_bytes w128 key.second }
{
    let mut bytes = [0; 32];
    let (first, second) = bytes.split_at_mut(16);
    first.copy_from_slice(&key.first.to_le_bytes());
    second.copy_from_slice(&key.second.to_le_bytes());
    bytes
}

/// The words of a 256-bit key.
const WORDS: u32 = 2;

impl IndexKey for Key256 {
    fn size() -> u32 {
        32
    }

    fn of_bytes(bytes: &[u8]) -> Key256 {
        let (first, second) = bytes.split_at(16);
        Key256 {
            first: wide_of(first),
            second: wide_of(second),
        }
    }

    fn put(self, memory: &mut Memory, at: u32) {
        put(memory, at, &bytes_of(self));
    }

    fn refusal(args: &[u64], at: usize) -> Option<Failure> {
        let count = arg32(args, at + 1);
        if count == WORDS {
            None
        } else {
            Some(Failure::KeyLength { count })
        }
    }

    fn after(at: usize) -> usize {
        at + 2
    }

    fn name_of(call: IndexCall) -> &'static [u8] {
        match call {
            IndexCall::Store => b"db_idx256_store",
            IndexCall::Update => b"db_idx256_update",
            IndexCall::Remove => b"db_idx256_remove",
            IndexCall::Next => b"db_idx256_next",
            IndexCall::Previous => b"db_idx256_previous",
            IndexCall::FindPrimary => b"db_idx256_find_primary",
            IndexCall::FindSecondary => b"db_idx256_find_secondary",
            IndexCall::LowerBound => b"db_idx256_lowerbound",
            IndexCall::UpperBound => b"db_idx256_upperbound",
            IndexCall::End => b"db_idx256_end",
        }
    }
}
