// How a call shows what it came to.
ghost use Rattle.std.specs.Prelude.{◌≡◌, ℕ, true};
ghost use Rattle.ante_calls.specs.Calls as calls;
ghost use Rattle.ante_calls.specs.Calls.{replies};
ghost use Rattle.ante_calls.specs.IndexCalls.{after_key};
ghost use Rattle.ante_calls.specs.RowReplies.{iterator_and_primary};
ghost use Rattle.ante_calls.specs.Views.{RowView};
ghost use Rattle.ante_idxcalls.specs.Keyed.{iterator_and_key, shows_bound};
ghost use Rattle.ante_idxcalls.specs.Names.{name_of_call};
ghost use Rattle.ante_rowcalls.specs.RowCalls.{AnswersRow, ShowsFault};
ghost use Rattle.ante_wmem.specs.Linear.{is_inside};

use crate::key_args::{KEY, primary_at};
use crate::keys::IndexKey;
use ante_arguments::{arg32, put};
use ante_calls::{DbFault, IndexCall};
use ante_rowcalls::{neighbour, word_of};
use ante_types::Failure;
use ante_wmem::{HostAnswer, Memory};
use std::alloc::Global;

/// The failure of this call.
pub(crate) fn refused<K: IndexKey>(
    alloc: Global,
    call: IndexCall,
    fault: DbFault,
) -> HostAnswer<Failure>
    ensures { ShowsFault (name_of_call K.form K.index call) fault result }
{
    ante_rowcalls::refused(alloc, K::name_of(call), fault)
}

/// The iterator of the row that was found, with its secondary key where a search wants it.
pub(crate) fn with_key<K: IndexKey>(
    args: &[u64],
    memory: &mut Memory,
    found: (i32, Option<K>),
) -> HostAnswer<Failure>
    requires { is_inside memory.old.bytes (calls.arg32 args.now 3) K.form.size ≡ true }
    ensures { (old v : RowView) (left : ℕ) →
        AnswersRow (replies (iterator_and_key K.form (calls.arg32 args.now 3) memory.old found v) left) result old v memory.new left }
{
    let (it, key) = found;
    if let Some(key) = key {
        key.put(memory, arg32(args, KEY));
    }
    HostAnswer::Value(word_of(it))
}

/// The iterator of the row that was found, with its primary key.
pub(crate) fn with_primary<K: IndexKey>(
    args: &[u64],
    memory: &mut Memory,
    found: (i32, Option<u64>),
) -> HostAnswer<Failure>
    requires { is_inside memory.old.bytes (calls.arg32 args.now (after_key K.form K.index 3)) 8 ≡ true }
    ensures { (old v : RowView) (left : ℕ) →
        AnswersRow (replies (iterator_and_primary (calls.arg32 args.now (after_key K.form K.index 3)) memory.old found v) left) result old v memory.new left }
{
    neighbour(memory, primary_at::<K>(args), found)
}

/// The iterator of the row that was found, with its two keys. Where their ranges meet, the primary key stands last.
pub(crate) fn with_both<K: IndexKey>(
    args: &[u64],
    memory: &mut Memory,
    found: (i32, Option<(K, u64)>),
) -> HostAnswer<Failure>
    requires inside { is_inside memory.old.bytes (calls.arg32 args.now 3) K.form.size ≡ true }
    requires primary { is_inside memory.old.bytes (calls.arg32 args.now (after_key K.form K.index 3)) 8 ≡ true }
    ensures { (old v : RowView) (left : ℕ) → AnswersRow (replies (shows_bound K.form K.index args.now memory.old (found, v)) left) result old v memory.new left }
{
    let (it, keys) = found;
    if let Some((key, primary)) = keys {
        key.put(memory, arg32(args, KEY));
        put(memory, primary_at::<K>(args), &primary.to_le_bytes());
    }
    HostAnswer::Value(word_of(it))
}
