ghost use Rattle.std.specs.Prelude.{◌≡◌, ◌≤◌, ◌+◌, ◌<◌, ◌^◌, length};
ghost use Rattle.ante_calls.specs.IndexCalls as definitions;
ghost use Rattle.ante_calls.specs.RowAnswers.{view_of};
ghost use Rattle.ante_calls.specs.Views.{base_of, ReadyFor};
ghost use Rattle.ante_rowcalls.specs.RowCalls.{AnswersRow};

use crate::keys::IndexKey;
use crate::{looking, walking, writing};
use ante_calls::IndexCall;
use ante_itercache::Iters;
use ante_store::Tables;
use ante_types::{Failure, RunContext};
use ante_wmem::{HostAnswer, Memory};
use std::alloc::Global;

/// A call on the rows of an index. Where it goes no further (a refusal, want of memory), state and iterators are as before.
pub fn index_call<T: Tables, K: IndexKey>(
    call: IndexCall,
    args: &[u64],
    memory: &mut Memory,
    run: &RunContext,
    iters: &mut Iters,
    tables: &mut T,
    alloc: Global,
    left: &mut u64,
) -> HostAnswer<Failure>
    requires ready { ReadyFor run.now.mode (T.stack tables.old) (T.writing tables.old) }
    requires room_for_table { length iters.old.tables + 1 < 2 ^ 31 }
    requires room_for_row { length iters.old.rows < 2 ^ 31 }
    ensures answer { AnswersRow (definitions.index_call K.form K.index call run.now (view_of (T.stack tables.old) iters.old) args.now memory.old left.old) result
        (view_of (T.stack tables.old) iters.old) (view_of (T.stack tables.new) iters.new) memory.new left.new }
    ensures falls { left.new ≤ left.old }
    ensures base { base_of (T.stack tables.new) (T.writing tables.new) (T.lent tables.new) ≡
        base_of (T.stack tables.old) (T.writing tables.old) (T.lent tables.old) }
{
    match call {
        IndexCall::Store => writing::store::<T, K>(args, memory, run, iters, tables, alloc),
        IndexCall::Update => writing::update::<T, K>(args, memory, run, iters, tables, alloc),
        IndexCall::Remove => writing::remove::<T, K>(args, run, iters, tables, alloc),
        IndexCall::Next => walking::next::<T, K>(args, memory, run, iters, tables, alloc),
        IndexCall::Previous => walking::previous::<T, K>(args, memory, run, iters, tables, alloc),
        IndexCall::FindPrimary => {
            looking::find_primary::<T, K>(args, memory, run, iters, tables, alloc)
        }
        IndexCall::FindSecondary => {
            looking::find_secondary::<T, K>(args, memory, run, iters, tables, alloc)
        }
        IndexCall::LowerBound => {
            looking::lower_bound::<T, K>(args, memory, run, iters, tables, alloc)
        }
        IndexCall::UpperBound => {
            looking::upper_bound::<T, K>(args, memory, run, iters, tables, alloc)
        }
        IndexCall::End => looking::end::<T, K>(args, run, iters, tables, alloc),
    }
}
