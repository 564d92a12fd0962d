ghost use Rattle.std.specs.Prelude.{◌≡◌, ◌≤◌, ◌+◌, ◌<◌, ◌^◌, length};
ghost use Rattle.ante_calls.specs.PrimaryCalls as definitions;
ghost use Rattle.ante_calls.specs.RowAnswers.{view_of};
ghost use Rattle.ante_calls.specs.Views.{base_of, ReadyFor};
ghost use Rattle.ante_rowcalls.specs.RowCalls.{AnswersRow};

use crate::{looking, walking, writing};
use ante_calls::RowCall;
use ante_itercache::Iters;
use ante_store::Tables;
use ante_types::{Failure, RunContext};
use ante_wmem::{HostAnswer, Memory};
use std::alloc::Global;

/// A call on primary rows. Where it goes no further (a refusal, StepLimit, want of memory), state and iterators are as before.
pub fn row_call<T: Tables>(
    call: RowCall,
    args: &[u64],
    memory: &mut Memory,
    run: &RunContext,
    iters: &mut Iters,
    tables: &mut T,
    alloc: Global,
    left: &mut u64,
) -> HostAnswer<Failure>
    requires ready { ReadyFor run.now.mode (T.stack tables.old) (T.writing tables.old) }
    requires room_for_table { length iters.old.tables + 1 < 2 ^ 31 }
    requires room_for_row { length iters.old.rows < 2 ^ 31 }
    ensures answer { AnswersRow (definitions.row_call call run.now (view_of (T.stack tables.old) iters.old) args.now memory.old left.old) result
        (view_of (T.stack tables.old) iters.old) (view_of (T.stack tables.new) iters.new) memory.new left.new }
    ensures falls { left.new ≤ left.old }
    ensures base { base_of (T.stack tables.new) (T.writing tables.new) (T.lent tables.new) ≡
        base_of (T.stack tables.old) (T.writing tables.old) (T.lent tables.old) }
{
    match call {
        RowCall::Store => writing::store(args, memory, run, iters, tables, alloc, left),
        RowCall::Update => writing::update(args, memory, run, iters, tables, alloc, left),
        RowCall::Remove => writing::remove(args, run, iters, tables, alloc),
        RowCall::Get => walking::get(args, memory, run, iters, tables, alloc, left),
        RowCall::Next => walking::next(args, memory, run, iters, tables, alloc),
        RowCall::Previous => walking::previous(args, memory, run, iters, tables, alloc),
        RowCall::Find => looking::find(args, run, iters, tables, alloc),
        RowCall::LowerBound => looking::lower_bound(args, run, iters, tables, alloc),
        RowCall::UpperBound => looking::upper_bound(args, run, iters, tables, alloc),
        RowCall::End => looking::end(args, run, iters, tables, alloc),
    }
}
