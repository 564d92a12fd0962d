// The calls that go from row to row.
ghost use Rattle.std.specs.Prelude.{◌≡◌, ℕ, ◌+◌, ◌<◌, ◌^◌, length};
ghost use Rattle.ante_calls.specs.IndexCalls as definitions;
ghost use Rattle.ante_calls.specs.RowAnswers.{view_of};
ghost use Rattle.ante_rowcalls.specs.RowCalls.{AnswersRow};

use crate::key_args::PRIMARY_SIZE;
use crate::keys::IndexKey;
use crate::replies::refused;
use ante_arguments::{arg32, bytes_from, signed_arg};
use ante_calls::IndexCall;
use ante_idxapi::{db_idx_next, db_idx_previous};
use ante_itercache::Iters;
use ante_rowcalls::neighbour;
use ante_store::Tables;
use ante_types::{Failure, RunContext};
use ante_wmem::{HostAnswer, Memory};
use std::alloc::Global;

pub(crate) fn next<T: Tables, K: IndexKey>(
    args: &[u64],
    memory: &mut Memory,
    run: &RunContext,
    iters: &mut Iters,
    tables: &mut T,
    alloc: Global,
) -> HostAnswer<Failure>
    requires room_for_table { length iters.old.tables + 1 < 2 ^ 31 }
    requires room_for_row { length iters.old.rows < 2 ^ 31 }
    ensures answer { (left : ℕ) → AnswersRow (definitions.idx_next K.form K.index (view_of (T.stack tables.old) iters.old) args.now memory.old left) result
        (view_of (T.stack tables.old) iters.old) (view_of (T.stack tables.new) iters.new) memory.new left }
    ensures tables { tables.new ≡ tables.old }
{
    let Some(_primary) = bytes_from(args, 1, PRIMARY_SIZE, memory) else {
        return HostAnswer::Refused(Failure::BadPointer);
    };
    match db_idx_next::<T, K>(alloc, tables, iters, run, signed_arg(args, 0)) {
        Ok(met) => neighbour(memory, arg32(args, 1), met),
        Err(fault) => refused::<K>(alloc, IndexCall::Next, fault),
    }
}

pub(crate) fn previous<T: Tables, K: IndexKey>(
    args: &[u64],
    memory: &mut Memory,
    run: &RunContext,
    iters: &mut Iters,
    tables: &mut T,
    alloc: Global,
) -> HostAnswer<Failure>
    requires room_for_row { length iters.old.rows < 2 ^ 31 }
    ensures answer { (left : ℕ) → AnswersRow (definitions.idx_previous K.form K.index (view_of (T.stack tables.old) iters.old) args.now memory.old left) result
        (view_of (T.stack tables.old) iters.old) (view_of (T.stack tables.new) iters.new) memory.new left }
    ensures tables { tables.new ≡ tables.old }
{
    let Some(_primary) = bytes_from(args, 1, PRIMARY_SIZE, memory) else {
        return HostAnswer::Refused(Failure::BadPointer);
    };
    match db_idx_previous::<T, K>(alloc, tables, iters, run, signed_arg(args, 0)) {
        Ok(met) => neighbour(memory, arg32(args, 1), met),
        Err(fault) => refused::<K>(alloc, IndexCall::Previous, fault),
    }
}
