// The calls that write rows.
ghost use Rattle.std.specs.Prelude.{◌≡◌, ℕ, ◌+◌, ◌<◌, ◌^◌, length};
ghost use Rattle.ante_calls.specs.Calls.{replies};
ghost use Rattle.ante_calls.specs.IndexCalls as definitions;
ghost use Rattle.ante_calls.specs.RowAnswers.{view_of};
ghost use Rattle.ante_calls.specs.Views.{base_of, ReadyFor};
ghost use Rattle.ante_idxcalls.specs.Keyed.{stored_by, updated_by};
ghost use Rattle.ante_rowcalls.specs.RowCalls.{AnswersRow};
ghost use Rattle.ante_wmem.specs.Linear.{LinearMemory};

use crate::key_args::key_written;
use crate::keys::IndexKey;
use crate::replies::refused;
use ante_arguments::{arg, name_arg, signed_arg};
use ante_calls::IndexCall;
use ante_idxapi::{db_idx_remove, db_idx_store, db_idx_update};
use ante_itercache::Iters;
use ante_rowcalls::word_of;
use ante_store::Tables;
use ante_types::{Failure, RunContext};
use ante_wmem::{HostAnswer, Memory};
use std::alloc::Global;

fn store_key<T: Tables, K: IndexKey>(
    args: &[u64],
    key: K,
    run: &RunContext,
    iters: &mut Iters,
    tables: &mut T,
    alloc: Global,
) -> HostAnswer<Failure>
    requires ready { ReadyFor run.now.mode (T.stack tables.old) (T.writing tables.old) }
    requires room_for_table { length iters.old.tables + 1 < 2 ^ 31 }
    requires room_for_row { length iters.old.rows < 2 ^ 31 }
    ensures answer { (m : LinearMemory) (left : ℕ) →
        AnswersRow (replies (stored_by K.form K.index run.now args.now m (view_of (T.stack tables.old) iters.old) key) left) result
        (view_of (T.stack tables.old) iters.old) (view_of (T.stack tables.new) iters.new) m left }
    ensures base { base_of (T.stack tables.new) (T.writing tables.new) (T.lent tables.new) ≡
        base_of (T.stack tables.old) (T.writing tables.old) (T.lent tables.old) }
{
    let scope = name_arg(args, 0);
    let table = name_arg(args, 1);
    let payer = name_arg(args, 2);
    let primary = arg(args, 3);
    match db_idx_store(alloc, tables, iters, run, scope, table, payer, primary, key) {
        Ok(it) => HostAnswer::Value(word_of(it)),
        Err(fault) => refused::<K>(alloc, IndexCall::Store, fault),
    }
}

pub(crate) fn store<T: Tables, K: IndexKey>(
    args: &[u64],
    memory: &Memory,
    run: &RunContext,
    iters: &mut Iters,
    tables: &mut T,
    alloc: Global,
) -> HostAnswer<Failure>
    requires ready { ReadyFor run.now.mode (T.stack tables.old) (T.writing tables.old) }
    requires room_for_table { length iters.old.tables + 1 < 2 ^ 31 }
    requires room_for_row { length iters.old.rows < 2 ^ 31 }
    ensures answer { (left : ℕ) → AnswersRow (definitions.idx_store K.form K.index run.now (view_of (T.stack tables.old) iters.old) args.now memory.now left) result
        (view_of (T.stack tables.old) iters.old) (view_of (T.stack tables.new) iters.new) memory.now left }
    ensures base { base_of (T.stack tables.new) (T.writing tables.new) (T.lent tables.new) ≡
        base_of (T.stack tables.old) (T.writing tables.old) (T.lent tables.old) }
{
    match key_written::<K>(IndexCall::Store, args, 4, memory, run, alloc) {
        Ok(key) => store_key(args, key, run, iters, tables, alloc),
        Err(answer) => answer,
    }
}

fn update_key<T: Tables, K: IndexKey>(
    args: &[u64],
    key: K,
    run: &RunContext,
    iters: &mut Iters,
    tables: &mut T,
    alloc: Global,
) -> HostAnswer<Failure>
    requires ready { ReadyFor run.now.mode (T.stack tables.old) (T.writing tables.old) }
    ensures answer { (m : LinearMemory) (left : ℕ) →
        AnswersRow (replies (updated_by K.form K.index run.now args.now m (view_of (T.stack tables.old) iters.old) key) left) result
        (view_of (T.stack tables.old) iters.old) (view_of (T.stack tables.new) iters.new) m left }
    ensures base { base_of (T.stack tables.new) (T.writing tables.new) (T.lent tables.new) ≡
        base_of (T.stack tables.old) (T.writing tables.old) (T.lent tables.old) }
{
    let it = signed_arg(args, 0);
    match db_idx_update(alloc, tables, iters, run, it, name_arg(args, 1), key) {
        Ok(()) => HostAnswer::Nothing,
        Err(fault) => refused::<K>(alloc, IndexCall::Update, fault),
    }
}

pub(crate) fn update<T: Tables, K: IndexKey>(
    args: &[u64],
    memory: &Memory,
    run: &RunContext,
    iters: &mut Iters,
    tables: &mut T,
    alloc: Global,
) -> HostAnswer<Failure>
    requires ready { ReadyFor run.now.mode (T.stack tables.old) (T.writing tables.old) }
    ensures answer { (left : ℕ) → AnswersRow (definitions.idx_update K.form K.index run.now (view_of (T.stack tables.old) iters.old) args.now memory.now left) result
        (view_of (T.stack tables.old) iters.old) (view_of (T.stack tables.new) iters.new) memory.now left }
    ensures base { base_of (T.stack tables.new) (T.writing tables.new) (T.lent tables.new) ≡
        base_of (T.stack tables.old) (T.writing tables.old) (T.lent tables.old) }
{
    match key_written::<K>(IndexCall::Update, args, 2, memory, run, alloc) {
        Ok(key) => update_key(args, key, run, iters, tables, alloc),
        Err(answer) => answer,
    }
}

pub(crate) fn remove<T: Tables, K: IndexKey>(
    args: &[u64],
    run: &RunContext,
    iters: &mut Iters,
    tables: &mut T,
    alloc: Global,
) -> HostAnswer<Failure>
    requires ready { ReadyFor run.now.mode (T.stack tables.old) (T.writing tables.old) }
    ensures answer { (m : LinearMemory) (left : ℕ) →
        AnswersRow (definitions.idx_remove K.form K.index run.now (view_of (T.stack tables.old) iters.old) args.now m left) result
        (view_of (T.stack tables.old) iters.old) (view_of (T.stack tables.new) iters.new) m left }
    ensures base { base_of (T.stack tables.new) (T.writing tables.new) (T.lent tables.new) ≡
        base_of (T.stack tables.old) (T.writing tables.old) (T.lent tables.old) }
{
    match db_idx_remove::<T, K>(alloc, tables, iters, run, signed_arg(args, 0)) {
        Ok(()) => HostAnswer::Nothing,
        Err(fault) => refused::<K>(alloc, IndexCall::Remove, fault),
    }
}
