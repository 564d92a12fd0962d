//! What a run has of its own.
ghost use Rattle.std.specs.Prelude.{◌≡◌, ◌≤◌, ◌+◌, ◌<◌, ◌^◌, length};
ghost use Rattle.ante_calls.specs.IndexCalls.{index_call, key64, key128, key256, rows64, rows128, rows256};
ghost use Rattle.ante_calls.specs.PrimaryCalls.{row_call};
ghost use Rattle.ante_calls.specs.RowAnswers.{view_of};
ghost use Rattle.ante_calls.specs.Views.{base_of, no_lists, ReadyFor};
ghost use Rattle.ante_host.specs.Owned.{lists_of};
ghost use Rattle.ante_rowcalls.specs.RowCalls.{AnswersRow};

use ante_calls::{IndexCall, RowCall};
use ante_idxcalls::index_call;
use ante_itercache::Iters;
use ante_pack::Key256;
use ante_rowcalls::row_call;
use ante_store::Tables;
use ante_types::{Failure, RunContext};
use ante_wmem::{HostAnswer, Memory};
use std::alloc::Global;

/// Its context, and the iterators of each kind of row that it has met.
#[derive(Drop)]
pub(crate) struct Own {
    pub(crate) run: RunContext,
    pub(crate) rows: Iters,
    pub(crate) index64: Iters,
    pub(crate) index128: Iters,
    pub(crate) index256: Iters,
}

impl Own {
    /// Nothing is met yet.
    pub(crate) fn new(alloc: Global, run: RunContext) -> Own
        ensures run { result.run ≡ run }
        ensures lists { lists_of result ≡ no_lists }
    {
        Own {
            run,
            rows: Iters::new(alloc),
            index64: Iters::new(alloc),
            index128: Iters::new(alloc),
            index256: Iters::new(alloc),
        }
    }

    pub(crate) fn on_rows<T: Tables>(
        &mut self,
        call: RowCall,
        args: &[u64],
        memory: &mut Memory,
        tables: &mut T,
        alloc: Global,
        left: &mut u64,
    ) -> HostAnswer<Failure>
        requires ready { ReadyFor self.old.run.mode (T.stack tables.old) (T.writing tables.old) }
        requires room_for_table { length self.old.rows.tables + 1 < 2 ^ 31 }
        requires room_for_row { length self.old.rows.rows < 2 ^ 31 }
        ensures answer { AnswersRow (row_call call self.old.run (view_of (T.stack tables.old) self.old.rows) args.now memory.old left.old) result
            (view_of (T.stack tables.old) self.old.rows) (view_of (T.stack tables.new) self.new.rows) memory.new left.new }
        ensures own { self.new ≡ record self.old { rows = self.new.rows } }
        ensures falls { left.new ≤ left.old }
        ensures base { base_of (T.stack tables.new) (T.writing tables.new) (T.lent tables.new) ≡
            base_of (T.stack tables.old) (T.writing tables.old) (T.lent tables.old) }
    {
        row_call(
            call,
            args,
            memory,
            &self.run,
            &mut self.rows,
            tables,
            alloc,
            left,
        )
    }

    pub(crate) fn on_index64<T: Tables>(
        &mut self,
        call: IndexCall,
        args: &[u64],
        memory: &mut Memory,
        tables: &mut T,
        alloc: Global,
        left: &mut u64,
    ) -> HostAnswer<Failure>
        requires ready { ReadyFor self.old.run.mode (T.stack tables.old) (T.writing tables.old) }
        requires room_for_table { length self.old.index64.tables + 1 < 2 ^ 31 }
        requires room_for_row { length self.old.index64.rows < 2 ^ 31 }
        ensures answer { AnswersRow (index_call key64 rows64 call self.old.run (view_of (T.stack tables.old) self.old.index64) args.now memory.old left.old) result
            (view_of (T.stack tables.old) self.old.index64) (view_of (T.stack tables.new) self.new.index64) memory.new left.new }
        ensures own { self.new ≡ record self.old { index64 = self.new.index64 } }
        ensures falls { left.new ≤ left.old }
        ensures base { base_of (T.stack tables.new) (T.writing tables.new) (T.lent tables.new) ≡
            base_of (T.stack tables.old) (T.writing tables.old) (T.lent tables.old) }
    {
        index_call::<T, u64>(
            call,
            args,
            memory,
            &self.run,
            &mut self.index64,
            tables,
            alloc,
            left,
        )
    }

    pub(crate) fn on_index128<T: Tables>(
        &mut self,
        call: IndexCall,
        args: &[u64],
        memory: &mut Memory,
        tables: &mut T,
        alloc: Global,
        left: &mut u64,
    ) -> HostAnswer<Failure>
        requires ready { ReadyFor self.old.run.mode (T.stack tables.old) (T.writing tables.old) }
        requires room_for_table { length self.old.index128.tables + 1 < 2 ^ 31 }
        requires room_for_row { length self.old.index128.rows < 2 ^ 31 }
        ensures answer { AnswersRow (index_call key128 rows128 call self.old.run (view_of (T.stack tables.old) self.old.index128) args.now memory.old left.old) result
            (view_of (T.stack tables.old) self.old.index128) (view_of (T.stack tables.new) self.new.index128) memory.new left.new }
        ensures own { self.new ≡ record self.old { index128 = self.new.index128 } }
        ensures falls { left.new ≤ left.old }
        ensures base { base_of (T.stack tables.new) (T.writing tables.new) (T.lent tables.new) ≡
            base_of (T.stack tables.old) (T.writing tables.old) (T.lent tables.old) }
    {
        index_call::<T, u128>(
            call,
            args,
            memory,
            &self.run,
            &mut self.index128,
            tables,
            alloc,
            left,
        )
    }

    pub(crate) fn on_index256<T: Tables>(
        &mut self,
        call: IndexCall,
        args: &[u64],
        memory: &mut Memory,
        tables: &mut T,
        alloc: Global,
        left: &mut u64,
    ) -> HostAnswer<Failure>
        requires ready { ReadyFor self.old.run.mode (T.stack tables.old) (T.writing tables.old) }
        requires room_for_table { length self.old.index256.tables + 1 < 2 ^ 31 }
        requires room_for_row { length self.old.index256.rows < 2 ^ 31 }
        ensures answer { AnswersRow (index_call key256 rows256 call self.old.run (view_of (T.stack tables.old) self.old.index256) args.now memory.old left.old) result
            (view_of (T.stack tables.old) self.old.index256) (view_of (T.stack tables.new) self.new.index256) memory.new left.new }
        ensures own { self.new ≡ record self.old { index256 = self.new.index256 } }
        ensures falls { left.new ≤ left.old }
        ensures base { base_of (T.stack tables.new) (T.writing tables.new) (T.lent tables.new) ≡
            base_of (T.stack tables.old) (T.writing tables.old) (T.lent tables.old) }
    {
        index_call::<T, Key256>(
            call,
            args,
            memory,
            &self.run,
            &mut self.index256,
            tables,
            alloc,
            left,
        )
    }
}
