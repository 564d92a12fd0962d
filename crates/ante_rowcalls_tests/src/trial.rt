// A run on the store of the built-in genesis, with a memory of one page.
ghost use Rattle.std.specs.Prelude.{◌≡◌, ◌+◌, ◌<◌, ◌^◌, length, None, true};
ghost use Rattle.ante_calls.specs.Views.{ReadyFor};
ghost use Rattle.ante_types.specs.declared.context.Mode.TheVariants as mode;

use ante_builtin::builtin_store;
use ante_calls::RowCall;
use ante_itercache::Iters;
use ante_pack::{Bytes, Name, Seq};
use ante_rowcalls::row_call;
use ante_sessions::Sessions;
use ante_store::{Store, Writing};
use ante_types::{Action, EOSIO, Failure, Mode, RunContext};
use ante_wmem::{HostAnswer, Memory};
use std::alloc::{AllocError, Global};

#[derive(Drop)]
pub(crate) struct Trial {
    store: Store,
    iters: Iters,
    memory: Memory,
    left: u64,
    ghost open: { 0 < length store.under },
    ghost unshelved: { store.shelf ≡ None },
}

fn action(alloc: Global) -> Action {
    Action {
        account: EOSIO,
        name: Name(0),
        authorization: Seq::new(alloc),
        bytes: Bytes::new(alloc),
    }
}

// A run of the system's account.
fn context(alloc: Global) -> RunContext
    ensures { result.mode ≡ mode.Writing }
{
    RunContext {
        receiver: EOSIO,
        action: action(alloc),
        notified: false,
        depth: 0,
        sender: Name(0),
        slot: 0,
        mode: Mode::Writing,
        recipients: Seq::new(alloc),
        inlines: Seq::new(alloc),
        console: Bytes::new(alloc),
        return_value: Bytes::new(alloc),
    }
}

fn play(alloc: Global, trial: &mut Trial, call: RowCall, args: &[u64]) -> HostAnswer<Failure>
    requires room_for_table { length trial.old.iters.tables + 1 < 2 ^ 31 }
    requires room_for_row { length trial.old.iters.rows < 2 ^ 31 }
{
    let run = context(alloc);
    let Trial {
        store,
        iters,
        memory,
        left,
    } = trial;
    let mut tables = Writing(store);
    row_call(call, args, memory, &run, iters, &mut tables, alloc, left)
}

const MOST: usize = (1 << 31) - 2;

impl Trial {
    pub(crate) fn new(alloc: Global, left: u64) -> Result<Trial, AllocError> {
        let memory = Memory::new(alloc, 1, 1)?;
        let mut store = builtin_store(alloc)?;
        store.begin(alloc)?;
        Ok(Trial {
            store,
            iters: Iters::new(alloc),
            memory,
            left,
        })
    }

    // The reply and the steps left, as text.
    pub(crate) fn call(
        &mut self,
        alloc: Global,
        call: RowCall,
        args: &[u64],
    ) -> Result<String, AllocError> {
        let (tables, rows) = self.iters.met();
        let mut text = String::new(alloc);
        if tables < MOST && rows < MOST {
            let answer = play(alloc, self, call, args);
            write!(text, "{answer:?} {}", self.left)?;
        }
        Ok(text)
    }

    // The eight bytes at an address.
    pub(crate) fn long_at(&self, at: u32) -> Option<u8> {
        let bytes = self.memory.read_bytes(at, 8).ok()?;
        bytes.first().copied()
    }
}
