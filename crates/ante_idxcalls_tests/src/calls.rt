//! The calls of each width, whose replies are printed as they are.
ghost use Rattle.ante_calls.specs.Views.{base_of, ReadyFor};
ghost use Rattle.std.specs.Prelude.{◌≡◌};

use crate::words::{args, call_of, word};
use ante_idxcalls::{IndexKey, index_call};
use ante_itercache::Iters;
use ante_pack::Key256;
use ante_store::Tables;
use ante_types::RunContext;
use ante_wmem::Memory;
use std::alloc::Global;
use std::io;
use std::io::ErrorKind;
use std::str::SplitWhitespace;

/// The iterators of each width.
#[derive(Drop)]
pub struct Lists {
    narrow: Iters,
    wide: Iters,
    widest: Iters,
}

impl Lists {
    pub fn new(alloc: Global) -> Lists {
        Lists {
            narrow: Iters::new(alloc),
            wide: Iters::new(alloc),
            widest: Iters::new(alloc),
        }
    }
}

const MOST: usize = (1 << 31) - 2;

fn call_with<T: Tables, K: IndexKey>(
    rt: &impl Print,
    alloc: Global,
    tables: &mut T,
    iters: &mut Iters,
    memory: &mut Memory,
    run: &RunContext,
    words: &mut SplitWhitespace,
) -> io::Result<()>
    requires ready { ReadyFor run.now.mode (T.stack tables.old) (T.writing tables.old) }
    ensures base { base_of (T.stack tables.new) (T.writing tables.new) (T.lent tables.new) ≡
        base_of (T.stack tables.old) (T.writing tables.old) (T.lent tables.old) }
{
    let (tables_met, rows_met) = iters.met();
    if tables_met >= MOST || rows_met >= MOST {
        return Err(io::Error::from(ErrorKind::OutOfMemory));
    }
    let call = call_of(word(words));
    let args = args(words);
    let mut left = 0;
    let reply = index_call::<T, K>(
        call,
        args.as_slice(),
        memory,
        run,
        iters,
        tables,
        alloc,
        &mut left,
    );
    println!(rt; "{reply:?}")
}

/// Makes the call of this width that the words name, and prints its reply.
pub fn call<T: Tables>(
    rt: &impl Print,
    alloc: Global,
    tables: &mut T,
    lists: &mut Lists,
    memory: &mut Memory,
    run: &RunContext,
    width: &str,
    words: &mut SplitWhitespace,
) -> io::Result<()>
    requires ready { ReadyFor run.now.mode (T.stack tables.old) (T.writing tables.old) }
    ensures base { base_of (T.stack tables.new) (T.writing tables.new) (T.lent tables.new) ≡
        base_of (T.stack tables.old) (T.writing tables.old) (T.lent tables.old) }
{
    match width {
        "64" => call_with::<T, u64>(rt, alloc, tables, &mut lists.narrow, memory, run, words),
        "128" => call_with::<T, u128>(rt, alloc, tables, &mut lists.wide, memory, run, words),
        _ => call_with::<T, Key256>(rt, alloc, tables, &mut lists.widest, memory, run, words),
    }
}
