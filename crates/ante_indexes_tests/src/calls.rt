//! The calls on rows of each kind, whose answers are printed as they are.
ghost use Rattle.std.specs.Prelude.{◌≡◌, ◌+◌, ◌<◌, ◌^◌, length};
ghost use Rattle.ante_calls.specs.Views.{base_of, ReadyFor};

use crate::words::{Keyed, iterator, name, number, word};
use ante_dbapi::{
    db_find_i64, db_next_i64, db_previous_i64, db_remove_i64, db_store_i64, db_update_i64,
};
use ante_idxapi::{
    db_idx_end, db_idx_find_primary, db_idx_find_secondary, db_idx_lowerbound, db_idx_next,
    db_idx_previous, db_idx_remove, db_idx_store, db_idx_update, db_idx_upperbound,
};
use ante_itercache::Iters;
use ante_pack::Key256;
use ante_store::Tables;
use ante_types::RunContext;
use std::alloc::Global;
use std::io;
use std::io::ErrorKind;
use std::str::SplitWhitespace;

/// The iterators of each kind of row.
#[derive(Drop)]
pub struct Lists {
    rows: Iters,
    narrow: Iters,
    wide: Iters,
    widest: Iters,
}

impl Lists {
    pub fn new(alloc: Global) -> Lists {
        Lists {
            rows: Iters::new(alloc),
            narrow: Iters::new(alloc),
            wide: Iters::new(alloc),
            widest: Iters::new(alloc),
        }
    }
}

const MOST: usize = (1 << 31) - 2;

fn find_index<T: Tables, K: Keyed>(
    rt: &impl Print,
    alloc: Global,
    tables: &mut T,
    iters: &mut Iters,
    run: &RunContext,
    call: &str,
    words: &mut SplitWhitespace,
) -> io::Result<()>
    requires room_for_table { length iters.old.tables + 1 < 2 ^ 31 }
    requires room_for_row { length iters.old.rows < 2 ^ 31 }
    ensures { tables.new ≡ tables.old }
{
    let (code, scope, table) = (name(words), name(words), name(words));
    if call == "find_primary" {
        let primary = number(words);
        let found: Result<(i32, Option<K>), _> = db_idx_find_primary(
            alloc, tables, iters, run, code, scope, table, primary,
        );
        return println!(rt; "{found:?}");
    }
    let key = K::read(words);
    match call {
        "find_secondary" => {
            let found = db_idx_find_secondary(alloc, tables, iters, run, code, scope, table, key);
            println!(rt; "{found:?}")
        }
        "lowerbound" => {
            let found = db_idx_lowerbound(alloc, tables, iters, run, code, scope, table, key);
            println!(rt; "{found:?}")
        }
        "upperbound" => {
            let found = db_idx_upperbound(alloc, tables, iters, run, code, scope, table, key);
            println!(rt; "{found:?}")
        }
        _ => {
            let end = db_idx_end::<T, K>(alloc, tables, iters, run, code, scope, table);
            println!(rt; "{end:?}")
        }
    }
}

fn write_index<T: Tables, K: Keyed>(
    rt: &impl Print,
    alloc: Global,
    tables: &mut T,
    iters: &mut Iters,
    run: &RunContext,
    call: &str,
    words: &mut SplitWhitespace,
) -> io::Result<()>
    requires ready { ReadyFor run.now.mode (T.stack tables.old) (T.writing tables.old) }
    requires room_for_table { length iters.old.tables + 1 < 2 ^ 31 }
    requires room_for_row { length iters.old.rows < 2 ^ 31 }
    ensures base { base_of (T.stack tables.new) (T.writing tables.new) (T.lent tables.new) ≡
        base_of (T.stack tables.old) (T.writing tables.old) (T.lent tables.old) }
{
    if call == "store" {
        let (scope, table, payer, id) = (name(words), name(words), name(words), number(words));
        let key = K::read(words);
        let stored = db_idx_store(alloc, tables, iters, run, scope, table, payer, id, key);
        return println!(rt; "{stored:?}");
    }
    let it = iterator(words);
    if call == "update" {
        let (payer, key) = (name(words), K::read(words));
        let updated = db_idx_update(alloc, tables, iters, run, it, payer, key);
        return println!(rt; "{updated:?}");
    }
    let removed = db_idx_remove::<T, K>(alloc, tables, iters, run, it);
    println!(rt; "{removed:?}")
}

fn call_index<T: Tables, K: Keyed>(
    rt: &impl Print,
    alloc: Global,
    tables: &mut T,
    iters: &mut Iters,
    run: &RunContext,
    words: &mut SplitWhitespace,
) -> io::Result<()>
    requires ready { ReadyFor run.now.mode (T.stack tables.old) (T.writing tables.old) }
    ensures base { base_of (T.stack tables.new) (T.writing tables.new) (T.lent tables.new) ≡
        base_of (T.stack tables.old) (T.writing tables.old) (T.lent tables.old) }
{
    let (tables_met, rows_met) = iters.met();
    if tables_met >= MOST || rows_met >= MOST {
        return Err(io::Error::from(ErrorKind::OutOfMemory));
    }
    match word(words) {
        "next" => {
            let next = db_idx_next::<T, K>(alloc, tables, iters, run, iterator(words));
            println!(rt; "{next:?}")
        }
        "previous" => {
            let previous = db_idx_previous::<T, K>(alloc, tables, iters, run, iterator(words));
            println!(rt; "{previous:?}")
        }
        call => match call {
            "store" | "update" | "remove" => {
                write_index::<T, K>(rt, alloc, tables, iters, run, call, words)
            }
            _ => find_index::<T, K>(rt, alloc, tables, iters, run, call, words),
        },
    }
}

// The bytes of a primary row are those of its word.
fn write_row<T: Tables>(
    rt: &impl Print,
    alloc: Global,
    tables: &mut T,
    iters: &mut Iters,
    run: &RunContext,
    call: &str,
    words: &mut SplitWhitespace,
) -> io::Result<()>
    requires ready { ReadyFor run.now.mode (T.stack tables.old) (T.writing tables.old) }
    requires room_for_table { length iters.old.tables + 1 < 2 ^ 31 }
    requires room_for_row { length iters.old.rows < 2 ^ 31 }
    ensures base { base_of (T.stack tables.new) (T.writing tables.new) (T.lent tables.new) ≡
        base_of (T.stack tables.old) (T.writing tables.old) (T.lent tables.old) }
{
    if call == "store" {
        let (scope, table, payer, id) = (name(words), name(words), name(words), number(words));
        let bytes = word(words).as_bytes();
        let stored = db_store_i64(alloc, tables, iters, run, scope, table, payer, id, bytes);
        return println!(rt; "{stored:?}");
    }
    let it = iterator(words);
    if call == "update" {
        let payer = name(words);
        let bytes = word(words).as_bytes();
        let updated = db_update_i64(alloc, tables, iters, run, it, payer, bytes);
        return println!(rt; "{updated:?}");
    }
    let removed = db_remove_i64(alloc, tables, iters, run, it);
    println!(rt; "{removed:?}")
}

fn call_row<T: Tables>(
    rt: &impl Print,
    alloc: Global,
    tables: &mut T,
    iters: &mut Iters,
    run: &RunContext,
    words: &mut SplitWhitespace,
) -> io::Result<()>
    requires ready { ReadyFor run.now.mode (T.stack tables.old) (T.writing tables.old) }
    ensures base { base_of (T.stack tables.new) (T.writing tables.new) (T.lent tables.new) ≡
        base_of (T.stack tables.old) (T.writing tables.old) (T.lent tables.old) }
{
    let (tables_met, rows_met) = iters.met();
    if tables_met >= MOST || rows_met >= MOST {
        return Err(io::Error::from(ErrorKind::OutOfMemory));
    }
    match word(words) {
        "next" => {
            let next = db_next_i64(alloc, tables, iters, run, iterator(words));
            println!(rt; "{next:?}")
        }
        "previous" => {
            let previous = db_previous_i64(alloc, tables, iters, run, iterator(words));
            println!(rt; "{previous:?}")
        }
        "find" => {
            let (code, scope, table, id) = (name(words), name(words), name(words), number(words));
            let found = db_find_i64(alloc, tables, iters, run, code, scope, table, id);
            println!(rt; "{found:?}")
        }
        call => write_row(rt, alloc, tables, iters, run, call, words),
    }
}

/// Makes the call of this kind that the words name, and prints its answer.
pub fn call<T: Tables>(
    rt: &impl Print,
    alloc: Global,
    tables: &mut T,
    lists: &mut Lists,
    run: &RunContext,
    kind: &str,
    words: &mut SplitWhitespace,
) -> io::Result<()>
    requires ready { ReadyFor run.now.mode (T.stack tables.old) (T.writing tables.old) }
    ensures base { base_of (T.stack tables.new) (T.writing tables.new) (T.lent tables.new) ≡
        base_of (T.stack tables.old) (T.writing tables.old) (T.lent tables.old) }
{
    match kind {
        "64" => call_index::<T, u64>(rt, alloc, tables, &mut lists.narrow, run, words),
        "128" => call_index::<T, u128>(rt, alloc, tables, &mut lists.wide, run, words),
        "256" => call_index::<T, Key256>(rt, alloc, tables, &mut lists.widest, run, words),
        _ => call_row(rt, alloc, tables, &mut lists.rows, run, words),
    }
}
