//! A store with an open session, and the run that is played on it.
ghost use Rattle.std.specs.Prelude.{◌≡◌, ◌+◌, ◌<◌, ◌^◌, length, None, true};
ghost use Rattle.ante_calls.specs.Views.{ReadyFor};
ghost use Rattle.ante_types.specs.declared.context.Mode.TheVariants as mode;

use crate::answers::{print_bytes, print_done, print_number, print_row};
use crate::words::{Call, Line, Scene, read_line};
use ante_builtin::builtin_store;
use ante_dbapi::{
    db_end_i64, db_find_i64, db_get_i64, db_lowerbound_i64, db_next_i64, db_previous_i64,
    db_remove_i64, db_store_i64, db_update_i64, db_upperbound_i64,
};
use ante_itercache::Iters;
use ante_pack::{Bytes, Name, Seq};
use ante_sessions::Sessions;
use ante_state::AccountRow;
use ante_store::{Change, Reading, Store, Tables, Writing};
use ante_types::{Action, Mode, RunContext};
use std::alloc::{AllocError, Global};
use std::io;
use std::io::ErrorKind;

#[derive(Drop)]
pub struct Trial {
    store: Store,
    iters: Iters,
    run: RunContext,
    ghost open: { 0 < length store.under },
    ghost unshelved: { store.shelf ≡ None },
}

fn context(alloc: Global, scene: Scene) -> RunContext {
    let mode = if scene.reads {
        Mode::Reading
    } else {
        Mode::Writing
    };
    let action = Action {
        account: scene.receiver,
        name: Name(0),
        authorization: scene.actors,
        bytes: Bytes::new(alloc),
    };
    RunContext {
        receiver: scene.receiver,
        action,
        notified: scene.notified,
        depth: 0,
        sender: Name(0),
        slot: 0,
        mode,
        recipients: Seq::new(alloc),
        inlines: Seq::new(alloc),
        console: Bytes::new(alloc),
        return_value: Bytes::new(alloc),
    }
}

fn nobody(alloc: Global) -> Scene {
    Scene {
        receiver: Name(0),
        reads: true,
        notified: false,
        actors: Seq::new(alloc),
    }
}

// A call that finds or walks, over tables that may be written to or not.
fn look<T: Tables>(
    rt: &impl Print,
    alloc: Global,
    tables: &mut T,
    iters: &mut Iters,
    run: &RunContext,
    call: Call,
) -> io::Result<()>
    requires room_for_table { length iters.old.tables + 1 < 2 ^ 31 }
    requires room_for_row { length iters.old.rows < 2 ^ 31 }
    ensures { tables.new ≡ tables.old }
{
    match call {
        Call::Get(it, n) => print_bytes(rt, alloc, db_get_i64(tables, iters, run, it, n)),
        Call::Next(it) => print_row(rt, db_next_i64(alloc, tables, iters, run, it)),
        Call::Previous(it) => print_row(rt, db_previous_i64(alloc, tables, iters, run, it)),
        Call::Find(at, id) => print_number(
            rt,
            db_find_i64(alloc, tables, iters, run, at.code, at.scope, at.table, id),
        ),
        Call::LowerBound(at, id) => print_number(
            rt,
            db_lowerbound_i64(alloc, tables, iters, run, at.code, at.scope, at.table, id),
        ),
        Call::UpperBound(at, id) => print_number(
            rt,
            db_upperbound_i64(alloc, tables, iters, run, at.code, at.scope, at.table, id),
        ),
        Call::End(at) => print_number(
            rt,
            db_end_i64(alloc, tables, iters, run, at.code, at.scope, at.table),
        ),
        _ => Ok(()),
    }
}

// A call that writes.
fn write<T: Tables>(
    rt: &impl Print,
    alloc: Global,
    tables: &mut T,
    iters: &mut Iters,
    run: &RunContext,
    call: Call,
) -> io::Result<()>
    requires ready { ReadyFor run.now.mode (T.stack tables.old) (T.writing tables.old) }
    requires room_for_table { length iters.old.tables + 1 < 2 ^ 31 }
    requires room_for_row { length iters.old.rows < 2 ^ 31 }
    ensures under { (T.stack tables.new).under ≡ (T.stack tables.old).under }
    ensures shelf { (T.stack tables.new).shelf ≡ (T.stack tables.old).shelf }
    ensures lent { T.lent tables.new ≡ T.lent tables.old }
{
    match call {
        Call::Store(scope, table, payer, id, bytes) => print_number(
            rt,
            db_store_i64(
                alloc,
                tables,
                iters,
                run,
                scope,
                table,
                payer,
                id,
                bytes.as_slice(),
            ),
        ),
        Call::Update(it, payer, bytes) => print_done(
            rt,
            db_update_i64(alloc, tables, iters, run, it, payer, bytes.as_slice()),
        ),
        Call::Remove(it) => print_done(rt, db_remove_i64(alloc, tables, iters, run, it)),
        call => look(rt, alloc, tables, iters, run, call),
    }
}

fn no_account(alloc: Global, payer: Name) -> AccountRow {
    AccountRow {
        payer,
        privileged: false,
        code: Bytes::new(alloc),
        abi: Bytes::new(alloc),
    }
}

fn add_account(alloc: Global, store: &mut Store, name: Name) -> io::Result<()>
    requires open { 0 < length store.old.under }
    requires unshelved { store.old.shelf ≡ None }
    ensures under { store.new.under ≡ store.old.under }
    ensures shelf { store.new.shelf ≡ store.old.shelf }
{
    let row = no_account(alloc, name);
    let mut tables = Writing(store);
    match tables.write(alloc, Change::SetAccount { name, row }) {
        Ok(()) => Ok(()),
        Err(_) => Err(io::Error::from(ErrorKind::OutOfMemory)),
    }
}

fn play_writing(
    rt: &impl Print,
    alloc: Global,
    store: &mut Store,
    iters: &mut Iters,
    run: &RunContext,
    call: Call,
) -> io::Result<()>
    requires mode { run.now.mode ≡ mode.Writing }
    requires open { 0 < length store.old.under }
    requires unshelved { store.old.shelf ≡ None }
    requires room_for_table { length iters.old.tables + 1 < 2 ^ 31 }
    requires room_for_row { length iters.old.rows < 2 ^ 31 }
    ensures under { store.new.under ≡ store.old.under }
    ensures shelf { store.new.shelf ≡ store.old.shelf }
{
    let mut tables = Writing(store);
    write(rt, alloc, &mut tables, iters, run, call)
}

fn play_reading(
    rt: &impl Print,
    alloc: Global,
    store: &Store,
    iters: &mut Iters,
    run: &RunContext,
    call: Call,
) -> io::Result<()>
    requires mode { run.now.mode ≡ mode.Reading }
    requires room_for_table { length iters.old.tables + 1 < 2 ^ 31 }
    requires room_for_row { length iters.old.rows < 2 ^ 31 }
{
    let mut tables = Reading(store);
    write(rt, alloc, &mut tables, iters, run, call)
}

const MOST: usize = (1 << 31) - 2;

impl Trial {
    pub fn new(alloc: Global) -> io::Result<Trial> {
        let mut store = builtin_store(alloc)?;
        store.begin(alloc)?;
        Ok(Trial {
            store,
            iters: Iters::new(alloc),
            run: context(alloc, nobody(alloc)),
        })
    }

    fn play(&mut self, rt: &impl Print, alloc: Global, call: Call) -> io::Result<()> {
        let (tables, rows) = self.iters.met();
        if tables >= MOST || rows >= MOST {
            return Err(io::Error::from(ErrorKind::OutOfMemory));
        }
        let Trial { store, iters, run } = self;
        match run.mode {
            Mode::Writing => play_writing(rt, alloc, store, iters, run, call),
            Mode::Reading => play_reading(rt, alloc, store, iters, run, call),
        }
    }

    /// Plays the line and prints what comes of it.
    pub fn print(&mut self, rt: &impl Print, alloc: Global, line: &str) -> io::Result<()> {
        if line.is_empty() || line.starts_with('#') {
            return Ok(());
        }
        print!(rt; "{line} => ")?;
        match read_line(alloc, line)? {
            Line::Account(name) => {
                add_account(alloc, &mut self.store, name)?;
                println!(rt; "done")
            }
            Line::Run(scene) => {
                self.iters = Iters::new(alloc);
                self.run = context(alloc, scene);
                println!(rt; "done")
            }
            Line::Used(name) => println!(rt; "{}", self.store.usage().used(name)),
            Line::Call(call) => self.play(rt, alloc, call),
        }
    }
}
