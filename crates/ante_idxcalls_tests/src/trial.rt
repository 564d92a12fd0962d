//! A store with an open session, a memory of one page, and the run that is played on them.
ghost use Rattle.std.specs.Prelude.{◌≡◌, ◌+◌, ◌<◌, length, None};
ghost use Rattle.ante_types.specs.declared.context.Mode.TheVariants as mode;

use crate::calls::{Lists, call};
use crate::words::{address, number, word};
use ante_builtin::builtin_store;
use ante_pack::{Bytes, Name, Seq};
use ante_sessions::Sessions;
use ante_state::AccountRow;
use ante_store::{Change, Reading, Store, Tables, Writing};
use ante_types::{Action, Mode, RunContext};
use ante_wmem::Memory;
use std::alloc::Global;
use std::io;
use std::io::ErrorKind;
use std::str::SplitWhitespace;

#[derive(Drop)]
pub struct Trial {
    store: Store,
    lists: Lists,
    memory: Memory,
    run: RunContext,
    ghost open: { 0 < length store.under },
    ghost unshelved: { store.shelf ≡ None },
}

fn wrong() -> io::Error {
    io::Error::from(ErrorKind::InvalidData)
}

fn context(alloc: Global, receiver: Name, mode: Mode) -> RunContext {
    let action = Action {
        account: receiver,
        name: Name(0),
        authorization: Seq::new(alloc),
        bytes: Bytes::new(alloc),
    };
    RunContext {
        receiver,
        action,
        notified: false,
        depth: 0,
        sender: Name(0),
        slot: 0,
        mode,
        recipients: Seq::new(alloc),
        inlines: Seq::new(alloc),
        console: Bytes::new(alloc),
        return_value: Bytes::new(alloc),
    }
}

fn new_run(alloc: Global, words: &mut SplitWhitespace) -> RunContext {
    let receiver = Name(number(words));
    match word(words) {
        "read" => context(alloc, receiver, Mode::Reading),
        _ => context(alloc, receiver, Mode::Writing),
    }
}

fn add_account(alloc: Global, store: &mut Store, name: Name) -> io::Result<()>
    requires open { 0 < length store.old.under }
    requires unshelved { store.old.shelf ≡ None }
    ensures under { store.new.under ≡ store.old.under }
    ensures shelf { store.new.shelf ≡ store.old.shelf }
{
    let row = AccountRow {
        payer: name,
        privileged: false,
        code: Bytes::new(alloc),
        abi: Bytes::new(alloc),
    };
    let mut tables = Writing(store);
    match tables.write(alloc, Change::SetAccount { name, row }) {
        Ok(()) => Ok(()),
        Err(_) => Err(io::Error::from(ErrorKind::OutOfMemory)),
    }
}

fn play_writing(
    rt: &impl Print,
    alloc: Global,
    store: &mut Store,
    lists: &mut Lists,
    memory: &mut Memory,
    run: &RunContext,
    width: &str,
    words: &mut SplitWhitespace,
) -> io::Result<()>
    requires mode { run.now.mode ≡ mode.Writing }
    requires open { 0 < length store.old.under }
    requires unshelved { store.old.shelf ≡ None }
    ensures under { store.new.under ≡ store.old.under }
    ensures shelf { store.new.shelf ≡ store.old.shelf }
{
    let mut tables = Writing(store);
    call(rt, alloc, &mut tables, lists, memory, run, width, words)
}

fn play_reading(
    rt: &impl Print,
    alloc: Global,
    store: &Store,
    lists: &mut Lists,
    memory: &mut Memory,
    run: &RunContext,
    width: &str,
    words: &mut SplitWhitespace,
) -> io::Result<()>
    requires mode { run.now.mode ≡ mode.Reading }
{
    let mut tables = Reading(store);
    call(rt, alloc, &mut tables, lists, memory, run, width, words)
}

fn put(alloc: Global, memory: &mut Memory, words: &mut SplitWhitespace) -> io::Result<()> {
    let at = address(words);
    let bytes = hex::decode(alloc, word(words)).map_err(|_| wrong())?;
    memory
        .write_bytes(at, bytes.as_slice())
        .map_err(|_| wrong())
}

fn show(
    rt: &impl Print,
    alloc: Global,
    memory: &Memory,
    words: &mut SplitWhitespace,
) -> io::Result<()> {
    let at = address(words);
    let bytes = memory.read_bytes(at, address(words)).map_err(|_| wrong())?;
    let text = hex::encode(alloc, bytes)?;
    println!(rt; "{text}")
}

impl Trial {
    pub fn new(alloc: Global) -> io::Result<Trial> {
        let memory = Memory::new(alloc, 1, 1)?;
        let mut store = builtin_store(alloc)?;
        store.begin(alloc)?;
        Ok(Trial {
            store,
            lists: Lists::new(alloc),
            memory,
            run: context(alloc, Name(0), Mode::Reading),
        })
    }

    fn play(
        &mut self,
        rt: &impl Print,
        alloc: Global,
        width: &str,
        words: &mut SplitWhitespace,
    ) -> io::Result<()> {
        let Trial {
            store,
            lists,
            memory,
            run,
        } = self;
        match run.mode {
            Mode::Writing => play_writing(rt, alloc, store, lists, memory, run, width, words),
            Mode::Reading => play_reading(rt, alloc, store, lists, memory, run, width, words),
        }
    }

    fn add_account(
        &mut self,
        rt: &impl Print,
        alloc: Global,
        words: &mut SplitWhitespace,
    ) -> io::Result<()> {
        add_account(alloc, &mut self.store, Name(number(words)))?;
        println!(rt; "added")
    }

    fn begin(
        &mut self,
        rt: &impl Print,
        alloc: Global,
        words: &mut SplitWhitespace,
    ) -> io::Result<()> {
        self.lists = Lists::new(alloc);
        self.run = new_run(alloc, words);
        println!(rt; "begun")
    }

    fn put(
        &mut self,
        rt: &impl Print,
        alloc: Global,
        words: &mut SplitWhitespace,
    ) -> io::Result<()> {
        put(alloc, &mut self.memory, words)?;
        println!(rt; "put")
    }

    /// Plays the line and prints what comes of it.
    pub fn print(&mut self, rt: &impl Print, alloc: Global, line: &str) -> io::Result<()> {
        if line.is_empty() || line.starts_with('#') {
            return Ok(());
        }
        print!(rt; "{line} => ")?;
        let mut words = line.split_whitespace();
        match word(&mut words) {
            "account" => self.add_account(rt, alloc, &mut words),
            "run" => self.begin(rt, alloc, &mut words),
            "put" => self.put(rt, alloc, &mut words),
            "show" => show(rt, alloc, &self.memory, &mut words),
            width => self.play(rt, alloc, width, &mut words),
        }
    }
}
