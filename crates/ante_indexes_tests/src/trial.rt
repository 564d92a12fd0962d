//! A store in sessions, and the run that is played on it.
ghost use Rattle.std.specs.Prelude.{◌≡◌, ◌+◌, ◌<◌, ◌≤◌, length, IsTrue};
ghost use Rattle.std.specs.Option.{option_map};
ghost use Rattle.ante_undo.specs.Stack.{IsAbove};
ghost use Rattle.ante_types.specs.declared.context.Mode.TheVariants as mode;

use crate::calls::{Lists, call};
use crate::words::{actors, name, number, word};
use ante_builtin::builtin_store;
use ante_pack::{Bytes, Level, Name, Seq};
use ante_sessions::Sessions;
use ante_state::AccountRow;
use ante_store::{Change, Reading, Store, Tables, Writing};
use ante_types::{Action, Mode, RunContext};
use std::alloc::{AllocError, Global};
use std::io;
use std::io::ErrorKind;
use std::str::SplitWhitespace;

/// A store, with the revision of its shelf while one is out.
#[derive(Drop)]
pub struct Trial {
    store: Store,
    shelf: Option<u64>,
    lists: Lists,
    run: RunContext,
    ghost tied: { option_map (λ s. s.revision) store.shelf ≡ shelf },
}

fn context(
    alloc: Global,
    receiver: Name,
    mode: Mode,
    notified: bool,
    authorization: Seq<Level>,
) -> RunContext {
    let action = Action {
        account: receiver,
        name: Name(0),
        authorization,
        bytes: Bytes::new(alloc),
    };
    RunContext {
        receiver,
        action,
        notified,
        depth: 0,
        sender: Name(0),
        slot: 0,
        mode,
        recipients: Seq::new(alloc),
        inlines: Seq::new(alloc),
        console: Bytes::new(alloc),
        return_value: Bytes::new(alloc),
    }
}

fn new_run(
    alloc: Global,
    receiver: Name,
    words: &mut SplitWhitespace,
) -> Result<RunContext, AllocError> {
    let mode = if word(words) == "read" {
        Mode::Reading
    } else {
        Mode::Writing
    };
    let notified = word(words) == "notified";
    Ok(context(alloc, receiver, mode, notified, actors(alloc, words)?))
}

fn add_account(alloc: Global, store: &mut Store, name: Name) -> io::Result<()>
    requires open { 0 < length store.old.under }
    requires above { IsAbove 1 store.old }
    ensures shelf { store.new.shelf ≡ store.old.shelf }
{
    let row = AccountRow {
        payer: name,
        privileged: false,
        code: Bytes::new(alloc),
        abi: Bytes::new(alloc),
    };
    let mut tables = Writing(store);
    match tables.write(alloc, Change::SetAccount { name, row }) {
        Ok(()) => Ok(()),
        Err(_) => Err(io::Error::from(ErrorKind::OutOfMemory)),
    }
}

fn play_writing(
    rt: &impl Print,
    alloc: Global,
    store: &mut Store,
    lists: &mut Lists,
    run: &RunContext,
    kind: &str,
    words: &mut SplitWhitespace,
) -> io::Result<()>
    requires mode { run.now.mode ≡ mode.Writing }
    requires open { 0 < length store.old.under }
    requires above { IsAbove 1 store.old }
    ensures shelf { store.new.shelf ≡ store.old.shelf }
{
    let mut tables = Writing(store);
    call(rt, alloc, &mut tables, lists, run, kind, words)
}

fn play_reading(
    rt: &impl Print,
    alloc: Global,
    store: &Store,
    lists: &mut Lists,
    run: &RunContext,
    kind: &str,
    words: &mut SplitWhitespace,
) -> io::Result<()>
    requires mode { run.now.mode ≡ mode.Reading }
{
    let mut tables = Reading(store);
    call(rt, alloc, &mut tables, lists, run, kind, words)
}

fn print_state(
    rt: &impl Print,
    alloc: Global,
    store: &Store,
    kind: &str,
    words: &mut SplitWhitespace,
) -> io::Result<()> {
    if kind == "used" {
        let used = store.usage().used(name(words));
        return println!(rt; "{used}");
    }
    let digest = hex::encode(alloc, store.digest())?;
    println!(rt; "{digest}")
}

impl Trial {
    pub fn new(alloc: Global) -> io::Result<Trial> {
        Ok(Trial {
            store: builtin_store(alloc)?,
            shelf: None,
            lists: Lists::new(alloc),
            run: context(alloc, Name(0), Mode::Reading, false, Seq::new(alloc)),
        })
    }

    // Whether so many sessions have begun since the shelf was made.
    fn is_above(&self, sessions: u64) -> bool
        ensures { IsTrue result → IsAbove sessions self.now.store }
    {
        let revision = self.store.revision();
        match self.shelf {
            Some(shelf) => shelf <= revision && sessions <= revision - shelf,
            None => true,
        }
    }

    // Whether as many sessions may end.
    fn may_end(&self, sessions: u64) -> bool
        ensures open { IsTrue result → sessions ≤ length self.now.store.under }
        ensures above { IsTrue result → IsAbove sessions self.now.store }
    {
        sessions <= self.store.sessions() && self.is_above(sessions)
    }

    fn shelve(&mut self, revision: u64) -> bool {
        let now = self.store.revision();
        if self.shelf.is_none() && revision <= now && now - revision <= self.store.sessions() {
            self.store.shelve(revision);
            self.shelf = Some(revision);
            true
        } else {
            false
        }
    }

    // Whether the condition of the session call holds, which is made then.
    fn turn(&mut self, alloc: Global, kind: &str, revision: u64) -> Result<bool, AllocError> {
        match kind {
            "begin" if self.store.revision() < 1000 => {
                self.store.begin(alloc)?;
                Ok(true)
            }
            "undo" if self.may_end(1) => {
                self.store.undo();
                Ok(true)
            }
            "squash" if self.may_end(2) => {
                self.store.squash();
                Ok(true)
            }
            "shelve" => Ok(self.shelve(revision)),
            "unshelve" if self.shelf.is_some() => {
                self.store.unshelve();
                self.shelf = None;
                Ok(true)
            }
            _ => Ok(false),
        }
    }

    // What wants an open session that began after the shelf was made, and the line is wrong without one.
    fn add_account(&mut self, alloc: Global, name: Name) -> io::Result<()> {
        if !self.may_end(1) {
            return Err(io::Error::from(ErrorKind::InvalidData));
        }
        add_account(alloc, &mut self.store, name)
    }

    fn play(
        &mut self,
        rt: &impl Print,
        alloc: Global,
        kind: &str,
        words: &mut SplitWhitespace,
    ) -> io::Result<()> {
        let is_open = self.may_end(1);
        let Trial {
            store,
            lists,
            run,
            ..
        } = self;
        match run.mode {
            Mode::Writing if !is_open => Err(io::Error::from(ErrorKind::InvalidData)),
            Mode::Writing => play_writing(rt, alloc, store, lists, run, kind, words),
            Mode::Reading => play_reading(rt, alloc, store, lists, run, kind, words),
        }
    }

    fn begin_run(
        &mut self,
        alloc: Global,
        receiver: Name,
        words: &mut SplitWhitespace,
    ) -> Result<(), AllocError> {
        self.run = new_run(alloc, receiver, words)?;
        self.lists = Lists::new(alloc);
        Ok(())
    }

    // Whether what the line changes beside the rows was changed.
    fn change(
        &mut self,
        alloc: Global,
        kind: &str,
        words: &mut SplitWhitespace,
    ) -> io::Result<bool> {
        let number = number(words);
        match kind {
            "account" => {
                self.add_account(alloc, Name(number))?;
                Ok(true)
            }
            "run" => {
                self.begin_run(alloc, Name(number), words)?;
                Ok(true)
            }
            _ => Ok(self.turn(alloc, kind, number)?),
        }
    }

    fn answer(
        &mut self,
        rt: &impl Print,
        alloc: Global,
        kind: &str,
        words: &mut SplitWhitespace,
    ) -> io::Result<()> {
        match kind {
            "64" | "128" | "256" | "i64" => self.play(rt, alloc, kind, words),
            "used" | "digest" => print_state(rt, alloc, &self.store, kind, words),
            _ => {
                let made = self.change(alloc, kind, words)?;
                println!(rt; "{made}")
            }
        }
    }

    /// Plays the line and prints what comes of it.
    pub fn print(&mut self, rt: &impl Print, alloc: Global, line: &str) -> io::Result<()> {
        if line.is_empty() || line.starts_with('#') {
            return Ok(());
        }
        print!(rt; "{line} => ")?;
        let mut words = line.split_whitespace();
        let kind = word(&mut words);
        self.answer(rt, alloc, kind, &mut words)
    }
}
