//! A store that a script is played on.
ghost use Rattle.std.specs.Prelude.{◌≡◌, ◌<◌, ◌≤◌, ◌+◌, length, IsTrue};
ghost use Rattle.std.specs.Option.{option_map};
ghost use Rattle.ante_undo.specs.Stack.{IsAbove};

use crate::changes::change;
use crate::words::{number, wrong};
use ante_builtin::builtin_store;
use ante_pack::Name;
use ante_sessions::Sessions;
use ante_store::{Change, Reading, Store, Tables, WriteError, Writing};
use std::alloc::{AllocError, Global};
use std::io;
use std::str::SplitWhitespace;

// Makes a change through the tables that a run is given.
fn write(alloc: Global, store: &mut Store, change: Change) -> Result<(), WriteError>
    requires session { 0 < length store.old.under }
    requires above { IsAbove 1 store.old }
    ensures shelf { store.new.shelf ≡ store.old.shelf }
{
    let mut tables = Writing(store);
    tables.write(alloc, change)
}

// The store, with the revision of its shelf while one is out.
#[derive(Drop)]
pub struct Trial {
    store: Store,
    shelf: Option<u64>,
    ghost tied: { option_map (λ s. s.revision) store.shelf ≡ shelf },
}

impl Trial {
    /// The store of the built-in genesis.
    pub fn new(alloc: Global) -> Result<Trial, AllocError> {
        let store = builtin_store(alloc)?;
        Ok(Trial { store, shelf: None })
    }

    // Whether a session has begun since the shelf was made.
    fn is_above(&self) -> bool
        ensures { IsTrue result → IsAbove 1 self.now.store }
    {
        match self.shelf {
            Some(shelf) => shelf < self.store.revision(),
            None => true,
        }
    }

    fn change(&mut self, alloc: Global, change: Change) -> io::Result<Result<(), WriteError>> {
        if self.store.sessions() > 0 && self.is_above() {
            Ok(write(alloc, &mut self.store, change))
        } else {
            Err(wrong())
        }
    }

    fn read(&self, alloc: Global, change: Change) -> Result<(), WriteError> {
        let mut tables = Reading(&self.store);
        tables.write(alloc, change)
    }

    fn begin(&mut self, alloc: Global) -> io::Result<()> {
        if self.store.revision() >= 1000 {
            return Err(wrong());
        }
        self.store.begin(alloc)?;
        Ok(())
    }

    fn undo(&mut self) -> io::Result<()> {
        if self.store.sessions() > 0 && self.is_above() {
            self.store.undo();
            Ok(())
        } else {
            Err(wrong())
        }
    }

    fn shelve(&mut self, revision: u64) -> io::Result<()> {
        let now = self.store.revision();
        if self.shelf.is_none() && revision <= now && now - revision <= self.store.sessions() {
            self.store.shelve(revision);
            self.shelf = Some(revision);
            Ok(())
        } else {
            Err(wrong())
        }
    }

    fn unshelve(&mut self) -> io::Result<()> {
        if self.shelf.is_some() {
            self.store.unshelve();
            self.shelf = None;
            Ok(())
        } else {
            Err(wrong())
        }
    }

    fn call(
        &mut self,
        alloc: Global,
        kind: &str,
        words: &mut SplitWhitespace,
    ) -> io::Result<Result<(), WriteError>> {
        match kind {
            "begin" => self.begin(alloc)?,
            "undo" => self.undo()?,
            "shelve" => self.shelve(number(words)?)?,
            "unshelve" => self.unshelve()?,
            "read" => {
                let kind = words.next().ok_or_else(wrong)?;
                return Ok(self.read(alloc, change(alloc, kind, words)?));
            }
            _ => return self.change(alloc, change(alloc, kind, words)?),
        }
        Ok(Ok(()))
    }

    fn print_state(&self, rt: &impl Print, alloc: Global) -> io::Result<()> {
        let first = self.store.usage().used(Name(1));
        let second = self.store.usage().used(Name(2));
        let digest = self.store.digest();
        let (front, _) = digest.split_at(8);
        let hex = hex::encode(alloc, front)?;
        println!(rt; "{first} {second} {hex}")
    }

    /// Makes the call of the line, and prints what came of it.
    pub fn print(&mut self, rt: &impl Print, alloc: Global, line: &str) -> io::Result<()> {
        let mut words = line.split_whitespace();
        let kind = words.next().ok_or_else(wrong)?;
        match self.call(alloc, kind, &mut words)? {
            Ok(()) => print!(rt; "ok ")?,
            Err(fault) => print!(rt; "{fault:?} ")?,
        }
        self.print_state(rt, alloc)
    }
}
