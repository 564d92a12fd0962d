//! A store with an open session.
ghost use Rattle.std.specs.Prelude.{◌≡◌, ◌<◌, length, None};

use crate::asking::ask;
use crate::words::{Line, read_line};
use ante_builtin::builtin_store;
use ante_sessions::Sessions;
use ante_store::{Change, Store, Tables, Writing};
use std::alloc::Global;
use std::io;
use std::io::ErrorKind;

#[derive(Drop)]
pub struct Trial {
    store: Store,
    ghost open: { 0 < length store.under },
    ghost unshelved: { store.shelf ≡ None },
}

fn make(alloc: Global, store: &mut Store, change: Change) -> io::Result<()>
    requires open { 0 < length store.old.under }
    requires unshelved { store.old.shelf ≡ None }
    ensures under { store.new.under ≡ store.old.under }
    ensures shelf { store.new.shelf ≡ store.old.shelf }
{
    let mut tables = Writing(store);
    match tables.write(alloc, change) {
        Ok(()) => Ok(()),
        Err(_) => Err(io::Error::from(ErrorKind::InvalidData)),
    }
}

impl Trial {
    pub fn new(alloc: Global) -> io::Result<Trial> {
        let mut store = builtin_store(alloc)?;
        store.begin(alloc)?;
        Ok(Trial { store })
    }

    /// Makes the line's change, or prints the line and the answer to its query.
    pub fn print(&mut self, rt: &impl Print, alloc: Global, line: &str) -> io::Result<()> {
        if line.is_empty() || line.starts_with('#') {
            return Ok(());
        }
        match read_line(alloc, line)? {
            Line::Change(change) => make(alloc, &mut self.store, change),
            Line::Query(path, body) => {
                println!(rt; "{line}")?;
                ask(rt, alloc, &self.store, path, body.as_bytes())
            }
        }
    }
}
