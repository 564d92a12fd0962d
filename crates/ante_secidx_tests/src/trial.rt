//! An index in sessions, and what a script's lines make of it.
ghost use Rattle.std.specs.Prelude.{◌≡◌, ◌≤◌, ◌+◌, IsTrue};
ghost use Rattle.std.specs.Option.{option_map};
ghost use Rattle.ante_undo.specs.Stack.{IsAbove};

use crate::words::{Line, Worded, number_of, read_line};
use ante_pack::{Name, TableKey};
use ante_secidx::{SecFault, SecIndex};
use ante_sessions::Sessions;
use std::alloc::{AllocError, Global};
use std::io;

/// An index, with the revision of its shelf while one is out.
#[derive(Drop)]
pub struct Trial<K: Worded> {
    index: SecIndex<K>,
    shelf: Option<u64>,
    ghost tied: { option_map (λ s. s.revision) index.shelf ≡ shelf },
}

impl<K: Worded> Trial<K> {
    pub fn new(alloc: Global) -> Trial<K> {
        Trial {
            index: SecIndex::new(alloc, 5),
            shelf: None,
        }
    }

    // Whether so many sessions have begun since the shelf was made.
    fn is_above(&self, sessions: u64) -> bool
        ensures { IsTrue result → IsAbove sessions self.now.index }
    {
        let revision = self.index.revision();
        match self.shelf {
            Some(shelf) => shelf <= revision && sessions <= revision - shelf,
            None => true,
        }
    }

    fn begin(&mut self, alloc: Global) -> Result<bool, AllocError> {
        if self.index.revision() >= 1000 {
            return Ok(false);
        }
        match self.index.begin(alloc) {
            Ok(_) => Ok(true),
            Err(refused) => Err(refused),
        }
    }

    fn undo(&mut self) -> bool {
        if self.index.sessions() > 0 && self.is_above(1) {
            self.index.undo();
            true
        } else {
            false
        }
    }

    fn squash(&mut self) -> bool {
        if self.index.sessions() > 1 && self.is_above(2) {
            self.index.squash();
            true
        } else {
            false
        }
    }

    fn commit(&mut self, revision: u64) -> bool {
        if self.shelf.is_none() {
            self.index.commit(revision);
            true
        } else {
            false
        }
    }

    fn shelve(&mut self, revision: u64) -> bool {
        let now = self.index.revision();
        if self.shelf.is_none() && revision <= now && now - revision <= self.index.sessions() {
            self.index.shelve(revision);
            self.shelf = Some(revision);
            true
        } else {
            false
        }
    }

    fn unshelve(&mut self) -> bool {
        if self.shelf.is_some() {
            self.index.unshelve();
            self.shelf = None;
            true
        } else {
            false
        }
    }

    fn drop_shelf(&mut self) -> bool {
        if self.shelf.is_some() {
            self.index.drop_shelf();
            self.shelf = None;
            true
        } else {
            false
        }
    }

    // A call that writes, or nothing where its condition doesn't hold.
    fn write(&mut self, alloc: Global, line: Line<K>) -> Option<Result<(), SecFault>> {
        if !self.is_above(1) {
            return None;
        }
        match line {
            Line::Insert(table, key, primary, payer) => {
                Some(self.index.insert(alloc, table, key, primary, payer))
            }
            Line::Update(table, key, primary, payer) => {
                Some(self.index.update(alloc, table, key, primary, payer))
            }
            Line::Remove(table, primary) => Some(self.index.remove(alloc, table, primary)),
            _ => None,
        }
    }

    // A session call, and whether its condition held.
    fn turn(&mut self, alloc: Global, line: Line<K>) -> Result<bool, AllocError> {
        match line {
            Line::Begin => self.begin(alloc),
            Line::Undo => Ok(self.undo()),
            Line::Squash => Ok(self.squash()),
            Line::Commit(revision) => Ok(self.commit(revision)),
            Line::Shelve(revision) => Ok(self.shelve(revision)),
            Line::Unshelve => Ok(self.unshelve()),
            Line::DropShelf => Ok(self.drop_shelf()),
            _ => Ok(false),
        }
    }
}

fn print_row<K: Worded>(rt: &impl Print, row: Option<(K, u64)>) -> io::Result<()> {
    match row {
        Some((key, primary)) => {
            key.print(rt)?;
            println!(rt; " {primary}")
        }
        None => println!(rt; "none"),
    }
}

fn print_found<K: Worded>(rt: &impl Print, row: Option<(K, Name)>) -> io::Result<()> {
    match row {
        Some((key, Name(payer))) => {
            key.print(rt)?;
            println!(rt; " paid by {payer}")
        }
        None => println!(rt; "none"),
    }
}

fn print_pair<K: Worded>(rt: &impl Print, key: K, primary: u64) -> io::Result<()> {
    print!(rt; " ")?;
    key.print(rt)?;
    print!(rt; "/{primary}")
}

// The table's rows from the first to the last.
fn walk<K: Worded>(rt: &impl Print, index: &SecIndex<K>, table: TableKey) -> io::Result<()> {
    let mut next = index.lower(table, K::read("0").or_else(|_| K::read("0:0"))?);
    for _ in 0..100 {
        let Some((key, primary)) = next else { break };
        print_pair(rt, key, primary)?;
        next = index.next(table, key, primary);
    }
    println!(rt; "")
}

// The table's rows from the last to the first.
fn back<K: Worded>(rt: &impl Print, index: &SecIndex<K>, table: TableKey) -> io::Result<()> {
    let mut next = index.last(table);
    for _ in 0..100 {
        let Some((key, primary)) = next else { break };
        print_pair(rt, key, primary)?;
        next = index.previous(table, key, primary);
    }
    println!(rt; "")
}

// The rows of all tables, with their payers.
fn all<K: Worded>(rt: &impl Print, index: &SecIndex<K>) -> io::Result<()> {
    let mut next = index.next_entry(None);
    for _ in 0..100 {
        let Some((table, key, primary, payer)) = next else {
            break;
        };
        let number = number_of(table);
        print!(rt; " {number}:")?;
        print_pair(rt, key, primary)?;
        let payer = payer.0;
        print!(rt; "*{payer}")?;
        next = index.next_entry(Some((table, key, primary)));
    }
    println!(rt; "")
}

fn look<K: Worded>(rt: &impl Print, index: &SecIndex<K>, line: Line<K>) -> io::Result<()> {
    match line {
        Line::Primary(table, primary) => print_found(rt, index.by_primary(table, primary)),
        Line::Lower(table, key) => print_row(rt, index.lower(table, key)),
        Line::Upper(table, key) => print_row(rt, index.upper(table, key)),
        Line::Exact(table, key) => print_row(rt, index.exact(table, key)),
        Line::Next(table, key, primary) => print_row(rt, index.next(table, key, primary)),
        Line::Previous(table, key, primary) => print_row(rt, index.previous(table, key, primary)),
        Line::Last(table) => print_row(rt, index.last(table)),
        Line::Walk(table) => walk(rt, index, table),
        Line::Back(table) => back(rt, index, table),
        _ => all(rt, index),
    }
}

fn print_written(rt: &impl Print, answer: Option<Result<(), SecFault>>) -> io::Result<()> {
    match answer {
        Some(Ok(())) => println!(rt; "done"),
        Some(Err(fault)) => println!(rt; "{fault:?}"),
        None => println!(rt; "not made"),
    }
}

fn print_turned(rt: &impl Print, made: bool) -> io::Result<()> {
    if made {
        println!(rt; "done")
    } else {
        println!(rt; "not made")
    }
}

/// Prints the line, and what came of it.
pub fn print_line<K: Worded>(
    rt: &impl Print,
    alloc: Global,
    trial: &mut Trial<K>,
    text: &str,
) -> io::Result<()> {
    print!(rt; "{text} => ")?;
    let line = read_line(text)?;
    match line {
        Line::Insert(..) | Line::Update(..) | Line::Remove(..) => {
            print_written(rt, trial.write(alloc, line))
        }
        Line::Begin
        | Line::Undo
        | Line::Squash
        | Line::Commit(_)
        | Line::Shelve(_)
        | Line::Unshelve
        | Line::DropShelf => {
            let made = trial.turn(alloc, line)?;
            print_turned(rt, made)
        }
        _ => look(rt, &trial.index, line),
    }
}
