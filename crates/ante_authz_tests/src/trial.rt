//! A state that is built line by line, and the questions to it.
ghost use Rattle.std.specs.Prelude.{◌≡◌, ◌<◌, length, None};

use crate::words::{Line, Sending, Weighing, read_line};
use ante_authz::{AuthFault, Weighed, check_action, satisfied};
use ante_builtin::builtin_store;
use ante_pack::{Level, Name, name_text};
use ante_sessions::Sessions;
use ante_store::{Change, Store, Tables, Writing};
use std::alloc::Global;
use std::io;
use std::io::ErrorKind;

#[derive(Drop)]
pub struct Trial {
    store: Store,
    ghost open: { 0 < length store.under },
    ghost unshelved: { store.shelf ≡ None },
}

fn make(alloc: Global, store: &mut Store, change: Change) -> io::Result<()>
    requires open { 0 < length store.old.under }
    requires unshelved { store.old.shelf ≡ None }
    ensures under { store.new.under ≡ store.old.under }
    ensures shelf { store.new.shelf ≡ store.old.shelf }
{
    let mut tables = Writing(store);
    match tables.write(alloc, change) {
        Ok(()) => Ok(()),
        Err(_) => Err(io::Error::from(ErrorKind::OutOfMemory)),
    }
}

fn print_name(rt: &impl Print, name: Name) -> io::Result<()> {
    let (text, length) = name_text(name);
    if length == 0 {
        return print!(rt; " -");
    }
    print!(rt; " ")?;
    for byte in text.iter().take(length) {
        print!(rt; "{}", *byte as char)?;
    }
    Ok(())
}

fn print_level(rt: &impl Print, text: &str, level: Level) -> io::Result<()> {
    print!(rt; "{text}")?;
    print_name(rt, level.actor)?;
    print_name(rt, level.permission)?;
    println!(rt; "")
}

fn print_checked(rt: &impl Print, checked: Result<(), AuthFault>) -> io::Result<()> {
    match checked {
        Ok(()) => println!(rt; "Ok"),
        Err(AuthFault::OutOfMemory) => println!(rt; "OutOfMemory"),
        Err(AuthFault::UnknownAccount { name }) => {
            print!(rt; "UnknownAccount")?;
            print_name(rt, name)?;
            println!(rt; "")
        }
        Err(AuthFault::MissingAuth { level }) => print_level(rt, "MissingAuth", level),
        Err(AuthFault::Irrelevant { level }) => print_level(rt, "Irrelevant", level),
        Err(AuthFault::AuthWork) => println!(rt; "AuthWork"),
    }
}

fn weighed_text(weighed: Weighed) -> &'static str {
    match weighed {
        Weighed::Yes => "Yes",
        Weighed::No => "No",
        Weighed::Spent => "Spent",
    }
}

impl Trial {
    pub fn new(alloc: Global) -> io::Result<Trial> {
        let mut store = builtin_store(alloc)?;
        store.begin(alloc)?;
        Ok(Trial { store })
    }

    fn weigh(&self, rt: &impl Print, weighing: Weighing) -> io::Result<()> {
        let Weighing {
            level,
            code,
            visits,
            keys,
        } = weighing;
        let mut left = visits;
        let weighed = satisfied(&self.store, level, keys.as_slice(), code, &mut left);
        println!(rt; "{}, {left} left", weighed_text(weighed))
    }

    fn check(&self, rt: &impl Print, alloc: Global, sending: Sending) -> io::Result<()> {
        let Sending { action, code, keys } = sending;
        let checked = check_action(alloc, &self.store, &action, keys.as_slice(), code);
        print_checked(rt, checked)
    }

    /// Does what the line says, and prints it with what comes of it.
    pub fn print(&mut self, rt: &impl Print, alloc: Global, line: &str) -> io::Result<()> {
        if line.is_empty() || line.starts_with('#') {
            return println!(rt; "{line}");
        }
        print!(rt; "{line} => ")?;
        match read_line(alloc, line)? {
            Line::State => {
                *self = Trial::new(alloc)?;
                println!(rt; "done")
            }
            Line::Change(change) => {
                make(alloc, &mut self.store, change)?;
                println!(rt; "done")
            }
            Line::Satisfied(weighing) => self.weigh(rt, weighing),
            Line::Check(sending) => self.check(rt, alloc, sending),
        }
    }
}
