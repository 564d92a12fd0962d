//! A table's lines: modules, and runs of the module before them.
use crate::counting::run_twice;
use crate::player::{Note, Player};
use crate::words::{Row, read_row};
use ante_base::AtLook;
use ante_wdecode::decode;
use ante_wmeaning::imports_have_host_types;
use ante_wrun::Machine;
use ante_wvalid::{ValidModule, validate};
use std::alloc::Global;
use std::io;
use std::io::ErrorKind;

/// The module of the runs that come next.
#[derive(Drop)]
pub struct Table {
    machine: Machine,
    module: Option<ValidModule>,
}

fn load(rt: &impl Print, alloc: Global, text: &str) -> io::Result<Option<ValidModule>> {
    let code = hex::decode(alloc, text).map_err(|_| ErrorKind::InvalidData)?;
    match decode(alloc, code.as_slice()) {
        Ok(module) => match validate(alloc, module) {
            Ok(module) => return Ok(Some(module)),
            Err(why) => println!(rt; "{why:?}")?,
        },
        Err(why) => println!(rt; "{why:?}")?,
    }
    Ok(None)
}

/// No run comes to this look.
const NEVER: (u64, u64) = ((1 << 63) - 1, 0);

fn stop(look: Option<(u64, u64)>) -> AtLook {
    match look {
        Some((number, moment)) if number < 1 << 63 => AtLook::new(number, moment),
        _ => AtLook::new(NEVER.0, NEVER.1),
    }
}

fn print_notes(rt: &impl Print, notes: &[Note]) -> io::Result<()> {
    for note in notes {
        match note {
            Note::Call(number, args) => print!(rt; " {number}{:?}", args.as_slice())?,
            Note::Shown(value) => print!(rt; "={value}")?,
        }
    }
    println!(rt; "")
}

impl Table {
    pub fn new() -> Table {
        Table {
            machine: Machine::new(),
            module: None,
        }
    }

    fn run(&mut self, rt: &impl Print, alloc: Global, row: Row) -> io::Result<()> {
        let Some(module) = &self.module else {
            return println!(rt; " no module");
        };
        let mut host = Player::new(alloc, row.plays);
        let mut stop = stop(row.look);
        let mut left = row.left;
        imports_have_host_types(module);
        match self
            .machine
            .run(alloc, module, row.args, &mut host, &mut stop, &mut left)
        {
            Ok(end) => print!(rt; " {end:?}")?,
            Err(_) => print!(rt; " out of memory")?,
        }
        print!(rt; ", {left} left, {} looks:", stop.looks())?;
        print_notes(rt, host.notes.as_slice())
    }

    fn run_twice(&self, rt: &impl Print, alloc: Global, steps: u64) -> io::Result<()> {
        let Some(module) = &self.module else {
            return println!(rt; " no module");
        };
        let mut calls = 0_u64;
        match run_twice(alloc, module, &mut calls, steps) {
            Ok((first, second)) => println!(rt; " {first:?}, {second:?}: {calls} calls"),
            Err(_) => println!(rt; " out of memory"),
        }
    }

    /// Does what the line says and prints what comes of it.
    pub fn print(&mut self, rt: &impl Print, alloc: Global, line: &str) -> io::Result<()> {
        if line.starts_with('#') {
            return Ok(());
        }
        if let Some(text) = line.strip_prefix("module ") {
            self.module = load(rt, alloc, text)?;
            return Ok(());
        }
        if let Some(text) = line.strip_prefix("run ") {
            print!(rt; "{line} =>")?;
            return self.run(rt, alloc, read_row(alloc, text)?);
        }
        if let Some(text) = line.strip_prefix("twice ") {
            print!(rt; "{line} =>")?;
            let steps = text.parse().map_err(|_| ErrorKind::InvalidData)?;
            return self.run_twice(rt, alloc, steps);
        }
        println!(rt; "{line}")
    }
}
