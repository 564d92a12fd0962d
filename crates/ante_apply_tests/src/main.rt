//! Runs the actions that the tables in `data/` list, which are named by the program's words, on the store of the built-in genesis, and
//! prints each line with what came of it.
//!
//! A table sets its scene line by line:
//!
//!     transaction BYTES
//!     slot NUMBER
//!     digest
//!     write STEPS ACCOUNT ACTION DATA ACTOR@PERMISSION ..
//!     read STEPS ACCOUNT ACTION DATA ACTOR@PERMISSION ..
//!
//! An action finds the state as the one before left it; one that fails leaves it as it was. `-` is the empty name, and data are in hex, or
//! `-` for none. Below the end and the steps that are left stand the runs: the run's number and that of the run that caused it, the
//! receiver, the action, the steps, and what the run said.
//!
//! Contracts' texts stand behind `#`, with `@bob` for a name's number, and without imports and what `show`, `show64` and `hex` do, which
//! print a number or bytes of the memory and a space.
//!
//! What is to be printed was computed apart from the program.
#![tactic(auto)]

mod answers;
mod trial;
mod words;

use ante_modcache::ModuleCache;
use std::alloc::Global;
use std::{env, fs, io};
use trial::Trial;

fn print_lines(
    rt: &impl Print,
    alloc: Global,
    modules: &ModuleCache,
    trial: &mut Trial,
    table: &str,
) -> io::Result<()> {
    for line in table.lines() {
        trial.print(rt, alloc, modules, line)?;
    }
    Ok(())
}

fn play(rt: &impl Print, alloc: Global, modules: &ModuleCache, table: &str) -> io::Result<()> {
    let mut trial = Trial::new(alloc)?;
    print_lines(rt, alloc, modules, &mut trial, table)
}

fn main(rt: HostRuntime) -> io::Result<()> {
    let modules = ModuleCache::new(rt.alloc())?;
    for name in env::args(&rt)?.skip(1) {
        let table = fs::read_to_string(&rt, name.as_str())?;
        play(&rt, rt.alloc(), &modules, table.as_str())?;
    }
    Ok(())
}
