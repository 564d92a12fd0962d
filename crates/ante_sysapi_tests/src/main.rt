//! Makes the calls that the tables in `data/` list, which are named by the program's words, on the store of the built-in genesis, and
//! prints each line with what came of it.
//!
//! A table sets its scene line by line:
//!
//!     transaction BYTES
//!     account NAME
//!     run RECEIVER write|read DEPTH SENDER SLOT CONTRACT DATA LEVELS (ACTOR PERMISSION)..
//!     put ADDRESS BYTES
//!     quota NAME
//!
//! `run` begins a run with a memory of two pages of zeros, for an action of the contract with these data and so many levels, and `quota`
//! shows the memory that an account may use. Bytes are in hex, `61*1024` for a byte and how often, or `-` for none. All other lines are calls:
//!
//!     CALL STEPS ARGUMENT.. @ ADDRESS COUNT
//!
//! An argument is a number or a name, and what follows `@`, which may be left out, is a range of the memory to show after the call. After
//! the reply and the steps that are left comes what the run has said and asked for so far.
//!
//! What is to be printed was computed apart from the program.
#![tactic(auto)]

mod answers;
mod trial;
mod words;

use std::alloc::Global;
use std::{env, fs, io};
use trial::Trial;

fn play(rt: &impl Print, alloc: Global, table: &str) -> io::Result<()> {
    let mut trial = Trial::new(alloc)?;
    for line in table.lines() {
        trial.print(rt, alloc, line)?;
    }
    Ok(())
}

fn main(rt: HostRuntime) -> io::Result<()> {
    for name in env::args(&rt)?.skip(1) {
        let table = fs::read_to_string(&rt, name.as_str())?;
        play(&rt, rt.alloc(), table.as_str())?;
    }
    Ok(())
}
