//! Plays scripts of sessions and changes, which stand in `data/` and are named by the program's words, on the store of the built-in
//! genesis. After each line it prints what came of it, what the accounts 1 and 2 use, and the digest's first eight bytes.
//!
//! A line is a call of sessions, or a change with its numbers: a table by its place among four, how many bytes, keys, levels and waits.
//! `read` makes a change through tables that may only be read.
//!
//! What is to be printed was computed apart from the program.
#![tactic(auto)]

mod changes;
mod objects;
mod trial;
mod words;

use std::{env, fs, io};
use trial::Trial;

fn main(rt: HostRuntime) -> io::Result<()> {
    for name in env::args(&rt)?.skip(1) {
        let text = fs::read_to_string(&rt, name.as_str())?;
        let mut trial = Trial::new(rt.alloc())?;
        for line in text.as_str().lines() {
            trial.print(&rt, rt.alloc(), line)?;
        }
    }
    Ok(())
}
