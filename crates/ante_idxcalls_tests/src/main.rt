//! Plays scripts of calls on the rows of secondary indexes as a contract makes them. The scripts stand in `data/`, and are named by the
//! program's words; each is played on the store of the built-in genesis with a memory of one page, and each line is printed with what came
//! of it.
//!
//! `account` adds an account. `run` begins a run with empty lists of iterators: its receiver, and `write` or `read`. `put` writes bytes in
//! hex to an address, and `show` gives so many from one. All other lines are calls, with their arguments, after the width of the keys.
//!
//! What is to be printed was computed apart from the program.
#![tactic(auto)]

mod calls;
mod trial;
mod words;

use std::alloc::Global;
use std::{env, fs, io};
use trial::Trial;

fn play(rt: &impl Print, alloc: Global, trial: &mut Trial, script: &str) -> io::Result<()> {
    for line in script.lines() {
        trial.print(rt, alloc, line)?;
    }
    Ok(())
}

fn play_script(rt: &impl Print, alloc: Global, script: &str) -> io::Result<()> {
    let mut trial = Trial::new(alloc)?;
    play(rt, alloc, &mut trial, script)
}

fn main(rt: HostRuntime) -> io::Result<()> {
    for name in env::args(&rt)?.skip(1) {
        let text = fs::read_to_string(&rt, name.as_str())?;
        play_script(&rt, rt.alloc(), text.as_str())?;
    }
    Ok(())
}
