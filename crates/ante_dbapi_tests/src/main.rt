//! Plays scripts of calls on primary rows, which stand in `data/` and are named by the program's words, on the store of the built-in
//! genesis, and prints each line with what came of it.
//!
//! `account` adds an account. `run` begins a run with empty lists of iterators: its receiver, `write` or `read`, `first` or
//! `notified`, and the actors of its action. `used` shows what an account is billed. All other lines are calls, with their
//! arguments; bytes are in hex, or `-` for none.
//!
//! What is to be printed was computed apart from the program.
#![tactic(auto)]

mod answers;
mod trial;
mod words;

use std::alloc::Global;
use std::{env, fs, io};
use trial::Trial;

fn play_lines(rt: &impl Print, alloc: Global, trial: &mut Trial, text: &str) -> io::Result<()> {
    for line in text.lines() {
        trial.print(rt, alloc, line)?;
    }
    Ok(())
}

fn play(rt: &impl Print, alloc: Global, text: &str) -> io::Result<()> {
    let mut trial = Trial::new(alloc)?;
    play_lines(rt, alloc, &mut trial, text)
}

fn main(rt: HostRuntime) -> io::Result<()> {
    for name in env::args(&rt)?.skip(1) {
        let text = fs::read_to_string(&rt, name.as_str())?;
        play(&rt, rt.alloc(), text.as_str())?;
    }
    Ok(())
}
