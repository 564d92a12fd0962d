//! Plays the scripts in `data/`, which the program's words name, each on the store of the built-in genesis, and prints what is answered.
//!
//! `account`, `permission`, `quota` and `row` make a change of the state: names are texts, `.` is the empty name, bytes are in hex, `-` for
//! none, or `*` and how many zeros. All other lines are queries, a path and its body, whose answers are printed as bodies of replies, long
//! ones by their length and SHA-256.
//!
//! What is to be printed was computed apart from the program.
#![tactic(auto)]

mod asking;
mod trial;
mod words;

use std::alloc::Global;
use std::{env, fs, io};
use trial::Trial;

fn play_lines(rt: &impl Print, alloc: Global, trial: &mut Trial, text: &str) -> io::Result<()> {
    for line in text.lines() {
        trial.print(rt, alloc, line)?;
    }
    Ok(())
}

fn play(rt: &impl Print, alloc: Global, text: &str) -> io::Result<()> {
    let mut trial = Trial::new(alloc)?;
    play_lines(rt, alloc, &mut trial, text)
}

fn main(rt: HostRuntime) -> io::Result<()> {
    for name in env::args(&rt)?.skip(1) {
        let text = fs::read_to_string(&rt, name.as_str())?;
        play(&rt, rt.alloc(), text.as_str())?;
    }
    Ok(())
}
