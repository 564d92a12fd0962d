//! Asks who may send actions, by the tables in `data/`, which are named by the program's words, and prints each line with what came
//! of it.
//!
//! A table builds its state line by line on that of the built-in genesis, with which `state` begins again:
//!
//!     account NAME
//!     permission ACTOR NAME PARENT THRESHOLD KEYS (KEY WEIGHT).. LEVELS (ACTOR NAME WEIGHT)..
//!     link ACCOUNT CONTRACT ACTION PERMISSION
//!
//! where `KEYS` and `LEVELS` say how many follow. A key is its last byte, with zeros before it, and `-` is the empty name. The other
//! lines ask. `CODE` is the contract that calls, or `-` for none, and data are in hex, or `-` for none:
//!
//!     satisfied ACTOR NAME CODE VISITS KEYS KEY..
//!     check ACCOUNT ACTION DATA CODE KEYS KEY.. LEVELS (ACTOR NAME)..
//!
//! What is to be printed was computed apart from the program.
#![tactic(auto)]

mod trial;
mod words;

use std::alloc::Global;
use std::{env, fs, io};
use trial::Trial;

fn play_lines(rt: &impl Print, alloc: Global, trial: &mut Trial, text: &str) -> io::Result<()> {
    for line in text.lines() {
        trial.print(rt, alloc, line)?;
    }
    Ok(())
}

fn play(rt: &impl Print, alloc: Global, text: &str) -> io::Result<()> {
    let mut trial = Trial::new(alloc)?;
    play_lines(rt, alloc, &mut trial, text)
}

fn main(rt: HostRuntime) -> io::Result<()> {
    for name in env::args(&rt)?.skip(1) {
        let text = fs::read_to_string(&rt, name.as_str())?;
        play(&rt, rt.alloc(), text.as_str())?;
    }
    Ok(())
}
