//! Plays scripts of calls on rows of all kinds, which stand in `data/` and are named by the program's words, each on the store of the
//! built-in genesis, and prints each line with what came of it.
//!
//! `begin`, `undo`, `squash`, `shelve` and `unshelve` are the session calls, of which one whose condition doesn't hold isn't made.
//! `account` adds an account. `run` begins a run with empty lists of iterators: its receiver, `write` or `read`, `first` or
//! `notified`, and the actors of its action. `used` shows what an account is billed, and `digest` the digest of the state. All other
//! lines are calls with their arguments, after the width of the keys or `i64` for primary rows; keys of 256 bits are two words.
//!
//! What is to be printed was computed apart from the program.
#![tactic(auto)]

mod calls;
mod trial;
mod words;

use std::alloc::Global;
use std::{env, fs, io};
use trial::Trial;

fn play_lines(rt: &impl Print, alloc: Global, trial: &mut Trial, text: &str) -> io::Result<()> {
    for line in text.lines() {
        trial.print(rt, alloc, line)?;
    }
    Ok(())
}

fn play(rt: &impl Print, alloc: Global, text: &str) -> io::Result<()> {
    let mut trial = Trial::new(alloc)?;
    play_lines(rt, alloc, &mut trial, text)
}

fn main(rt: HostRuntime) -> io::Result<()> {
    for name in env::args(&rt)?.skip(1) {
        let text = fs::read_to_string(&rt, name.as_str())?;
        play(&rt, rt.alloc(), text.as_str())?;
    }
    Ok(())
}
