//! Sends native actions and judges geneses, by the tables in `data/`, which are named by the program's words, and prints each line with
//! what came of it.
//!
//! A table changes its state line by line, beginning with that of the built-in genesis, with which `state` begins again:
//!
//!     write RECEIVER ACCOUNT ACTION DATA ACTOR@PERMISSION ..
//!     read RECEIVER ACCOUNT ACTION DATA ACTOR@PERMISSION ..
//!     used ACCOUNT
//!     digest
//!     genesis PACKED
//!
//! An action that is refused leaves the state as it was. `-` is the empty name, and data are in hex, or `-` for none.
//!
//! What is to be printed was computed apart from the program.
#![tactic(auto)]

mod answers;
mod trial;
mod words;

use std::{env, fs, io};
use trial::Trial;

fn main(rt: HostRuntime) -> io::Result<()> {
    for name in env::args(&rt)?.skip(1) {
        let text = fs::read_to_string(&rt, name.as_str())?;
        let mut trial = Trial::new(rt.alloc())?;
        for line in text.as_str().lines() {
            trial = trial.print(&rt, rt.alloc(), line)?;
        }
    }
    Ok(())
}
