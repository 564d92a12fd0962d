//! Asks what is wrong with transactions, by the tables in `data/`, which are named by the program's words, and prints each line with what
//! came of it.
//!
//! A table builds its state line by line on that of the built-in genesis, with which `state` begins again:
//!
//!     account NAME
//!     permission ACTOR NAME PARENT KEY
//!     reference LOW PREFIX
//!     recent EXPIRATION SIZE
//!     quota ACCOUNT QUOTA
//!     row PRIMARY PAYER LENGTH
//!     update PRIMARY PAYER LENGTH
//!     remove PRIMARY
//!     begin
//!
//! `begin` begins a session. A transaction begins with what stands beside its actions, and counts of empty actions and extensions that aren't
//! supported; each action without data is a line of its own:
//!
//!     transaction EXPIRATION LOW PREFIX DELAY CONTEXT_FREE EXTENSIONS
//!     action ACCOUNT NAME ACTOR@PERMISSION ..
//!
//! The other lines ask. The packed form stands for itself, and is `SIZE` zeros, also where a pair of `recent` names it. A signature is a text, and `-`
//! is the empty one; a key is its last byte, with zeros before it:
//!
//!     check SLOT SIZE SIGNATURE ..
//!     read SIZE
//!     memory
//!
//! What is to be printed was computed apart from the program.
#![tactic(auto)]

mod answers;
mod trial;
mod words;

use std::{env, fs, io};
use trial::Trial;

fn main(rt: HostRuntime) -> io::Result<()> {
    for name in env::args(&rt)?.skip(1) {
        let text = fs::read_to_string(&rt, name.as_str())?;
        let mut trial = Trial::new(rt.alloc())?;
        for line in text.as_str().lines() {
            trial.print(&rt, rt.alloc(), line)?;
        }
    }
    Ok(())
}
