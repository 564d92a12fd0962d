//! Plays scripts of calls on secondary indexes, which stand in `data/` and are named by the program's words, and prints each
//! line with what came of it.
//!
//! `width` begins with no row at revision 5, for keys of 64, 128 or 256 bits. Tables are named by their numbers in `table`, 256-bit
//! keys by their two words with a colon between. `walk` and `back` show a table's rows from the first and from the last, and `all`
//! those of all tables with their payers. All other lines are calls, with their arguments. A call whose condition doesn't hold
//! isn't made.
//!
//! What is to be printed was computed apart from the program.
#![tactic(auto)]

mod trial;
mod words;

use ante_pack::Key256;
use std::alloc::Global;
use std::{env, fs, io};
use trial::{Trial, print_line};

// An index of each width, of which the last one named is the one in play.
#[derive(Drop)]
struct Trials {
    narrow: Trial<u64>,
    wide: Trial<u128>,
    widest: Trial<Key256>,
    width: u64,
}

impl Trials {
    fn new(alloc: Global) -> Trials {
        Trials {
            narrow: Trial::new(alloc),
            wide: Trial::new(alloc),
            widest: Trial::new(alloc),
            width: 64,
        }
    }

    fn print(&mut self, rt: &impl Print, alloc: Global, line: &str) -> io::Result<()> {
        match self.width {
            64 => print_line(rt, alloc, &mut self.narrow, line),
            128 => print_line(rt, alloc, &mut self.wide, line),
            _ => print_line(rt, alloc, &mut self.widest, line),
        }
    }
}

fn play(rt: &impl Print, alloc: Global, text: &str) -> io::Result<()> {
    let mut trials = Trials::new(alloc);
    for line in text.lines() {
        match line.strip_prefix("width ") {
            Some(width) => {
                println!(rt; "{line}")?;
                trials = Trials::new(alloc);
                trials.width = width.parse().unwrap_or(0);
            }
            None => trials.print(rt, alloc, line)?,
        }
    }
    Ok(())
}

fn main(rt: HostRuntime) -> io::Result<()> {
    for name in env::args(&rt)?.skip(1) {
        let text = fs::read_to_string(&rt, name.as_str())?;
        play(&rt, rt.alloc(), text.as_str())?;
    }
    Ok(())
}
