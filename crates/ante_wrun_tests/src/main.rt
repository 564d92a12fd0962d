//! Runs real modules by the tables in `data/`, which the program's words name, and prints how each run ends: the end, the
//! steps left, how many looks there were, and the calls that the host noted, each with its function's number.
//!
//! In a table `module` has the bytes of the module for the runs below it, with its text before it behind `#`. `run` has the
//! three arguments and the steps, then, if any, the look that asks to stop and its moment, and behind each `|` what the
//! host does at a call. `twice` has the steps of two runs over a host that counts its calls in a number that it is lent, and
//! their ends and the number are printed. All other lines are headings, and are printed as they are.
//!
//! What is to be printed was computed apart from the program, and compared with another interpreter.
#![tactic(auto)]

mod counting;
mod player;
mod table;
mod words;

use std::{env, fs, io};
use table::Table;

fn main(rt: HostRuntime) -> io::Result<()> {
    for name in env::args(&rt)?.skip(1) {
        let text = fs::read_to_string(&rt, name.as_str())?;
        let mut table = Table::new();
        for line in text.as_str().lines() {
            table.print(&rt, rt.alloc(), line)?;
        }
    }
    Ok(())
}
