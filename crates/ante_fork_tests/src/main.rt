//! Pushes blocks onto trees by the table in `data/`, which the program's word names, and prints what becomes of each, the head
//! and the irreversible number.
//!
//! In the table `genesis` has the packed genesis. `block` has a block's name, its predecessor's (`last` is an id with the last
//! number), slot and producer; `root` behind them spoils its root. `push` pushes blocks onto a new tree, and `path`, `num`
//! and `kept` ask that tree. All other lines are headings, and are printed as they are.
//!
//! What is to be printed was computed apart from the program.
#![tactic(auto)]

mod pushes;
mod table;

use std::{env, fs, io};
use table::Table;

fn main(rt: HostRuntime) -> io::Result<()> {
    for name in env::args(&rt)?.skip(1) {
        let text = fs::read_to_string(&rt, name.as_str())?;
        let mut table = Table::new(rt.alloc());
        for line in text.as_str().lines() {
            table.print(&rt, rt.alloc(), line)?;
        }
    }
    Ok(())
}
