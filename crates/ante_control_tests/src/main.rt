//! Pushes blocks onto chains by the table in `data/`, which the program's word names, and prints what becomes of each, the head
//! and the irreversible number; then the applied list, and the numbers that the machine's world has.
//!
//! In the table `genesis` has the packed genesis, `block` a name and a packed block, `id` a name and a block's id, and `trx` a name and
//! a packed transaction. `push` goes through its words on a new chain: a name pushes a block, `make:SLOT:NAMES` makes one of these
//! transactions, `drop:SLOT:NAMES` begins one and abandons it, and `fill:SLOT:NAME` makes one of as many of this transaction as have
//! room. All other lines are headings, and are printed as they are.
//!
//! What is to be printed was computed apart from the program.
#![tactic(auto)]

mod numbers;
mod pushes;
mod table;

use std::{env, fs, io};
use table::Table;

fn main(rt: HostRuntime) -> io::Result<()> {
    for name in env::args(&rt)?.skip(1) {
        let text = fs::read_to_string(&rt, name.as_str())?;
        let mut table = Table::new(rt.alloc());
        for line in text.as_str().lines() {
            table.print(&rt, rt.alloc(), line)?;
        }
    }
    Ok(())
}
