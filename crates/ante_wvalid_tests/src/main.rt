//! Validates real modules by the tables in `data/`, which the program's words name, and prints what each is answered.
//!
//! In a table `module` has the bytes of a module, with its text before it behind `#`. All other lines are headings, and are
//! printed as they are.
//!
//! What is to be printed was computed apart from the program.
#![tactic(auto)]

#[cfg(test)]
mod tests;

use ante_wdecode::decode;
use ante_wvalid::validate;
use std::alloc::Global;
use std::io::ErrorKind;
use std::{env, fs, io};

fn print_answer(rt: &impl Print, alloc: Global, text: &str) -> io::Result<()> {
    let code = hex::decode(alloc, text).map_err(|_| ErrorKind::InvalidData)?;
    match decode(alloc, code.as_slice()) {
        Ok(module) => match validate(alloc, module) {
            Ok(_) => println!(rt; "valid"),
            Err(why) => println!(rt; "{why:?}"),
        },
        Err(why) => println!(rt; "{why:?}"),
    }
}

fn print_line(rt: &impl Print, alloc: Global, line: &str) -> io::Result<()> {
    if line.starts_with('#') {
        return Ok(());
    }
    match line.strip_prefix("module ") {
        Some(text) => print_answer(rt, alloc, text),
        None => println!(rt; "{line}"),
    }
}

fn main(rt: HostRuntime) -> io::Result<()> {
    for name in env::args(&rt)?.skip(1) {
        let text = fs::read_to_string(&rt, name.as_str())?;
        for line in text.as_str().lines() {
            print_line(&rt, rt.alloc(), line)?;
        }
    }
    Ok(())
}
