//! Prints what each instruction that a line of the input names gives at the boundary values of its width: one answer
//! for each value, or for each pair of values, the first operand's slower.
#![tactic(auto)]

mod name;

use ante_wnum::{Binary, Compare, NumTrap, Unary};
use name::{Instruction, Operator};
use std::io;
use std::io::Print;

/// 0, 1, -1, the least, the greatest, the width and one more.
const WORDS: [u32; 7] = [0, 1, 0xFFFF_FFFF, 0x8000_0000, 0x7FFF_FFFF, 32, 33];

const LONG_WORDS: [u64; 7] = [
    0,
    1,
    0xFFFF_FFFF_FFFF_FFFF,
    0x8000_0000_0000_0000,
    0x7FFF_FFFF_FFFF_FFFF,
    64,
    65,
];

fn print_outcome(rt: &impl Print, outcome: Result<u64, NumTrap>) -> io::Result<()> {
    match outcome {
        Ok(value) => print!(rt; " {value}"),
        Err(NumTrap::DivZero) => print!(rt; " zero"),
        Err(NumTrap::DivOverflow) => print!(rt; " overflow"),
    }
}

fn print_unary(rt: &impl Print, op: Unary) -> io::Result<()> {
    for a in WORDS {
        print!(rt; " {}", ante_wnum::i32_unary(op, a))?;
    }
    Ok(())
}

fn print_long_unary(rt: &impl Print, op: Unary) -> io::Result<()> {
    for a in LONG_WORDS {
        print!(rt; " {}", ante_wnum::i64_unary(op, a))?;
    }
    Ok(())
}

fn print_binary(rt: &impl Print, op: Binary) -> io::Result<()> {
    for a in WORDS {
        for b in WORDS {
            print_outcome(rt, ante_wnum::i32_binary(op, a, b).map(u64::from))?;
        }
    }
    Ok(())
}

fn print_long_binary(rt: &impl Print, op: Binary) -> io::Result<()> {
    for a in LONG_WORDS {
        for b in LONG_WORDS {
            print_outcome(rt, ante_wnum::i64_binary(op, a, b))?;
        }
    }
    Ok(())
}

fn print_compare(rt: &impl Print, op: Compare) -> io::Result<()> {
    for a in WORDS {
        for b in WORDS {
            print!(rt; " {}", ante_wnum::i32_compare(op, a, b))?;
        }
    }
    Ok(())
}

fn print_long_compare(rt: &impl Print, op: Compare) -> io::Result<()> {
    for a in LONG_WORDS {
        for b in LONG_WORDS {
            print!(rt; " {}", ante_wnum::i64_compare(op, a, b))?;
        }
    }
    Ok(())
}

fn print_answers(rt: &impl Print, instruction: Instruction) -> io::Result<()> {
    match (instruction.operator, instruction.is_long) {
        (Operator::Unary(op), false) => print_unary(rt, op),
        (Operator::Unary(op), true) => print_long_unary(rt, op),
        (Operator::Binary(op), false) => print_binary(rt, op),
        (Operator::Binary(op), true) => print_long_binary(rt, op),
        (Operator::Compare(op), false) => print_compare(rt, op),
        (Operator::Compare(op), true) => print_long_compare(rt, op),
    }
}

fn main(rt: HostRuntime) -> io::Result<()> {
    for line in rt.lines(rt.alloc()) {
        let line = line?;
        let name = line.as_str();
        print!(rt; "{name}:")?;
        match name::instruction_named(name) {
            Some(instruction) => print_answers(&rt, instruction)?,
            None => print!(rt; " unknown")?,
        }
        println!(rt; "")?;
    }
    Ok(())
}
