//! The integer instructions of WebAssembly Core 1.0 (sections 4.3.2 and 4.4.1) at 32 and 64 bits.
#![tactic(auto)]

mod word32;
mod word64;

use thiserror::Error;
pub use word32::{i32_binary, i32_compare, i32_unary};
pub use word64::{i64_binary, i64_compare, i64_unary};

/// The instructions with one operand.
#[derive(Clone, Copy, PartialEq, Eq, Debug)]
pub enum Unary {
    Clz,
    Ctz,
    Popcnt,
}

/// The instructions with two operands whose answer is of the operands' width.
#[derive(Clone, Copy, PartialEq, Eq, Debug)]
pub enum Binary {
    Add,
    Sub,
    Mul,
    DivS,
    DivU,
    RemS,
    RemU,
    And,
    Or,
    Xor,
    Shl,
    ShrS,
    ShrU,
    Rotl,
    Rotr,
}

/// The comparisons, whose answer is 1 or 0.
#[derive(Clone, Copy, PartialEq, Eq, Debug)]
pub enum Compare {
    Eq,
    Ne,
    LtS,
    LtU,
    GtS,
    GtU,
    LeS,
    LeU,
    GeS,
    GeU,
}

/// Why an instruction has no answer.
#[derive(Clone, Copy, PartialEq, Eq, Debug, Error)]
pub enum NumTrap {
    /// The divisor is 0.
    #[error("integer divide by zero")]
    DivZero,
    /// The signed quotient is 2 ^ (N - 1), which has no signed reading.
    #[error("integer overflow")]
    DivOverflow,
}
