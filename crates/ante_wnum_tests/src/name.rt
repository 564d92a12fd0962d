//! The text names of the instructions, as `i32.add`.
use ante_wnum::{Binary, Compare, Unary};

#[derive(Clone, Copy)]
pub enum Operator {
    Unary(Unary),
    Binary(Binary),
    Compare(Compare),
}

#[derive(Clone, Copy)]
pub struct Instruction {
    /// Whether the operands are of 64 bits.
    pub is_long: bool,
    pub operator: Operator,
}

pub fn instruction_named(name: &str) -> Option<Instruction> {
    let (width, operator) = name.split_once('.')?;
    let is_long = match width {
        "i32" => false,
        "i64" => true,
        _ => return None,
    };
    let operator = if let Some(op) = unary_named(operator) {
        Operator::Unary(op)
    } else if let Some(op) = binary_named(operator) {
        Operator::Binary(op)
    } else {
        Operator::Compare(compare_named(operator)?)
    };
    Some(Instruction { is_long, operator })
}

fn unary_named(name: &str) -> Option<Unary> {
    match name {
        "clz" => Some(Unary::Clz),
        "ctz" => Some(Unary::Ctz),
        "popcnt" => Some(Unary::Popcnt),
        _ => None,
    }
}

fn binary_named(name: &str) -> Option<Binary> {
    match name {
        "add" => Some(Binary::Add),
        "sub" => Some(Binary::Sub),
        "mul" => Some(Binary::Mul),
        "div_s" => Some(Binary::DivS),
        "div_u" => Some(Binary::DivU),
        "rem_s" => Some(Binary::RemS),
        "rem_u" => Some(Binary::RemU),
        "and" => Some(Binary::And),
        "or" => Some(Binary::Or),
        "xor" => Some(Binary::Xor),
        "shl" => Some(Binary::Shl),
        "shr_s" => Some(Binary::ShrS),
        "shr_u" => Some(Binary::ShrU),
        "rotl" => Some(Binary::Rotl),
        "rotr" => Some(Binary::Rotr),
        _ => None,
    }
}

fn compare_named(name: &str) -> Option<Compare> {
    match name {
        "eq" => Some(Compare::Eq),
        "ne" => Some(Compare::Ne),
        "lt_s" => Some(Compare::LtS),
        "lt_u" => Some(Compare::LtU),
        "gt_s" => Some(Compare::GtS),
        "gt_u" => Some(Compare::GtU),
        "le_s" => Some(Compare::LeS),
        "le_u" => Some(Compare::LeU),
        "ge_s" => Some(Compare::GeS),
        "ge_u" => Some(Compare::GeU),
        _ => None,
    }
}
