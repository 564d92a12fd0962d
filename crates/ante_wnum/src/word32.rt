//! The instructions at 32 bits.
ghost use Rattle.std.specs.Prelude.{◌≡◌, ◌≢◌, IsTrue, ◌-◌, ◌^◌, ◌<◌, ◌↔◌};
ghost use Rattle.ante_wnum.specs.NumericInstructions.{unary_of, binary_of, divides, compare_of};

use crate::{Binary, Compare, NumTrap, Unary};

/// `i32.clz`, `i32.ctz` and `i32.popcnt`.
pub fn i32_unary(op: Unary, a: u32) -> u32
    ensures { result ≡ unary_of 32 op a }
{
    match op {
        Unary::Clz => a.leading_zeros(),
        Unary::Ctz => a.trailing_zeros(),
        Unary::Popcnt => a.count_ones(),
    }
}

fn div_s(a: u32, b: u32) -> Result<u32, NumTrap>
    ensures value { result ≡ binary_of 32 Binary.DivS a b }
    ensures zero { (result ≡ Err NumTrap.DivZero) ↔ (b ≡ 0) }
    ensures overflow { (result ≡ Err NumTrap.DivOverflow) ↔ ((a ≡ 2 ^ 31) × (b ≡ 2 ^ 32 - 1)) }
{
    let (dividend, divisor) = (a.cast_signed(), b.cast_signed());
    if divisor == 0 {
        Err(NumTrap::DivZero)
    } else if dividend == i32::MIN && divisor == -1 {
        Err(NumTrap::DivOverflow)
    } else {
        Ok((dividend / divisor).cast_unsigned())
    }
}

fn rem_s(a: u32, b: u32) -> Result<u32, NumTrap>
    ensures value { result ≡ binary_of 32 Binary.RemS a b }
    ensures zero { (result ≡ Err NumTrap.DivZero) ↔ (b ≡ 0) }
    ensures whole { result ≢ Err NumTrap.DivOverflow }
{
    if b == 0 {
        Err(NumTrap::DivZero)
    } else {
        Ok(
            a.cast_signed()
                .wrapping_rem(b.cast_signed())
                .cast_unsigned(),
        )
    }
}

fn shr_s(a: u32, count: u32) -> u32
    requires { count < 32 }
    ensures { Ok result ≡ binary_of 32 Binary.ShrS a count }
{
    (a.cast_signed() >> count).cast_unsigned()
}

fn rotl(a: u32, count: u32) -> u32
    requires { count < 32 }
    ensures { Ok result ≡ binary_of 32 Binary.Rotl a count }
{
    a.rotate_left(count)
}

fn rotr(a: u32, count: u32) -> u32
    requires { count < 32 }
    ensures { Ok result ≡ binary_of 32 Binary.Rotr a count }
{
    a.rotate_right(count)
}

fn div_u(a: u32, b: u32) -> Result<u32, NumTrap>
    ensures value { result ≡ binary_of 32 Binary.DivU a b }
    ensures zero { (result ≡ Err NumTrap.DivZero) ↔ (b ≡ 0) }
    ensures whole { result ≢ Err NumTrap.DivOverflow }
{
    if b == 0 {
        Err(NumTrap::DivZero)
    } else {
        Ok(a / b)
    }
}

fn rem_u(a: u32, b: u32) -> Result<u32, NumTrap>
    ensures value { result ≡ binary_of 32 Binary.RemU a b }
    ensures zero { (result ≡ Err NumTrap.DivZero) ↔ (b ≡ 0) }
    ensures whole { result ≢ Err NumTrap.DivOverflow }
{
    if b == 0 {
        Err(NumTrap::DivZero)
    } else {
        Ok(a % b)
    }
}

/// The instructions of `Binary` at i32. The count of a shift or a rotation is taken modulo 32.
pub fn i32_binary(op: Binary, a: u32, b: u32) -> Result<u32, NumTrap>
    ensures value { result ≡ binary_of 32 op a b }
    ensures zero { (result ≡ Err NumTrap.DivZero) ↔ (IsTrue (divides op) × (b ≡ 0)) }
    ensures overflow { (result ≡ Err NumTrap.DivOverflow) ↔ ((op ≡ Binary.DivS) × (a ≡ 2 ^ 31) × (b ≡ 2 ^ 32 - 1)) }
{
    let k = b % 32;
    match op {
        Binary::Add => Ok(a.wrapping_add(b)),
        Binary::Sub => Ok(a.wrapping_sub(b)),
        Binary::Mul => Ok(a.wrapping_mul(b)),
        Binary::DivS => div_s(a, b),
        Binary::DivU => div_u(a, b),
        Binary::RemS => rem_s(a, b),
        Binary::RemU => rem_u(a, b),
        Binary::And => Ok(a & b),
        Binary::Or => Ok(a | b),
        Binary::Xor => Ok(a ^ b),
        Binary::Shl => Ok(a << k),
        Binary::ShrS => Ok(shr_s(a, k)),
        Binary::ShrU => Ok(a >> k),
        Binary::Rotl => Ok(rotl(a, k)),
        Binary::Rotr => Ok(rotr(a, k)),
    }
}

/// The comparisons of `Compare` at i32.
pub fn i32_compare(op: Compare, a: u32, b: u32) -> u32
    ensures { result ≡ compare_of 32 op a b }
{
    let (x, y) = (a.cast_signed(), b.cast_signed());
    u32::from(match op {
        Compare::Eq => a == b,
        Compare::Ne => a != b,
        Compare::LtS => x < y,
        Compare::LtU => a < b,
        Compare::GtS => x > y,
        Compare::GtU => a > b,
        Compare::LeS => x <= y,
        Compare::LeU => a <= b,
        Compare::GeS => x >= y,
        Compare::GeU => a >= b,
    })
}
