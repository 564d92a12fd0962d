//! The instructions at 64 bits.
ghost use Rattle.std.specs.Prelude.{◌≡◌, ◌≢◌, IsTrue, ◌-◌, ◌^◌, ◌<◌, ◌↔◌};
ghost use Rattle.ante_wnum.specs.NumericInstructions.{unary_of, binary_of, divides, compare_of};

use crate::{Binary, Compare, NumTrap, Unary};

/// `i64.clz`, `i64.ctz` and `i64.popcnt`.
pub fn i64_unary(op: Unary, a: u64) -> u64
    ensures { result ≡ unary_of 64 op a }
{
    match op {
        Unary::Clz => u64::from(a.leading_zeros()),
        Unary::Ctz => u64::from(a.trailing_zeros()),
        Unary::Popcnt => u64::from(a.count_ones()),
    }
}

fn div_s(a: u64, b: u64) -> Result<u64, NumTrap>
    ensures value { result ≡ binary_of 64 Binary.DivS a b }
    ensures zero { (result ≡ Err NumTrap.DivZero) ↔ (b ≡ 0) }
    ensures overflow { (result ≡ Err NumTrap.DivOverflow) ↔ ((a ≡ 2 ^ 63) × (b ≡ 2 ^ 64 - 1)) }
{
    let (dividend, divisor) = (a.cast_signed(), b.cast_signed());
    if divisor == 0 {
        Err(NumTrap::DivZero)
    } else if dividend == i64::MIN && divisor == -1 {
        Err(NumTrap::DivOverflow)
    } else {
        Ok((dividend / divisor).cast_unsigned())
    }
}

fn rem_s(a: u64, b: u64) -> Result<u64, NumTrap>
    ensures value { result ≡ binary_of 64 Binary.RemS a b }
    ensures zero { (result ≡ Err NumTrap.DivZero) ↔ (b ≡ 0) }
    ensures whole { result ≢ Err NumTrap.DivOverflow }
{
    if b == 0 {
        Err(NumTrap::DivZero)
    } else {
        Ok(
            a.cast_signed()
                .wrapping_rem(b.cast_signed())
                .cast_unsigned(),
        )
    }
}

fn shr_s(a: u64, count: u32) -> u64
    requires { count < 64 }
    ensures { Ok result ≡ binary_of 64 Binary.ShrS a count }
{
    (a.cast_signed() >> count).cast_unsigned()
}

fn rotl(a: u64, count: u32) -> u64
    requires { count < 64 }
    ensures { Ok result ≡ binary_of 64 Binary.Rotl a count }
{
    a.rotate_left(count)
}

fn rotr(a: u64, count: u32) -> u64
    requires { count < 64 }
    ensures { Ok result ≡ binary_of 64 Binary.Rotr a count }
{
    a.rotate_right(count)
}

fn div_u(a: u64, b: u64) -> Result<u64, NumTrap>
    ensures value { result ≡ binary_of 64 Binary.DivU a b }
    ensures zero { (result ≡ Err NumTrap.DivZero) ↔ (b ≡ 0) }
    ensures whole { result ≢ Err NumTrap.DivOverflow }
{
    if b == 0 {
        Err(NumTrap::DivZero)
    } else {
        Ok(a / b)
    }
}

fn rem_u(a: u64, b: u64) -> Result<u64, NumTrap>
    ensures value { result ≡ binary_of 64 Binary.RemU a b }
    ensures zero { (result ≡ Err NumTrap.DivZero) ↔ (b ≡ 0) }
    ensures whole { result ≢ Err NumTrap.DivOverflow }
{
    if b == 0 {
        Err(NumTrap::DivZero)
    } else {
        Ok(a % b)
    }
}

/// The instructions of `Binary` at i64. The count of a shift or a rotation is taken modulo 64.
pub fn i64_binary(op: Binary, a: u64, b: u64) -> Result<u64, NumTrap>
    ensures value { result ≡ binary_of 64 op a b }
    ensures zero { (result ≡ Err NumTrap.DivZero) ↔ (IsTrue (divides op) × (b ≡ 0)) }
    ensures overflow { (result ≡ Err NumTrap.DivOverflow) ↔ ((op ≡ Binary.DivS) × (a ≡ 2 ^ 63) × (b ≡ 2 ^ 64 - 1)) }
{
    let k = (b % 64) as u32;
    match op {
        Binary::Add => Ok(a.wrapping_add(b)),
        Binary::Sub => Ok(a.wrapping_sub(b)),
        Binary::Mul => Ok(a.wrapping_mul(b)),
        Binary::DivS => div_s(a, b),
        Binary::DivU => div_u(a, b),
        Binary::RemS => rem_s(a, b),
        Binary::RemU => rem_u(a, b),
        Binary::And => Ok(a & b),
        Binary::Or => Ok(a | b),
        Binary::Xor => Ok(a ^ b),
        Binary::Shl => Ok(a << k),
        Binary::ShrS => Ok(shr_s(a, k)),
        Binary::ShrU => Ok(a >> k),
        Binary::Rotl => Ok(rotl(a, k)),
        Binary::Rotr => Ok(rotr(a, k)),
    }
}

/// The comparisons of `Compare` at i64.
pub fn i64_compare(op: Compare, a: u64, b: u64) -> u32
    ensures { result ≡ compare_of 64 op a b }
{
    let (x, y) = (a.cast_signed(), b.cast_signed());
    u32::from(match op {
        Compare::Eq => a == b,
        Compare::Ne => a != b,
        Compare::LtS => x < y,
        Compare::LtU => a < b,
        Compare::GtS => x > y,
        Compare::GtU => a > b,
        Compare::LeS => x <= y,
        Compare::LeU => a <= b,
        Compare::GeS => x >= y,
        Compare::GeU => a >= b,
    })
}
