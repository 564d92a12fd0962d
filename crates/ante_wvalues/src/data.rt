//! What the plain instructions change, and the numbers that they read.
ghost use Rattle.std.specs.Prelude.{◌≡◌, ◌+◌, ◌-◌, ◌≤◌, ◌<◌, ◌^◌, nat_lt, if◌then◌else◌};
ghost use Rattle.ante_wtree.specs.Accesses.{extended};
ghost use Rattle.ante_wmeaning.specs.PlainInstructions.{low, trap_of};

use crate::values::ValueStack;
use ante_wmeaning::TrapKind;
use ante_wmem::Memory;
use ante_wnum::NumTrap;
use ante_wtree::LoadKind;

/// The values of the frames, the globals and the memory of an instance.
#[derive(Drop)]
pub struct Data {
    pub values: ValueStack,
    pub globals: Vec<u64>,
    pub memory: Memory,
}

/// An operand as an i32.
#[inline(always)]
pub fn low(value: u64) -> u32
    ensures { result ≡ low value }
{
    (value % (1 << 32)) as u32
}

pub(crate) fn trap_of(kind: NumTrap) -> TrapKind
    ensures { result ≡ trap_of kind }
{
    match kind {
        NumTrap::DivZero => TrapKind::DivZero,
        NumTrap::DivOverflow => TrapKind::DivOverflow,
    }
}

/// A number with `fill` added where its highest bit, of the worth `half`, is set.
fn sign_filled(value: u64, half: u64, fill: u64) -> u64
    requires fill { half + half + fill ≤ 2 ^ 64 }
    requires small { half + half < 2 ^ 64 }
    ensures { result ≡ (if nat_lt value half then value else (if nat_lt value (half + half) then value + fill else value - (half + half))) }
{
    if value < half {
        value
    } else if value < half + half {
        value + fill
    } else {
        value - (half + half)
    }
}

const FILL_32_8: u64 = 0xFFFF_FF00;

const FILL_32_16: u64 = 0xFFFF_0000;

const FILL_64_8: u64 = 0xFFFF_FFFF_FFFF_FF00;

const FILL_64_16: u64 = 0xFFFF_FFFF_FFFF_0000;

const FILL_64_32: u64 = 0xFFFF_FFFF_0000_0000;

/// The loaded bits at the width of the result.
#[tactic(auto, using(crate::proofs::Signs::extension))]
pub(crate) fn extended(kind: LoadKind, value: u64) -> u64
    ensures { result ≡ extended kind value }
{
    match kind {
        LoadKind::I32S8 => sign_filled(value, 1 << 7, FILL_32_8),
        LoadKind::I32S16 => sign_filled(value, 1 << 15, FILL_32_16),
        LoadKind::I64S8 => sign_filled(value, 1 << 7, FILL_64_8),
        LoadKind::I64S16 => sign_filled(value, 1 << 15, FILL_64_16),
        LoadKind::I64S32 => sign_filled(value, 1 << 31, FILL_64_32),
        LoadKind::I32
        | LoadKind::I64
        | LoadKind::I32U8
        | LoadKind::I32U16
        | LoadKind::I64U8
        | LoadKind::I64U16
        | LoadKind::I64U32 => value,
    }
}
