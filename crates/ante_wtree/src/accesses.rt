//! What the loads and stores move (section 2.4.4).
ghost use Rattle.std.specs.Prelude.{◌≡◌};
ghost use Rattle.ante_wtree.specs.Accesses.{load_result, load_width, store_operand, store_width, exponent};

use crate::instructions::{LoadKind, StoreKind, ValueKind};
use ante_wmem::Width;

/// The kind of what a load gives.
pub fn load_result(kind: LoadKind) -> ValueKind
    ensures { result ≡ load_result kind }
{
    match kind {
        LoadKind::I32 | LoadKind::I32S8 | LoadKind::I32U8 | LoadKind::I32S16 | LoadKind::I32U16 =>
            ValueKind::I32,
        LoadKind::I64
        | LoadKind::I64S8
        | LoadKind::I64U8
        | LoadKind::I64S16
        | LoadKind::I64U16
        | LoadKind::I64S32
        | LoadKind::I64U32 => ValueKind::I64,
    }
}

/// How many bytes a load reads.
#[inline(always)]
pub fn load_width(kind: LoadKind) -> Width
    ensures { result ≡ load_width kind }
{
    match kind {
        LoadKind::I64 => Width::Eight,
        LoadKind::I32 | LoadKind::I64S32 | LoadKind::I64U32 => Width::Four,
        LoadKind::I32S16 | LoadKind::I32U16 | LoadKind::I64S16 | LoadKind::I64U16 => Width::Two,
        LoadKind::I32S8 | LoadKind::I32U8 | LoadKind::I64S8 | LoadKind::I64U8 => Width::One,
    }
}

/// The kind of what a store takes.
pub fn store_operand(kind: StoreKind) -> ValueKind
    ensures { result ≡ store_operand kind }
{
    match kind {
        StoreKind::I32 | StoreKind::I32As8 | StoreKind::I32As16 => ValueKind::I32,
        StoreKind::I64 | StoreKind::I64As8 | StoreKind::I64As16 | StoreKind::I64As32 => {
            ValueKind::I64
        }
    }
}

/// How many bytes a store writes.
#[inline(always)]
pub fn store_width(kind: StoreKind) -> Width
    ensures { result ≡ store_width kind }
{
    match kind {
        StoreKind::I64 => Width::Eight,
        StoreKind::I32 | StoreKind::I64As32 => Width::Four,
        StoreKind::I32As16 | StoreKind::I64As16 => Width::Two,
        StoreKind::I32As8 | StoreKind::I64As8 => Width::One,
    }
}

/// The exponent of the power of two that a width is: what an access may be aligned to at most.
pub fn exponent(width: Width) -> u32
    ensures { result ≡ exponent width }
{
    match width {
        Width::One => 0,
        Width::Two => 1,
        Width::Four => 2,
        Width::Eight => 3,
    }
}
