//! What a JSON value of each kind stands for. None where it is of another kind or out of its range.
ghost use Rattle.std.specs.Prelude.{◌≡◌, ◌+◌, ◌-◌, ◌*◌, IsTrue, option_map};
ghost use Rattle.hex.specs.Hex.{decode_sized};
ghost use Rattle.serde_json.specs.View.{view};
ghost use Rattle.ante_pack.specs.Names.{name_of_text};
ghost use Rattle.ante_http.specs.Fields.{is_digit};
ghost use Rattle.ante_views.specs.declared.queries.BlockRef.TheVariants.{Num};
ghost use Rattle.ante_json.specs.Kinds as kinds;

use ante_pack::{Name, name_from_text};
use ante_views::BlockRef;
use hex::FromHex;
use serde_json::Value;

pub(crate) fn number_of(value: &Value) -> Option<u64>
    ensures { result ≡ kinds.number_of (view value.now) }
{
    value.as_u64()
}

pub(crate) fn name_of(value: &Value) -> Option<Name>
    ensures { result ≡ kinds.name_of (view value.now) }
{
    match value.as_str() {
        None => None,
        Some(text) => named(text),
    }
}

fn named(text: &str) -> Option<Name>
    ensures { result ≡ kinds.named (name_of_text text.now) }
{
    match name_from_text(text) {
        Ok(name) => Some(name),
        Err(_) => None,
    }
}

pub(crate) fn bound_of(value: &Value) -> Option<u64>
    ensures { result ≡ kinds.bound_of (view value.now) }
{
    match value.as_str() {
        None => number_of(value),
        Some(text) => bound_of_text(text),
    }
}

fn bound_of_text(text: &str) -> Option<u64>
    ensures { result ≡ kinds.or_name (kinds.decimal_number text.now) text.now }
{
    match decimal_number(text.as_bytes()) {
        Some(number) => Some(number),
        None => match named(text) {
            None => None,
            Some(name) => Some(name.0),
        },
    }
}

/// The most rows of one answer.
pub const MOST_ROWS: u32 = 1000;

pub(crate) fn limit_of(value: &Value) -> Option<u32>
    ensures { result ≡ kinds.limit_of (view value.now) }
{
    match number_of(value) {
        None => None,
        Some(number) => Some(cut(number)),
    }
}

fn cut(number: u64) -> u32
    ensures { result ≡ kinds.at_most kinds.most_rows number }
{
    if u64::from(MOST_ROWS) < number {
        return MOST_ROWS;
    }
    number as u32
}

pub(crate) fn flag_of(value: &Value) -> Option<bool>
    ensures { result ≡ kinds.flag_of (view value.now) }
{
    value.as_bool()
}

pub(crate) fn block_of(value: &Value) -> Option<BlockRef>
    ensures { result ≡ kinds.block_of (view value.now) }
{
    match value.as_str() {
        None => numbered(number_of(value)),
        Some(text) => block_of_text(text),
    }
}

fn block_of_text(text: &str) -> Option<BlockRef>
    ensures { result ≡ kinds.id_or_number (decode_sized text.now 32) text.now }
{
    match <[u8; 32] as FromHex>::from_hex(text) {
        Ok(id) => Some(BlockRef::Id(id)),
        Err(_) => numbered(decimal_number(text.as_bytes())),
    }
}

fn numbered(number: Option<u64>) -> Option<BlockRef>
    ensures { result ≡ option_map Num number }
{
    match number {
        None => None,
        Some(number) => Some(BlockRef::Num(number)),
    }
}

/// The number of 64 bits that one or more decimal digits write.
fn decimal_number(text: &[u8]) -> Option<u64>
    ensures { result ≡ kinds.decimal_number text.now }
{
    if text.is_empty() {
        return None;
    }
    let mut value = Some(0);
    for byte in text {
        value = with_digit(value, *byte);
    }
    value
}

fn with_digit(value: Option<u64>, byte: u8) -> Option<u64>
    ensures { result ≡ kinds.with_digit value byte }
{
    match value {
        None => None,
        Some(value) => {
            if byte < b'0' || byte > b'9' {
                None
            } else {
                one_digit_more(value, byte)
            }
        }
    }
}

#[tactic(auto, using(crate::proofs::Numbers::tried, crate::proofs::Numbers::none_fits))]
fn one_digit_more(value: u64, digit: u8) -> Option<u64>
    requires { IsTrue (is_digit digit) }
    ensures { result ≡ kinds.of_64_bits (value * 10 + (digit - 48)) }
{
    let Some(tens) = value.checked_mul(10) else {
        return None;
    };
    tens.checked_add(u64::from(digit - b'0'))
}

pub(crate) fn is_no_compression(value: &Value) -> bool
    ensures { result ≡ kinds.is_no_compression (view value.now) }
{
    is_false(value.as_bool()) || is_zero(value.as_u64()) || is_text("none", value.as_str())
}

pub(crate) fn is_empty_text(value: &Value) -> bool
    ensures { result ≡ kinds.is_empty_text (view value.now) }
{
    is_text("", value.as_str())
}

fn is_false(flag: Option<bool>) -> bool
    ensures { result ≡ kinds.is_false flag }
{
    match flag {
        None => false,
        Some(flag) => !flag,
    }
}

fn is_zero(number: Option<u64>) -> bool
    ensures { result ≡ kinds.is_zero number }
{
    match number {
        None => false,
        Some(number) => number == 0,
    }
}

fn is_text(wanted: &str, text: Option<&str>) -> bool
    ensures { result ≡ kinds.is_text wanted.now (option_map (λ s. s.now) text.entry) }
{
    match text {
        None => false,
        Some(text) => text == wanted,
    }
}
