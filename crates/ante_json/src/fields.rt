//! Fields of a body, each with its faults.
ghost use Rattle.std.specs.Prelude.{◌≡◌, Err, false, length, IsTrue, option_map};
ghost use Rattle.std.specs.Str.{chars};
ghost use Rattle.hex.specs.Hex.{decode_of};
ghost use Rattle.serde_json.specs.View.{view};
ghost use Rattle.ante_types.specs.Labels.{is_label};
ghost use Rattle.ante_json.specs.declared.fault.BodyKind.TheVariants.{Missing, Wrong, NotHex, Packed};
ghost use Rattle.ante_json.specs.declared.fault.BodyError.TheVariants.{BadBody};
ghost use Rattle.ante_json.specs.Kinds as kinds;
ghost use Rattle.ante_json.specs.Fields as fields;
ghost use Rattle.ante_json.specs.Fields.{Answers};
ghost use Rattle.ante_json.specs.Bodies.{default_limit};

use crate::fault::{BodyError, BodyKind};
use crate::kinds::{block_of, bound_of, flag_of, limit_of, name_of, number_of};
use ante_pack::{Bytes, Digest, Name, PackFault};
use ante_types::Label;
use ante_views::BlockRef;
use hex::{FromHex, FromHexError};
use serde_json::Value;
use std::alloc::Global;

pub(crate) fn missing<T>(alloc: Global, field: &str) -> Result<T, BodyError>
    requires { IsTrue (is_label field.now) }
    ensures { Answers result (Err (Missing field.now)) }
{
    let field = Label::new(alloc, field.as_bytes())?;
    Err(BodyError::BadBody(BodyKind::Missing { field }))
}

pub(crate) fn wrong<T>(alloc: Global, field: &str) -> Result<T, BodyError>
    requires { IsTrue (is_label field.now) }
    ensures { Answers result (Err (Wrong field.now)) }
{
    let field = Label::new(alloc, field.as_bytes())?;
    Err(BodyError::BadBody(BodyKind::Wrong { field }))
}

fn not_hex<T>(alloc: Global, field: &str) -> Result<T, BodyError>
    requires { IsTrue (is_label field.now) }
    ensures { Answers result (Err (NotHex field.now)) }
{
    let field = Label::new(alloc, field.as_bytes())?;
    Err(BodyError::BadBody(BodyKind::NotHex { field }))
}

pub(crate) fn or_wrong<T>(alloc: Global, field: &str, found: Option<T>) -> Result<T, BodyError>
    requires { IsTrue (is_label field.now) }
    ensures { Answers result (fields.or_wrong field.now found) }
{
    match found {
        None => wrong(alloc, field),
        Some(found) => Ok(found),
    }
}

fn or_wrong_some<T>(alloc: Global, field: &str, found: Option<T>) -> Result<Option<T>, BodyError>
    requires { IsTrue (is_label field.now) }
    ensures { Answers result (fields.or_wrong_some field.now found) }
{
    match found {
        None => wrong(alloc, field),
        Some(found) => Ok(Some(found)),
    }
}

pub(crate) fn name_field(alloc: Global, body: &Value, field: &str) -> Result<Name, BodyError>
    requires { IsTrue (is_label field.now) }
    ensures { Answers result (fields.required kinds.name_of field.now (view body.now)) }
{
    match body.get(field) {
        None => missing(alloc, field),
        Some(value) => or_wrong(alloc, field, name_of(value)),
    }
}

pub(crate) fn number_field(alloc: Global, body: &Value, field: &str) -> Result<u64, BodyError>
    requires { IsTrue (is_label field.now) }
    ensures { Answers result (fields.required kinds.number_of field.now (view body.now)) }
{
    match body.get(field) {
        None => missing(alloc, field),
        Some(value) => or_wrong(alloc, field, number_of(value)),
    }
}

pub(crate) fn block_field(alloc: Global, body: &Value, field: &str) -> Result<BlockRef, BodyError>
    requires { IsTrue (is_label field.now) }
    ensures { Answers result (fields.required kinds.block_of field.now (view body.now)) }
{
    match body.get(field) {
        None => missing(alloc, field),
        Some(value) => or_wrong(alloc, field, block_of(value)),
    }
}

pub(crate) fn optional_name(
    alloc: Global,
    body: &Value,
    field: &str,
) -> Result<Option<Name>, BodyError>
    requires { IsTrue (is_label field.now) }
    ensures { Answers result (fields.optional kinds.name_of field.now (view body.now)) }
{
    match body.get(field) {
        None => Ok(None),
        Some(value) => or_wrong_some(alloc, field, name_of(value)),
    }
}

pub(crate) fn bound_field(
    alloc: Global,
    body: &Value,
    field: &str,
) -> Result<Option<u64>, BodyError>
    requires { IsTrue (is_label field.now) }
    ensures { Answers result (fields.optional kinds.bound_of field.now (view body.now)) }
{
    match body.get(field) {
        None => Ok(None),
        Some(value) => or_wrong_some(alloc, field, bound_of(value)),
    }
}

/// The rows that are given where no limit is.
pub const DEFAULT_LIMIT: u32 = 10;

pub(crate) fn limit_field(alloc: Global, body: &Value, field: &str) -> Result<u32, BodyError>
    requires { IsTrue (is_label field.now) }
    ensures { Answers result (fields.defaulted default_limit kinds.limit_of field.now (view body.now)) }
{
    match body.get(field) {
        None => Ok(DEFAULT_LIMIT),
        Some(value) => or_wrong(alloc, field, limit_of(value)),
    }
}

pub(crate) fn flag_field(alloc: Global, body: &Value, field: &str) -> Result<bool, BodyError>
    requires { IsTrue (is_label field.now) }
    ensures { Answers result (fields.defaulted false kinds.flag_of field.now (view body.now)) }
{
    match body.get(field) {
        None => Ok(false),
        Some(value) => or_wrong(alloc, field, flag_of(value)),
    }
}

pub(crate) fn hex_field(alloc: Global, body: &Value, field: &str) -> Result<Bytes, BodyError>
    requires { IsTrue (is_label field.now) }
    ensures { Answers result (fields.hex_field field.now (view body.now)) }
{
    match body.get(field) {
        None => missing(alloc, field),
        Some(value) => hex_of(alloc, field, value.as_str()),
    }
}

fn hex_of(alloc: Global, field: &str, text: Option<&str>) -> Result<Bytes, BodyError>
    requires { IsTrue (is_label field.now) }
    ensures { Answers result (fields.hex_from field.now (option_map (λ s. s.now) text.entry)) }
{
    match text {
        None => wrong(alloc, field),
        Some(text) => decoded(alloc, field, text),
    }
}

fn decoded(alloc: Global, field: &str, text: &str) -> Result<Bytes, BodyError>
    requires { IsTrue (is_label field.now) }
    ensures { Answers result (fields.or_not_hex field.now (decode_of text.now)) }
{
    match hex::decode(alloc, text) {
        Ok(bytes) => Ok(Bytes::from_vec(bytes)),
        Err(FromHexError::OutOfMemory) => Err(BodyError::OutOfMemory),
        Err(_) => not_hex(alloc, field),
    }
}

pub(crate) fn id_field(alloc: Global, body: &Value, field: &str) -> Result<Digest, BodyError>
    requires { IsTrue (is_label field.now) }
    ensures { Answers result (fields.id_field field.now (view body.now)) }
{
    match body.get(field) {
        None => missing(alloc, field),
        Some(value) => id_of(alloc, field, value.as_str()),
    }
}

fn id_of(alloc: Global, field: &str, text: Option<&str>) -> Result<Digest, BodyError>
    requires { IsTrue (is_label field.now) }
    ensures { Answers result (fields.id_from field.now (option_map (λ s. s.now) text.entry)) }
{
    match text {
        None => wrong(alloc, field),
        Some(text) => id_text(alloc, field, text),
    }
}

fn id_text(alloc: Global, field: &str, text: &str) -> Result<Digest, BodyError>
    requires { IsTrue (is_label field.now) }
    ensures { Answers result (fields.id_text field.now text.now) }
{
    if character_count(text) != 64 {
        return wrong(alloc, field);
    }
    match <[u8; 32] as FromHex>::from_hex(text) {
        Ok(id) => Ok(id),
        Err(_) => not_hex(alloc, field),
    }
}

fn character_count(text: &str) -> usize
    ensures { result ≡ length (chars text.now) }
{
    text.chars().count()
}

/// The fault of a packed value.
pub(crate) fn packed_fault(fault: PackFault) -> BodyError
    ensures { result ≡ BadBody (Packed (fields.fault_place fault)) }
{
    BodyError::BadBody(BodyKind::Packed {
        at: fault_place(fault) as u64,
    })
}

fn fault_place(fault: PackFault) -> usize
    ensures { result ≡ fields.fault_place fault }
{
    match fault {
        PackFault::Short { at } => at,
        PackFault::LongVaruint { at } => at,
        PackFault::KeyKind { at } => at,
        PackFault::Trailing { at } => at,
    }
}
