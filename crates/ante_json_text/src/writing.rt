ghost use Rattle.std.specs.Prelude.{◌≡◌, [], ◌∷◌, ◌++◌, OnOk, map, decimal};
ghost use Rattle.std.specs.List.{flat_map};
ghost use Rattle.json.specs.Print.{quoted};
ghost use Rattle.serde_json.specs.Data.{Data, boolean};
ghost use Rattle.serde_json.specs.Find.{of_integer};
ghost use Rattle.serde_json.specs.Written.{comma_if, compact_text, number_text};
ghost use Rattle.ante_pack.specs.Adds.{Adds};
ghost use Rattle.ante_json_text.specs.Values.{scalar_value, name_value, hex_value, pair_of, member_text, list_value, object_value};

use crate::escape::put_escaped;
use crate::scalar::{Member, Scalar};
use ante_pack::{Bytes, Name, name_text};
use itoa::Buffer;
use std::alloc::{AllocError, Global};

// Each function appends the compact text of a value. After a refusal a front of it may stand there.

/// A type whose values are JSON values.
pub trait ToJson {
    ghost value: { Self → Data };

    fn put_json(&self, alloc: Global, out: &mut Bytes) -> Result<(), AllocError>
        ensures { OnOk result (Adds out.old out.new (compact_text (value self.now))) };
}

impl<'a> ToJson for Scalar<'a> {
    ghost value = { scalar_value };

    fn put_json(&self, alloc: Global, out: &mut Bytes) -> Result<(), AllocError> {
        match self {
            Scalar::Null => put_text(alloc, out, b"null"),
            Scalar::Bool(flag) => put_bool(alloc, out, *flag),
            Scalar::Number(number) => put_number(alloc, out, *number),
            Scalar::Signed(number) => put_signed(alloc, out, *number),
            Scalar::Text(text) => put_string(alloc, out, text),
            Scalar::Hex(bytes) => put_hex(alloc, out, bytes),
            Scalar::Bytes(bytes) => put_hex(alloc, out, bytes.as_slice()),
            Scalar::Name(name) => put_name(alloc, out, *name),
        }
    }
}

/// Appends a string: quotes, and the text between them with its escapes.
pub fn put_string(alloc: Global, out: &mut Bytes, text: &[u8]) -> Result<(), AllocError>
    ensures { OnOk result (Adds out.old out.new (quoted text.now)) }
{
    put_text(alloc, out, b"\"")?;
    put_escaped(alloc, out, text)?;
    put_text(alloc, out, b"\"")
}

/// Appends a name as a string.
fn put_name(alloc: Global, out: &mut Bytes, name: Name) -> Result<(), AllocError>
    ensures { OnOk result (Adds out.old out.new (compact_text (name_value name))) }
{
    let (text, len) = name_text(name);
    let (front, _) = text.split_at(len);
    put_string(alloc, out, front)
}

/// Appends bytes as a string of lower-case hex.
fn put_hex(alloc: Global, out: &mut Bytes, bytes: &[u8]) -> Result<(), AllocError>
    ensures { OnOk result (Adds out.old out.new (compact_text (hex_value bytes.now))) }
{
    let text = hex::encode(alloc, bytes)?;
    put_string(alloc, out, text.as_bytes())
}

fn put_bool(alloc: Global, out: &mut Bytes, flag: bool) -> Result<(), AllocError>
    ensures { OnOk result (Adds out.old out.new (compact_text (boolean flag))) }
{
    if flag {
        put_text(alloc, out, b"true")
    } else {
        put_text(alloc, out, b"false")
    }
}

fn put_number(alloc: Global, out: &mut Bytes, number: u64) -> Result<(), AllocError>
    ensures { OnOk result (Adds out.old out.new (decimal number)) }
{
    let mut buffer = Buffer::new();
    put_text(alloc, out, buffer.format(number).as_bytes())
}

fn put_signed(alloc: Global, out: &mut Bytes, number: i64) -> Result<(), AllocError>
    ensures { OnOk result (Adds out.old out.new (number_text (of_integer number))) }
{
    let mut buffer = Buffer::new();
    put_text(alloc, out, buffer.format(number).as_bytes())
}

/// Appends the bracket that an object begins with.
pub fn begin_object(alloc: Global, out: &mut Bytes) -> Result<(), AllocError>
    ensures { OnOk result (Adds out.old out.new (123 ∷ [])) }
{
    put_text(alloc, out, b"{")
}

/// Appends the bracket that an object ends with.
pub fn end_object(alloc: Global, out: &mut Bytes) -> Result<(), AllocError>
    ensures { OnOk result (Adds out.old out.new (125 ∷ [])) }
{
    put_text(alloc, out, b"}")
}

/// Appends a member's key and colon, with a comma before them where another member is there.
pub fn put_key(alloc: Global, out: &mut Bytes, later: bool, key: &[u8]) -> Result<(), AllocError>
    ensures { OnOk result (Adds out.old out.new (comma_if later ++ (quoted key.now ++ 58 ∷ []))) }
{
    put_comma(alloc, out, later)?;
    put_string(alloc, out, key)?;
    put_text(alloc, out, b":")
}

/// Appends a member, with a comma before it where another one is there.
pub fn put_member(
    alloc: Global,
    out: &mut Bytes,
    later: bool,
    member: &Member<'_>,
) -> Result<(), AllocError>
    ensures { OnOk result (Adds out.old out.new (comma_if later ++ member_text (pair_of member.now))) }
{
    put_key(alloc, out, later, member.0)?;
    member.1.put_json(alloc, out)
}

/// Appends an object of these members, in their order.
pub fn put_object(alloc: Global, out: &mut Bytes, members: &[Member<'_>]) -> Result<(), AllocError>
    ensures { OnOk result (Adds out.old out.new (compact_text (object_value (map pair_of members.now)))) }
{
    match members.split_first() {
        None => put_text(alloc, out, b"{}"),
        Some((first, later)) => put_members(alloc, out, first, later),
    }
}

fn put_members(
    alloc: Global,
    out: &mut Bytes,
    first: &Member<'_>,
    later: &[Member<'_>],
) -> Result<(), AllocError>
    ensures { OnOk result (Adds out.old out.new (compact_text (object_value (map pair_of (first.now ∷ later.now))))) }
{
    put_text(alloc, out, b"{")?;
    put_member(alloc, out, false, first)?;
    put_later_members(alloc, out, later)?;
    put_text(alloc, out, b"}")?;
    Ok(())
}

fn put_later_members(
    alloc: Global,
    out: &mut Bytes,
    members: &[Member<'_>],
) -> Result<(), AllocError>
    ensures { OnOk result (Adds out.old out.new (flat_map (λ m. 44 ∷ member_text (pair_of m)) members.now)) }
{
    for member in members {
        put_member(alloc, out, true, member)?;
    }
    Ok(())
}

/// Appends a list of these items.
pub fn put_array<T: ToJson>(alloc: Global, out: &mut Bytes, items: &[T]) -> Result<(), AllocError>
    ensures { OnOk result (Adds out.old out.new (compact_text (list_value (map T.value items.now)))) }
{
    match items.split_first() {
        None => put_text(alloc, out, b"[]"),
        Some((first, later)) => put_items(alloc, out, first, later),
    }
}

fn put_items<T: ToJson>(
    alloc: Global,
    out: &mut Bytes,
    first: &T,
    later: &[T],
) -> Result<(), AllocError>
    ensures { OnOk result (Adds out.old out.new (compact_text (list_value (map T.value (first.now ∷ later.now))))) }
{
    put_text(alloc, out, b"[")?;
    first.put_json(alloc, out)?;
    put_later_items(alloc, out, later)?;
    put_text(alloc, out, b"]")?;
    Ok(())
}

fn put_later_items<T: ToJson>(alloc: Global, out: &mut Bytes, items: &[T]) -> Result<(), AllocError>
    ensures { OnOk result (Adds out.old out.new (flat_map (λ x. 44 ∷ compact_text (T.value x)) items.now)) }
{
    for item in items {
        put_text(alloc, out, b",")?;
        item.put_json(alloc, out)?;
    }
    Ok(())
}

fn put_comma(alloc: Global, out: &mut Bytes, later: bool) -> Result<(), AllocError>
    ensures { OnOk result (Adds out.old out.new (comma_if later)) }
{
    if later {
        put_text(alloc, out, b",")
    } else {
        put_text(alloc, out, b"")
    }
}

fn put_text(alloc: Global, out: &mut Bytes, text: &[u8]) -> Result<(), AllocError>
    ensures { OnOk result (Adds out.old out.new text.now) }
{
    out.append(alloc, text)
}
