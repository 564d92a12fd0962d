ghost use Rattle.std.specs.Prelude.{◌≡◌, ◌^◌, ◌<◌, length, map};
ghost use Rattle.std.specs.List.{All, list_any};
ghost use Rattle.httparse.specs.Spans.{IsHeaderWithin, header_bytes};
ghost use Rattle.ante_http.specs.Fields.{is_same_text, is_named, is_method, number, with_field, content_length, accepted, body_length, is_close, closes};

use crate::answer::HeadKind;
use crate::limits::{MOST_BODY_BYTES, MOST_LENGTH_DIGITS};
use httparse::spans::HeaderSpan;

/// What the fields say of the body's length.
#[derive(Clone, Copy, Debug, PartialEq, Eq)]
pub enum ContentLength {
    Absent,
    Given(u64),
    /// One isn't a number of 1 to 18 digits, or two differ.
    Invalid,
}

/// The body's length, or the first fault of method and fields.
pub fn body_length(head: &[u8], method: &[u8], fields: &[HeaderSpan]) -> Result<u64, HeadKind>
    requires { All (IsHeaderWithin (length head.now)) fields.now }
    ensures { result ≡ body_length method.now (map (header_bytes head.now) fields.now) }
{
    if !is_method(method) {
        return Err(HeadKind::Method);
    }
    if has_field(head, fields, b"transfer-encoding") {
        return Err(HeadKind::Encoding);
    }
    accepted(content_length(head, fields))
}

/// Whether the link closes after the reply.
pub fn closes(head: &[u8], minor: u8, fields: &[HeaderSpan]) -> bool
    requires { All (IsHeaderWithin (length head.now)) fields.now }
    ensures { result ≡ closes minor (map (header_bytes head.now) fields.now) }
{
    minor == 0 || has_close(head, fields)
}

fn is_method(method: &[u8]) -> bool
    ensures { result ≡ is_method method.now }
{
    method == b"GET".as_slice() || method == b"POST".as_slice()
}

fn has_field(head: &[u8], fields: &[HeaderSpan], name: &[u8]) -> bool
    requires { All (IsHeaderWithin (length head.now)) fields.now }
    ensures { result ≡ list_any (is_named name.now) (map (header_bytes head.now) fields.now) }
{
    for field in fields {
        if is_named(head, field, name) {
            return true;
        }
    }
    false
}

fn has_close(head: &[u8], fields: &[HeaderSpan]) -> bool
    requires { All (IsHeaderWithin (length head.now)) fields.now }
    ensures { result ≡ list_any is_close (map (header_bytes head.now) fields.now) }
{
    for field in fields {
        if is_close(head, field) {
            return true;
        }
    }
    false
}

fn is_named(head: &[u8], field: &HeaderSpan, name: &[u8]) -> bool
    requires { IsHeaderWithin (length head.now) field.now }
    ensures { result ≡ is_named name.now (header_bytes head.now field.now) }
{
    field.name.of(head).eq_ignore_ascii_case(name)
}

fn is_close(head: &[u8], field: &HeaderSpan) -> bool
    requires { IsHeaderWithin (length head.now) field.now }
    ensures { result ≡ is_close (header_bytes head.now field.now) }
{
    is_named(head, field, b"connection") && field.value.of(head).eq_ignore_ascii_case(b"close")
}

/// What all fields say of the body's length.
fn content_length(head: &[u8], fields: &[HeaderSpan]) -> ContentLength
    requires { All (IsHeaderWithin (length head.now)) fields.now }
    ensures { result ≡ content_length (map (header_bytes head.now) fields.now) }
{
    let mut found = ContentLength::Absent;
    for field in fields {
        found = with_field(head, found, field);
    }
    found
}

fn with_field(head: &[u8], found: ContentLength, field: &HeaderSpan) -> ContentLength
    requires { IsHeaderWithin (length head.now) field.now }
    ensures { result ≡ with_field found (header_bytes head.now field.now) }
{
    if !is_named(head, field, b"content-length") {
        return found;
    }
    let Some(count) = number(field.value.of(head)) else {
        return ContentLength::Invalid;
    };
    match found {
        ContentLength::Absent => ContentLength::Given(count),
        ContentLength::Given(other) => {
            if other == count {
                found
            } else {
                ContentLength::Invalid
            }
        }
        ContentLength::Invalid => ContentLength::Invalid,
    }
}

/// The number that 1 to 18 digits write.
fn number(text: &[u8]) -> Option<u64>
    ensures { result ≡ number text.now }
{
    if text.is_empty() || text.len() > MOST_LENGTH_DIGITS {
        return None;
    }
    let mut value: u64 = 0;
    for b in text {
        if *b < b'0' || *b > b'9' {
            return None;
        }
        value = value * 10 + u64::from(*b - b'0');
    }
    Some(value)
}

fn accepted(found: ContentLength) -> Result<u64, HeadKind>
    ensures { result ≡ accepted found }
{
    match found {
        ContentLength::Absent => Ok(0),
        ContentLength::Invalid => Err(HeadKind::Length),
        ContentLength::Given(length) => {
            if length > MOST_BODY_BYTES {
                Err(HeadKind::TooLarge { length })
            } else {
                Ok(length)
            }
        }
    }
}
