ghost use Rattle.std.specs.Prelude.{◌≡◌, ◌<◌, ◌≤◌, length, IfSome, IfNone};
ghost use Rattle.std.specs.List.{All};
ghost use Rattle.httparse.specs.Spans.{IsHeaderWithin, IsWithin};
ghost use Rattle.ante_http.specs.HeadEnds.{leading, ends_at, IsHeadEnd, HasNoHeadEnd};
ghost use Rattle.ante_http.specs.Limits.{most_head_bytes};
ghost use Rattle.ante_http.specs.Reading.{IsHeadReading, reading_at, target_at};

use crate::answer::HeadKind;
use crate::fields::{body_length, closes};
use crate::limits::MOST_FIELDS;
use httparse::Status;
use httparse::spans::{EMPTY_HEADER_SPAN, HeaderSpan, RequestSpans, Span, parse_request};

/// What a head says of its request.
#[derive(Clone, Copy, Debug, PartialEq, Eq)]
pub struct Framing {
    pub target: Span,
    pub body_length: u64,
    pub close: bool,
}

/// What the bytes of a head are.
#[derive(Clone, Copy, Debug, PartialEq, Eq)]
pub enum HeadReading {
    /// They aren't a head, or have too many field lines.
    Malformed,
    Fault(HeadKind),
    Framed(Framing),
}

/// Where the head ends.
pub fn head_end(bytes: &[u8]) -> Option<usize>
    ensures some { IfSome result (IsHeadEnd bytes.now) }
    ensures none { IfNone result (HasNoHeadEnd bytes.now) }
{
    let from = leading(bytes);
    for at in 0..bytes.len() {
        if ends_at(bytes, from, at) {
            return Some(at + 1);
        }
    }
    None
}

/// How many carriage returns and line feeds the bytes begin with.
fn leading(bytes: &[u8]) -> usize
    ensures count { result ≡ leading bytes.now }
    ensures within { result ≤ length bytes.now }
{
    let mut count = 0;
    for b in bytes {
        if *b != b'\r' && *b != b'\n' {
            return count;
        }
        count += 1;
    }
    count
}

/// Whether a line feed at the place ends the head.
fn ends_at(bytes: &[u8], from: usize, at: usize) -> bool
    requires from { from ≤ length bytes.now }
    requires at { at < length bytes.now }
    ensures { result ≡ ends_at bytes.now from at }
{
    bytes[at] == b'\n'
        && ((from < at && bytes[at - 1] == b'\n')
            || (from + 1 < at && bytes[at - 1] == b'\r' && bytes[at - 2] == b'\n'))
}

/// The head that these bytes are, all of them.
pub fn read_head(head: &[u8]) -> HeadReading
    requires small { length head.now ≤ most_head_bytes }
    ensures { IsHeadReading head.now result }
{
    let mut headers = [EMPTY_HEADER_SPAN; MOST_FIELDS];
    match parse_request(head, &mut headers) {
        Ok(Status::Complete(spans)) => {
            if spans.len != head.len() {
                return HeadReading::Malformed;
            }
            let (fields, _) = headers.split_at(spans.headers);
            read_framing(head, &spans, fields)
        }
        _ => HeadReading::Malformed,
    }
}

/// What a head with these spans says.
fn read_framing(head: &[u8], spans: &RequestSpans, fields: &[HeaderSpan]) -> HeadReading
    requires small { length head.now ≤ most_head_bytes }
    requires method { IsWithin (length head.now) spans.now.method }
    requires target { IsWithin (length head.now) spans.now.path }
    requires fields { All (IsHeaderWithin (length head.now)) fields.now }
    ensures { result ≡ reading_at head.now spans.now fields.now }
{
    let target = target_at(head, spans);
    match body_length(head, spans.method.of(head), fields) {
        Err(kind) => HeadReading::Fault(kind),
        Ok(body_length) => HeadReading::Framed(Framing {
            target,
            body_length,
            close: closes(head, spans.version, fields),
        }),
    }
}

/// Where the target stands: after the empty lines, the method and a space.
fn target_at(head: &[u8], spans: &RequestSpans) -> Span
    requires small { length head.now ≤ most_head_bytes }
    requires method { IsWithin (length head.now) spans.now.method }
    requires target { IsWithin (length head.now) spans.now.path }
    ensures { result ≡ target_at head.now spans.now }
{
    let start = leading(head) + (spans.method.end - spans.method.start) + 1;
    Span {
        start,
        end: start + (spans.path.end - spans.path.start),
    }
}
