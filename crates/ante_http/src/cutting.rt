ghost use Rattle.std.specs.Prelude.{◌≡◌, ◌≤◌, ◌<◌, ◌^◌, length, take};
ghost use Rattle.ante_http.specs.Limits.{most_head_bytes};
ghost use Rattle.ante_http.specs.Requests.{IsCut};
ghost use Rattle.ante_http.specs.Reading.{IsFramed};

use crate::answer::{CutAnswer, HeadKind, RequestSpan};
use crate::head::{Framing, HeadReading, head_end, read_head};
use crate::limits::MOST_HEAD_BYTES;
use httparse::spans::Span;

/// What the bytes begin with. It looks at no byte after those that a head may have.
pub fn cut(bytes: &[u8]) -> CutAnswer
    ensures { IsCut bytes.now result }
{
    let Some(end) = head_end(head_room(bytes)) else {
        if bytes.len() < MOST_HEAD_BYTES {
            return CutAnswer::Need;
        }
        return CutAnswer::Bad {
            kind: HeadKind::HeadLong,
            length: MOST_HEAD_BYTES,
        };
    };
    let (head, _) = bytes.split_at(end);
    match read_head(head) {
        HeadReading::Malformed => CutAnswer::Bad {
            kind: HeadKind::Head,
            length: end,
        },
        HeadReading::Fault(kind) => CutAnswer::Bad { kind, length: end },
        HeadReading::Framed(framing) => answer_framed(bytes.len(), end, framing),
    }
}

/// The bytes that a head may take.
fn head_room(bytes: &[u8]) -> &[u8]
    ensures { result.now ≡ take most_head_bytes bytes.now }
{
    if bytes.len() < MOST_HEAD_BYTES {
        bytes
    } else {
        &bytes[..MOST_HEAD_BYTES]
    }
}

/// The answer where a head with this framing ends at `end`.
fn answer_framed(available: usize, end: usize, framing: Framing) -> CutAnswer
    requires within { end ≤ available }
    requires room { available < 2 ^ 63 }
    ensures { IsFramed available end framing result }
{
    if ((available - end) as u64) < framing.body_length {
        return CutAnswer::Need;
    }
    let length = end + framing.body_length as usize;
    CutAnswer::Request {
        request: RequestSpan {
            target: framing.target,
            body: Span {
                start: end,
                end: length,
            },
            close: framing.close,
        },
        length,
    }
}
