ghost use Rattle.std.specs.Prelude.{◌≡◌, IfOk, OnOk, IsTrue, decimal};
ghost use Rattle.ante_pack.specs.Adds.{Adds};
ghost use Rattle.ante_http.specs.Replies.{is_reply_status, reason_phrase, line, status_line, length_line, close_line, reply};

use ante_pack::Bytes;
use itoa::Buffer;
use std::alloc::{AllocError, Global};

/// A reply: its head, and the body, which is JSON.
pub fn write_reply(
    alloc: Global,
    status: u16,
    body: &[u8],
    close: bool,
) -> Result<Bytes, AllocError>
    requires status { IsTrue (is_reply_status status) }
    ensures { IfOk result (λ bytes. bytes ≡ reply status body.now close) }
{
    let mut out = Bytes::new(alloc);
    put_reply(alloc, &mut out, status, body, close)?;
    Ok(out)
}

// Each function appends a piece. After a refusal a front of it may stand there.

fn put_reply(
    alloc: Global,
    out: &mut Bytes,
    status: u16,
    body: &[u8],
    close: bool,
) -> Result<(), AllocError>
    ensures { OnOk result (Adds out.old out.new (reply status body.now close)) }
{
    put_status_line(alloc, out, status)?;
    put_line(alloc, out, b"Content-Type: application/json")?;
    put_length_line(alloc, out, body.len())?;
    put_close_line(alloc, out, close)?;
    put_line(alloc, out, b"")?;
    put_text(alloc, out, body)?;
    Ok(())
}

fn put_status_line(alloc: Global, out: &mut Bytes, status: u16) -> Result<(), AllocError>
    ensures { OnOk result (Adds out.old out.new (status_line status)) }
{
    put_text(alloc, out, b"HTTP/1.1 ")?;
    put_number(alloc, out, u64::from(status))?;
    put_text(alloc, out, b" ")?;
    put_line(alloc, out, reason_phrase(status))
}

fn put_length_line(alloc: Global, out: &mut Bytes, count: usize) -> Result<(), AllocError>
    ensures { OnOk result (Adds out.old out.new (length_line count)) }
{
    put_text(alloc, out, b"Content-Length: ")?;
    put_number(alloc, out, count as u64)?;
    put_text(alloc, out, b"\r\n")
}

fn put_close_line(alloc: Global, out: &mut Bytes, close: bool) -> Result<(), AllocError>
    ensures { OnOk result (Adds out.old out.new (close_line close)) }
{
    if close {
        put_line(alloc, out, b"Connection: close")
    } else {
        put_text(alloc, out, b"")
    }
}

fn put_line(alloc: Global, out: &mut Bytes, text: &[u8]) -> Result<(), AllocError>
    ensures { OnOk result (Adds out.old out.new (line text.now)) }
{
    put_text(alloc, out, text)?;
    put_text(alloc, out, b"\r\n")
}

fn put_number(alloc: Global, out: &mut Bytes, number: u64) -> Result<(), AllocError>
    ensures { OnOk result (Adds out.old out.new (decimal number)) }
{
    let mut buffer = Buffer::new();
    put_text(alloc, out, buffer.format(number).as_bytes())
}

fn put_text(alloc: Global, out: &mut Bytes, text: &[u8]) -> Result<(), AllocError>
    ensures { OnOk result (Adds out.old out.new text.now) }
{
    out.append(alloc, text)
}

fn reason_phrase(status: u16) -> &'static [u8]
    ensures { result.now ≡ reason_phrase status }
{
    match status {
        200 => b"OK",
        400 => b"Bad Request",
        404 => b"Not Found",
        409 => b"Conflict",
        413 => b"Payload Too Large",
        503 => b"Service Unavailable",
        _ => b"",
    }
}
