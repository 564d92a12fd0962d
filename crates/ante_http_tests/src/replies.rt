//! Replies, written out apart from the program.
ghost use Rattle.std.specs.Prelude.{IsTrue};
ghost use Rattle.ante_http.specs.Replies.{is_reply_status};

use ante_http::write_reply;
use std::alloc::{AllocError, Global};
use std::test::Fail;

#[test]
fn of_links_that_stay(rt: HostRuntime) -> Result<(), Fail> {
    let reply = write_reply(rt.alloc(), 200, b"{}", false)?;
    assert_eq!(rt;
        reply.as_slice(),
        b"HTTP/1.1 200 OK\r\nContent-Type: application/json\r\nContent-Length: 2\r\n\r\n{}".as_slice()
    );
    Ok(())
}

#[test]
fn of_links_that_close(rt: HostRuntime) -> Result<(), Fail> {
    let reply = write_reply(rt.alloc(), 400, b"[100000000]", true)?;
    assert_eq!(rt;
        reply.as_slice(),
        b"HTTP/1.1 400 Bad Request\r\nContent-Type: application/json\r\nContent-Length: 11\r\nConnection: close\r\n\r\n[100000000]".as_slice()
    );
    Ok(())
}

/// Whether an empty reply of this status has this status line.
fn has_line(alloc: Global, status: u16, line: &[u8]) -> Result<bool, AllocError>
    requires { IsTrue (is_reply_status status) }
{
    let reply = write_reply(alloc, status, b"", false)?;
    Ok(reply.as_slice().starts_with(line))
}

#[test]
fn of_each_status(rt: HostRuntime) -> Result<(), Fail> {
    let alloc = rt.alloc();
    assert!(rt; has_line(alloc, 404, b"HTTP/1.1 404 Not Found\r\n")?);
    assert!(rt; has_line(alloc, 409, b"HTTP/1.1 409 Conflict\r\n")?);
    assert!(rt; has_line(alloc, 413, b"HTTP/1.1 413 Payload Too Large\r\n")?);
    assert!(rt; has_line(alloc, 503, b"HTTP/1.1 503 Service Unavailable\r\n")?);
    Ok(())
}
