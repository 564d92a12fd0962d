//! Heads as clients send them, and heads with faults. The places were computed apart from the program.

use ante_http::{CutAnswer, HeadKind, RequestSpan, Span, cut};
use std::alloc::{AllocError, Global};
use std::test::Fail;

fn request(target: (usize, usize), body: (usize, usize), close: bool) -> CutAnswer {
    CutAnswer::Request {
        request: RequestSpan {
            target: Span {
                start: target.0,
                end: target.1,
            },
            body: Span {
                start: body.0,
                end: body.1,
            },
            close,
        },
        length: body.1,
    }
}

/// Whether each front that lacks a byte needs more.
fn fronts_need_more(bytes: &[u8]) -> bool {
    for at in 0..bytes.len() {
        if cut(&bytes[..at]) != CutAnswer::Need {
            return false;
        }
    }
    true
}

#[test]
fn requests_of_clients(rt: HostRuntime) {
    for (bytes, target, body, close) in [
        // curl
        (
            b"GET /v1/chain/get_info HTTP/1.1\r\nHost: 127.0.0.1:8888\r\nUser-Agent: curl/7.88.1\r\nAccept: */*\r\n\r\n".as_slice(),
            (4, 22),
            (95, 95),
            false,
        ),
        (
            b"POST /v1/chain/get_block HTTP/1.1\r\nHost: 127.0.0.1:8888\r\nUser-Agent: curl/7.88.1\r\nAccept: */*\r\nContent-Length: 21\r\nContent-Type: application/x-www-form-urlencoded\r\n\r\n{\"block_num_or_id\":1}".as_slice(),
            (5, 24),
            (166, 187),
            false,
        ),
        // a browser
        (
            b"GET /v1/chain/get_info HTTP/1.1\r\nHost: localhost:8888\r\nUser-Agent: Mozilla/5.0 (X11; Linux x86_64; rv:128.0) Gecko/20100101 Firefox/128.0\r\nAccept: text/html,application/xhtml+xml,application/xml;q=0.9,*/*;q=0.8\r\nAccept-Language: en-US,en;q=0.5\r\nAccept-Encoding: gzip, deflate, br, zstd\r\nConnection: keep-alive\r\nUpgrade-Insecure-Requests: 1\r\nSec-Fetch-Dest: document\r\n\r\n".as_slice(),
            (4, 22),
            (369, 369),
            false,
        ),
        // Python's http.client
        (
            b"POST /v1/chain/get_account HTTP/1.1\r\nHost: 127.0.0.1:8888\r\nAccept-Encoding: identity\r\nContent-Length: 24\r\n\r\n{\"account_name\":\"eosio\"}".as_slice(),
            (5, 26),
            (108, 132),
            false,
        ),
        // wrk
        (
            b"GET /v1/chain/get_info HTTP/1.1\r\nHost: 127.0.0.1:8888\r\n\r\n".as_slice(),
            (4, 22),
            (57, 57),
            false,
        ),
        // by hand
        (
            b"\r\n\nGET /a HTTP/1.1\n\n".as_slice(),
            (7, 9),
            (20, 20),
            false,
        ),
        (
            b"GET /a HTTP/1.0\r\n\r\n".as_slice(),
            (4, 6),
            (19, 19),
            true,
        ),
        (
            b"GET /a HTTP/1.1\r\nconnection:\t CLOSE \r\n\r\n".as_slice(),
            (4, 6),
            (40, 40),
            true,
        ),
        (
            b"GET /a HTTP/1.1\r\nConnection: close, te\r\n\r\n".as_slice(),
            (4, 6),
            (42, 42),
            false,
        ),
    ] {
        assert_eq!(rt; cut(bytes), request(target, body, close));
        assert!(rt; fronts_need_more(bytes));
    }
}

#[test]
fn what_follows_is_left(rt: HostRuntime) {
    let bytes = b"POST /a HTTP/1.1\r\nContent-Length: 5\r\ncontent-length: 05\r\n\r\n12345more";
    assert_eq!(rt; cut(bytes.as_slice()), request((5, 7), (59, 64), false));
}

#[test]
fn bad_heads(rt: HostRuntime) {
    for (bytes, kind, length) in [
        (b"GET  /a HTTP/1.1\r\n\r\n".as_slice(), HeadKind::Head, 20),
        (b"GET /a HTTP/2.0\r\n\r\n".as_slice(), HeadKind::Head, 19),
        (
            b"GET /a HTTP/1.1\r\nHost : a\r\n\r\n".as_slice(),
            HeadKind::Head,
            29,
        ),
        (b"\x16\x03\x01\n\n".as_slice(), HeadKind::Head, 5),
        (
            b"PUT /a HTTP/1.1\r\nTransfer-Encoding: chunked\r\n\r\n".as_slice(),
            HeadKind::Method,
            47,
        ),
        (b"get /a HTTP/1.1\r\n\r\n".as_slice(), HeadKind::Method, 19),
        (
            b"POST /a HTTP/1.1\r\nTransfer-Encoding:\r\nContent-Length: x\r\n\r\n".as_slice(),
            HeadKind::Encoding,
            59,
        ),
        (
            b"POST /a HTTP/1.1\r\nContent-Length: \r\n\r\n".as_slice(),
            HeadKind::Length,
            38,
        ),
        (
            b"POST /a HTTP/1.1\r\nContent-Length: +5\r\n\r\n12345".as_slice(),
            HeadKind::Length,
            40,
        ),
        (
            b"POST /a HTTP/1.1\r\nContent-Length: 5\r\nContent-Length: 6\r\n\r\n123456".as_slice(),
            HeadKind::Length,
            58,
        ),
        (
            b"POST /a HTTP/1.1\r\nContent-Length: 0000000000000000005\r\n\r\n12345".as_slice(),
            HeadKind::Length,
            57,
        ),
        (
            b"POST /a HTTP/1.1\r\nContent-Length: 4194305\r\n\r\n".as_slice(),
            HeadKind::TooLarge { length: 4_194_305 },
            45,
        ),
        (
            b"POST /a HTTP/1.1\r\nContent-Length: 999999999999999999\r\n\r\n".as_slice(),
            HeadKind::TooLarge {
                length: 999_999_999_999_999_999,
            },
            56,
        ),
    ] {
        assert_eq!(rt; cut(bytes), CutAnswer::Bad { kind, length });
    }
}

#[test]
fn more_is_needed(rt: HostRuntime) {
    for bytes in [
        b"\n\n\n\n".as_slice(),
        b"\x16\x03\x01\x02".as_slice(),
        b"POST /a HTTP/1.1\r\nContent-Length: 4194304\r\n\r\n".as_slice(),
    ] {
        assert_eq!(rt; cut(bytes), CutAnswer::Need);
    }
}

/// A head with so many field lines.
fn head_of(alloc: Global, fields: usize) -> Result<Vec<u8>, AllocError> {
    let mut head = Vec::from_slice(alloc, b"GET /a HTTP/1.1\r\n".as_slice())?;
    for _ in 0..fields {
        head.extend_from_slice(b"a: b\r\n".as_slice())?;
    }
    head.extend_from_slice(b"\r\n".as_slice())?;
    Ok(head)
}

#[test]
fn fields_have_a_limit(rt: HostRuntime) -> Result<(), Fail> {
    let most = head_of(rt.alloc(), 64)?;
    assert_eq!(rt; cut(most.as_slice()), request((4, 6), (403, 403), false));
    let more = head_of(rt.alloc(), 65)?;
    assert_eq!(rt;
        cut(more.as_slice()),
        CutAnswer::Bad {
            kind: HeadKind::Head,
            length: 409
        }
    );
    Ok(())
}

/// The front of a head with a value of so many bytes, and how it ends.
fn head_with(alloc: Global, value: usize, end: &[u8]) -> Result<Vec<u8>, AllocError> {
    let mut head = Vec::from_slice(alloc, b"GET /a HTTP/1.1\r\na: ".as_slice())?;
    for _ in 0..value {
        head.extend_from_slice(b"b".as_slice())?;
    }
    head.extend_from_slice(end)?;
    Ok(head)
}

#[test]
fn heads_have_a_limit(rt: HostRuntime) -> Result<(), Fail> {
    let most = head_with(rt.alloc(), 8_168, b"\r\n\r\n")?;
    assert_eq!(rt;
        cut(most.as_slice()),
        request((4, 6), (8_192, 8_192), false)
    );
    let more = head_with(rt.alloc(), 8_169, b"\r\n\r\n")?;
    assert_eq!(rt;
        cut(more.as_slice()),
        CutAnswer::Bad {
            kind: HeadKind::HeadLong,
            length: 8_192
        }
    );
    Ok(())
}

#[test]
fn heads_without_an_end(rt: HostRuntime) -> Result<(), Fail> {
    let short = head_with(rt.alloc(), 8_171, b"")?;
    assert_eq!(rt; cut(short.as_slice()), CutAnswer::Need);
    let long = head_with(rt.alloc(), 8_172, b"")?;
    assert_eq!(rt;
        cut(long.as_slice()),
        CutAnswer::Bad {
            kind: HeadKind::HeadLong,
            length: 8_192
        }
    );
    Ok(())
}
