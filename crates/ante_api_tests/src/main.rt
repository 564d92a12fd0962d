//! Routes the requests of the tables in `data/`, which the program's words name, and prints what each asks for, or the status
//! and the body of its refusal. Then a reply of each kind is printed, byte by byte.
//!
//! A line is a path and, behind a space, a body. Each is sent with its length, and read as soon as its last byte is there.
//! Lines that begin with `#` are passed over.
//!
//! What is to be printed was computed apart from the program.
#![tactic(auto)]

mod replies;

use ante_api::{ApiFault, ApiReply, ApiRequest, render, route};
use ante_http::{CutAnswer, cut};
use ante_pack::Bytes;
use std::alloc::{AllocError, Global};
use std::{env, fs, io};

fn main(rt: HostRuntime) -> io::Result<()> {
    for name in env::args(&rt)?.skip(1) {
        let text = fs::read_to_string(&rt, name.as_str())?;
        for line in text.as_str().lines() {
            if !line.starts_with('#') {
                print_line(&rt, rt.alloc(), line)?;
            }
        }
    }
    replies::show_replies(&rt, rt.alloc())
}

fn print_line(rt: &impl Print, alloc: Global, line: &str) -> io::Result<()> {
    println!(rt; "{line}")?;
    let (path, body) = match line.split_once(' ') {
        Some(parts) => parts,
        None => (line, ""),
    };
    let bytes = request_of(alloc, path.as_bytes(), body.as_bytes())?;
    answer(rt, alloc, bytes.as_slice())
}

/// A request of this path and body.
fn request_of(alloc: Global, path: &[u8], body: &[u8]) -> Result<Bytes, AllocError> {
    let mut out = Bytes::new(alloc);
    let mut buffer = itoa::Buffer::new();
    out.append(alloc, b"POST /v1/chain/")?;
    out.append(alloc, path)?;
    out.append(alloc, b" HTTP/1.1\r\nContent-Length: ")?;
    out.append(alloc, buffer.format(body.len()).as_bytes())?;
    out.append(alloc, b"\r\n\r\n")?;
    out.append(alloc, body)?;
    Ok(out)
}

/// How many of the bytes' fronts don't ask for more, the whole left out.
fn early(bytes: &[u8]) -> usize {
    let mut count: usize = 0;
    for at in 0..bytes.len() {
        if cut(&bytes[..at]) != CutAnswer::Need {
            count = count.saturating_add(1);
        }
    }
    count
}

fn answer(rt: &impl Print, alloc: Global, bytes: &[u8]) -> io::Result<()> {
    let CutAnswer::Request { request, length } = cut(bytes) else {
        return println!(rt; "no request");
    };
    if length != bytes.len() || early(bytes) != 0 {
        return println!(rt; "another request");
    }
    match route(alloc, &request, bytes) {
        Ok(request) => print_request(rt, &request),
        Err(fault) => print_fault(rt, alloc, fault),
    }
}

fn print_request(rt: &impl Print, request: &ApiRequest) -> io::Result<()> {
    match request {
        ApiRequest::View(query) => println!(rt; "  {query:?}"),
        ApiRequest::PushTransaction { packed, signatures } => {
            print!(rt; "  transaction of {} bytes", packed.len())?;
            for signature in signatures.as_slice() {
                print!(rt; " {:?}", signature.as_slice())?;
            }
            println!(rt; "")
        }
        ApiRequest::PushBlock { block } => println!(rt; "  block of slot {}", block.header.slot),
        ApiRequest::ReadOnly { job, seen } => {
            println!(rt;
                "  read-only transaction of {} bytes, {seen:?}",
                job.packed().len()
            )
        }
    }
}

fn print_fault(rt: &impl Print, alloc: Global, fault: ApiFault) -> io::Result<()> {
    let reply = render(alloc, &ApiReply::Fault(fault), false)?;
    let text = reply.as_slice();
    let Some(status) = text.get(9..12) else {
        return println!(rt; "no status");
    };
    print_text(rt, status)?;
    let start = body_start(text);
    if start <= text.len() {
        print_text(rt, &text[start..])?;
    }
    println!(rt; "")
}

/// Where the body begins: after the first empty line.
fn body_start(text: &[u8]) -> usize {
    for at in 0..text.len() {
        if text[at..].starts_with(b"\r\n\r\n") {
            return at + 4;
        }
    }
    text.len()
}

fn print_text(rt: &impl Print, text: &[u8]) -> io::Result<()> {
    match str::from_utf8(text) {
        Ok(text) => print!(rt; "  {text}"),
        Err(_) => print!(rt; "  not UTF-8"),
    }
}
