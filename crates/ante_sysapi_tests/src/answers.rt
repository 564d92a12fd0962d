//! What comes of a call, in words.
use ante_pack::{Name, name_text};
use ante_types::{Failure, RunContext};
use ante_wmem::HostAnswer;
use std::alloc::Global;
use std::io;

/// So many bytes of a long text are shown, the last ones.
const SHOWN: usize = 24;

fn print_byte(rt: &impl Print, byte: u8) -> io::Result<()> {
    if byte < 32 || byte > 126 {
        return print!(rt; "\\x{byte:02x}");
    }
    print!(rt; "{}", byte as char)
}

// How many bytes there are, and how they end.
fn print_end(rt: &impl Print, bytes: &[u8]) -> io::Result<()> {
    print!(rt; " {} \"", bytes.len())?;
    let (_, end) = bytes.split_at(bytes.len().saturating_sub(SHOWN));
    for byte in end {
        print_byte(rt, *byte)?;
    }
    print!(rt; "\"")
}

fn print_name(rt: &impl Print, name: Name) -> io::Result<()> {
    print!(rt; " ")?;
    let (text, length) = name_text(name);
    for byte in text.iter().take(length) {
        print_byte(rt, *byte)?;
    }
    Ok(())
}

fn print_failure(rt: &impl Print, failure: &Failure) -> io::Result<()> {
    match failure {
        Failure::Assert { message } => {
            print!(rt; "Assert")?;
            print_end(rt, message.as_slice())
        }
        Failure::WriteRefused { intrinsic } => {
            print!(rt; "WriteRefused")?;
            print_end(rt, intrinsic.as_slice())
        }
        Failure::Trap { kind } => {
            print!(rt; "Trap")?;
            print_end(rt, kind.as_slice())
        }
        failure => print!(rt; "{failure:?}"),
    }
}

/// The reply.
pub fn print_reply(rt: &impl Print, answer: &HostAnswer<Failure>) -> io::Result<()> {
    match answer {
        HostAnswer::Refused(failure) => print_failure(rt, failure),
        answer => print!(rt; "{answer:?}"),
    }
}

/// Bytes of the memory, if there are any.
pub fn print_bytes(rt: &impl Print, alloc: Global, bytes: &[u8]) -> io::Result<()> {
    if bytes.is_empty() {
        return Ok(());
    }
    let bytes = hex::encode(alloc, bytes)?;
    print!(rt; ", memory {bytes}")
}

fn print_said(rt: &impl Print, what: &str, bytes: &[u8]) -> io::Result<()> {
    if bytes.is_empty() {
        return Ok(());
    }
    print!(rt; ", {what}")?;
    print_end(rt, bytes)
}

fn print_asked(rt: &impl Print, run: &RunContext) -> io::Result<()> {
    for name in run.recipients.as_slice() {
        print!(rt; ", notifies")?;
        print_name(rt, *name)?;
    }
    for action in run.inlines.as_slice() {
        print!(rt; ", sends")?;
        print_name(rt, action.account)?;
        print_name(rt, action.name)?;
    }
    Ok(())
}

/// What the run has said and asked for so far.
pub fn print_run(rt: &impl Print, run: &RunContext) -> io::Result<()> {
    print_said(rt, "console", run.console.as_slice())?;
    print_said(rt, "returns", run.return_value.as_slice())?;
    print_asked(rt, run)
}
