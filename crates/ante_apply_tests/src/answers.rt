//! What comes of an action, in words.
use ante_apply::ApplyEnd;
use ante_pack::{Name, name_text};
use ante_types::{ActionTrace, Failure};
use std::io;

/// So many bytes of a long text are shown, the last ones.
const SHOWN: usize = 480;

fn print_byte(rt: &impl Print, byte: u8) -> io::Result<()> {
    if byte < 32 || byte > 126 {
        return print!(rt; "\\x{byte:02x}");
    }
    print!(rt; "{}", byte as char)
}

// How many bytes there are, and how they end.
fn print_text(rt: &impl Print, bytes: &[u8]) -> io::Result<()> {
    print!(rt; " {} \"", bytes.len())?;
    let (_, end) = bytes.split_at(bytes.len().saturating_sub(SHOWN));
    for byte in end {
        print_byte(rt, *byte)?;
    }
    print!(rt; "\"")
}

fn print_name(rt: &impl Print, name: Name) -> io::Result<()> {
    print!(rt; " ")?;
    let (text, length) = name_text(name);
    for byte in text.iter().take(length) {
        print_byte(rt, *byte)?;
    }
    Ok(())
}

fn print_failure(rt: &impl Print, failure: &Failure) -> io::Result<()> {
    match failure {
        Failure::Assert { message } => {
            print!(rt; "Assert")?;
            print_text(rt, message.as_slice())
        }
        Failure::WriteRefused { intrinsic } => {
            print!(rt; "WriteRefused")?;
            print_text(rt, intrinsic.as_slice())
        }
        Failure::Trap { kind } => {
            print!(rt; "Trap")?;
            print_text(rt, kind.as_slice())
        }
        failure => print!(rt; "{failure:?}"),
    }
}

/// How the action ended.
pub fn print_end(rt: &impl Print, end: &Result<(), ApplyEnd>) -> io::Result<()> {
    match end {
        Ok(()) => print!(rt; "ok"),
        Err(ApplyEnd::Failed(failure)) => print_failure(rt, failure),
        Err(end) => print!(rt; "{end:?}"),
    }
}

fn print_said(rt: &impl Print, what: &str, bytes: &[u8]) -> io::Result<()> {
    if bytes.is_empty() {
        return Ok(());
    }
    print!(rt; ", {what}")?;
    print_text(rt, bytes)
}

fn print_run(rt: &impl Print, run: &ActionTrace) -> io::Result<()> {
    print!(rt; "    {} by {}:", run.ordinal, run.creator)?;
    print_name(rt, run.receiver)?;
    print!(rt; " for")?;
    print_name(rt, run.account)?;
    print_name(rt, run.name)?;
    print!(rt; ", {} bytes, {} steps", run.bytes.len(), run.steps)?;
    print_said(rt, "console", run.console.as_slice())?;
    print_said(rt, "returns", run.return_value.as_slice())?;
    println!(rt; "")
}

/// The runs begun, each on a line.
pub fn print_runs(rt: &impl Print, runs: &[ActionTrace]) -> io::Result<()> {
    for run in runs {
        print_run(rt, run)?;
    }
    Ok(())
}
