//! Reading a line's words.
use ante_pack::{Bytes, Level, Name, Seq, name_from_text};
use ante_types::{Action, Mode, RunContext};
use ante_wtree::host_number;
use std::alloc::Global;
use std::io;
use std::io::ErrorKind;
use std::str::SplitWhitespace;

/// A call, with the steps that are left, its arguments, and the range of the memory to show after it.
#[derive(Drop)]
pub struct Call {
    pub number: u32,
    pub left: u64,
    pub args: Vec<u64>,
    pub shown: (u32, u32),
}

#[derive(Drop)]
pub enum Line {
    Transaction(Vec<u8>),
    Account(Name),
    Run(RunContext),
    Put(u32, Vec<u8>),
    Quota(Name),
    Call(Call),
}

pub fn wrong() -> io::Error {
    io::Error::from(ErrorKind::InvalidData)
}

fn word<'a>(words: &mut SplitWhitespace<'a>) -> io::Result<&'a str> {
    words.next().ok_or_else(wrong)
}

fn read_number(words: &mut SplitWhitespace) -> io::Result<u32> {
    word(words)?.parse().map_err(|_| wrong())
}

fn name(words: &mut SplitWhitespace) -> io::Result<Name> {
    match word(words)? {
        "-" => Ok(Name(0)),
        text => name_from_text(text).map_err(|_| wrong()),
    }
}

fn repeated(alloc: Global, byte: &str, count: &str) -> io::Result<Vec<u8>> {
    let byte = hex::decode(alloc, byte).map_err(|_| wrong())?;
    let byte = byte.first().copied().ok_or_else(wrong)?;
    let count: u32 = count.parse().map_err(|_| wrong())?;
    Ok(vec![in alloc; byte; count as usize]?)
}

fn bytes(alloc: Global, words: &mut SplitWhitespace) -> io::Result<Vec<u8>> {
    let word = word(words)?;
    if let Some((byte, count)) = word.split_once('*') {
        return repeated(alloc, byte, count);
    }
    match word {
        "-" => Ok(Vec::new(alloc)),
        text => hex::decode(alloc, text).map_err(|_| wrong()),
    }
}

// An unsigned number, a signed one or a name.
fn argument(word: &str) -> io::Result<u64> {
    if let Ok(number) = word.parse::<u64>() {
        return Ok(number);
    }
    if let Ok(number) = word.parse::<i64>() {
        return Ok(number.cast_unsigned());
    }
    let name = name_from_text(word).map_err(|_| wrong())?;
    Ok(name.0)
}

fn levels(alloc: Global, words: &mut SplitWhitespace) -> io::Result<Seq<Level>> {
    let mut levels = Seq::new(alloc);
    for _ in 0..read_number(words)? {
        let (actor, permission) = (name(words)?, name(words)?);
        levels.push(alloc, Level { actor, permission })?;
    }
    Ok(levels)
}

fn action(alloc: Global, words: &mut SplitWhitespace) -> io::Result<Action> {
    Ok(Action {
        account: name(words)?,
        name: Name(0),
        bytes: Bytes::from_vec(bytes(alloc, words)?),
        authorization: levels(alloc, words)?,
    })
}

fn run(alloc: Global, words: &mut SplitWhitespace) -> io::Result<RunContext> {
    Ok(RunContext {
        receiver: name(words)?,
        mode: if word(words)? == "read" {
            Mode::Reading
        } else {
            Mode::Writing
        },
        depth: word(words)?.parse().map_err(|_| wrong())?,
        sender: name(words)?,
        slot: read_number(words)?,
        action: action(alloc, words)?,
        notified: false,
        recipients: Seq::new(alloc),
        inlines: Seq::new(alloc),
        console: Bytes::new(alloc),
        return_value: Bytes::new(alloc),
    })
}

fn read_call(alloc: Global, name: &str, words: &mut SplitWhitespace) -> io::Result<Call> {
    let number = host_number(name.as_bytes()).ok_or_else(wrong)?;
    let left = word(words)?.parse().map_err(|_| wrong())?;
    let mut args = Vec::new(alloc);
    while let Some(word) = words.next() {
        if word == "@" {
            let shown = (read_number(words)?, read_number(words)?);
            return Ok(Call {
                number,
                left,
                args,
                shown,
            });
        }
        args.push(argument(word)?)?;
    }
    Ok(Call {
        number,
        left,
        args,
        shown: (0, 0),
    })
}

/// What the line says.
pub fn read_line(alloc: Global, text: &str) -> io::Result<Line> {
    let mut words = text.split_whitespace();
    match word(&mut words)? {
        "transaction" => Ok(Line::Transaction(bytes(alloc, &mut words)?)),
        "account" => Ok(Line::Account(name(&mut words)?)),
        "run" => Ok(Line::Run(run(alloc, &mut words)?)),
        "put" => Ok(Line::Put(read_number(&mut words)?, bytes(alloc, &mut words)?)),
        "quota" => Ok(Line::Quota(name(&mut words)?)),
        name => Ok(Line::Call(read_call(alloc, name, &mut words)?)),
    }
}
