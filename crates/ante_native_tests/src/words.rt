//! Reading a line's words.
use ante_pack::{Bytes, Level, Name, Seq, name_from_text};
use ante_types::{Action, Genesis, Mode, RunContext, read_genesis};
use std::alloc::Global;
use std::io;
use std::io::ErrorKind;
use std::str::SplitWhitespace;

#[derive(Drop)]
pub enum Line {
    State,
    Digest,
    Used(Name),
    Genesis(Genesis),
    Run(RunContext),
}

fn wrong() -> io::Error {
    io::Error::from(ErrorKind::InvalidData)
}

fn name_of(text: &str) -> io::Result<Name> {
    match text {
        "-" => Ok(Name(0)),
        text => name_from_text(text).map_err(|_| wrong()),
    }
}

fn name(words: &mut SplitWhitespace) -> io::Result<Name> {
    let text = words.next().ok_or_else(wrong)?;
    name_of(text)
}

fn bytes(alloc: Global, words: &mut SplitWhitespace) -> io::Result<Bytes> {
    match words.next() {
        None => Err(wrong()),
        Some("-") => Ok(Bytes::new(alloc)),
        Some(text) => Ok(Bytes::from_vec(hex::decode(alloc, text).map_err(|_| wrong())?)),
    }
}

fn level(text: &str) -> io::Result<Level> {
    let (actor, permission) = text.split_once('@').ok_or_else(wrong)?;
    Ok(Level {
        actor: name_of(actor)?,
        permission: name_of(permission)?,
    })
}

fn levels(alloc: Global, words: &mut SplitWhitespace) -> io::Result<Seq<Level>> {
    let mut levels = Seq::new(alloc);
    while let Some(text) = words.next() {
        levels.push(alloc, level(text)?)?;
    }
    Ok(levels)
}

fn action(alloc: Global, words: &mut SplitWhitespace) -> io::Result<Action> {
    let (account, name, bytes) = (name(words)?, name(words)?, bytes(alloc, words)?);
    Ok(Action {
        account,
        name,
        authorization: levels(alloc, words)?,
        bytes,
    })
}

fn run(alloc: Global, mode: Mode, words: &mut SplitWhitespace) -> io::Result<RunContext> {
    Ok(RunContext {
        receiver: name(words)?,
        action: action(alloc, words)?,
        notified: false,
        depth: 0,
        sender: Name(0),
        slot: 0,
        mode,
        recipients: Seq::new(alloc),
        inlines: Seq::new(alloc),
        console: Bytes::new(alloc),
        return_value: Bytes::new(alloc),
    })
}

fn genesis(alloc: Global, words: &mut SplitWhitespace) -> io::Result<Genesis> {
    let packed = bytes(alloc, words)?;
    read_genesis(alloc, packed.as_slice()).map_err(|_| wrong())
}

/// What the line says.
pub fn read_line(alloc: Global, text: &str) -> io::Result<Line> {
    let mut words = text.split_whitespace();
    match words.next() {
        Some("state") => Ok(Line::State),
        Some("digest") => Ok(Line::Digest),
        Some("used") => Ok(Line::Used(name(&mut words)?)),
        Some("genesis") => Ok(Line::Genesis(genesis(alloc, &mut words)?)),
        Some("write") => Ok(Line::Run(run(alloc, Mode::Writing, &mut words)?)),
        Some("read") => Ok(Line::Run(run(alloc, Mode::Reading, &mut words)?)),
        _ => Err(wrong()),
    }
}
