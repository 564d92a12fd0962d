//! Reading a line's words.
use ante_pack::{Bytes, Level, Name, Seq, name_from_text};
use ante_types::Action;
use std::alloc::Global;
use std::io;
use std::io::ErrorKind;
use std::str::SplitWhitespace;

/// An action to run, with the steps that it may take.
#[derive(Drop)]
pub struct Play {
    pub writes: bool,
    pub left: u64,
    pub action: Action,
}

#[derive(Drop)]
pub enum Line {
    Transaction(Bytes),
    Slot(u32),
    Digest,
    Play(Play),
}

pub fn wrong() -> io::Error {
    io::Error::from(ErrorKind::InvalidData)
}

fn name_of(text: &str) -> io::Result<Name> {
    match text {
        "-" => Ok(Name(0)),
        text => name_from_text(text).map_err(|_| wrong()),
    }
}

fn word<'a>(words: &mut SplitWhitespace<'a>) -> io::Result<&'a str> {
    words.next().ok_or_else(wrong)
}

fn bytes(alloc: Global, words: &mut SplitWhitespace) -> io::Result<Bytes> {
    match word(words)? {
        "-" => Ok(Bytes::new(alloc)),
        text => Ok(Bytes::from_vec(hex::decode(alloc, text).map_err(|_| wrong())?)),
    }
}

fn level(text: &str) -> io::Result<Level> {
    let (actor, permission) = text.split_once('@').ok_or_else(wrong)?;
    Ok(Level {
        actor: name_of(actor)?,
        permission: name_of(permission)?,
    })
}

fn levels(alloc: Global, words: &mut SplitWhitespace) -> io::Result<Seq<Level>> {
    let mut levels = Seq::new(alloc);
    while let Some(text) = words.next() {
        levels.push(alloc, level(text)?)?;
    }
    Ok(levels)
}

fn read_play(alloc: Global, writes: bool, words: &mut SplitWhitespace) -> io::Result<Play> {
    let left = word(words)?.parse().map_err(|_| wrong())?;
    let (account, name) = (name_of(word(words)?)?, name_of(word(words)?)?);
    let bytes = bytes(alloc, words)?;
    let authorization = levels(alloc, words)?;
    let action = Action {
        account,
        name,
        authorization,
        bytes,
    };
    Ok(Play {
        writes,
        left,
        action,
    })
}

/// What the line says.
pub fn read_line(alloc: Global, text: &str) -> io::Result<Line> {
    let mut words = text.split_whitespace();
    match word(&mut words)? {
        "transaction" => Ok(Line::Transaction(bytes(alloc, &mut words)?)),
        "slot" => Ok(Line::Slot(word(&mut words)?.parse().map_err(|_| wrong())?)),
        "digest" => Ok(Line::Digest),
        "write" => Ok(Line::Play(read_play(alloc, true, &mut words)?)),
        "read" => Ok(Line::Play(read_play(alloc, false, &mut words)?)),
        _ => Err(wrong()),
    }
}
