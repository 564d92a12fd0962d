//! Reading a line's words.
use ante_pack::{Bytes, Level, Name, Seq};
use std::alloc::Global;
use std::io;
use std::io::ErrorKind;
use std::str::SplitWhitespace;

/// A table by its three names.
#[derive(Clone, Copy)]
pub struct Place {
    pub code: Name,
    pub scope: Name,
    pub table: Name,
}

/// A call, with its arguments.
#[derive(Drop)]
pub enum Call {
    Store(Name, Name, Name, u64, Bytes),
    Update(i32, Name, Bytes),
    Remove(i32),
    Get(i32, u32),
    Next(i32),
    Previous(i32),
    Find(Place, u64),
    LowerBound(Place, u64),
    UpperBound(Place, u64),
    End(Place),
}

/// A run's own: its receiver, whether it only reads, whether it is a notification, and the actors of its action.
#[derive(Drop)]
pub struct Scene {
    pub receiver: Name,
    pub reads: bool,
    pub notified: bool,
    pub actors: Seq<Level>,
}

#[derive(Drop)]
pub enum Line {
    Account(Name),
    Run(Scene),
    Used(Name),
    Call(Call),
}

fn wrong() -> io::Error {
    io::Error::from(ErrorKind::InvalidData)
}

fn number(words: &mut SplitWhitespace) -> io::Result<u64> {
    let word = words.next().ok_or_else(wrong)?;
    word.parse().map_err(|_| wrong())
}

fn name(words: &mut SplitWhitespace) -> io::Result<Name> {
    Ok(Name(number(words)?))
}

fn iterator(words: &mut SplitWhitespace) -> io::Result<i32> {
    let word = words.next().ok_or_else(wrong)?;
    word.parse().map_err(|_| wrong())
}

fn count(words: &mut SplitWhitespace) -> io::Result<u32> {
    let word = words.next().ok_or_else(wrong)?;
    word.parse().map_err(|_| wrong())
}

fn read_place(words: &mut SplitWhitespace) -> io::Result<Place> {
    Ok(Place {
        code: name(words)?,
        scope: name(words)?,
        table: name(words)?,
    })
}

fn bytes(alloc: Global, words: &mut SplitWhitespace) -> io::Result<Bytes> {
    let word = words.next().ok_or_else(wrong)?;
    if word == "-" {
        return Ok(Bytes::new(alloc));
    }
    let bytes = hex::decode(alloc, word).map_err(|_| wrong())?;
    Ok(Bytes::from_vec(bytes))
}

fn actors(alloc: Global, words: &mut SplitWhitespace) -> io::Result<Seq<Level>> {
    let mut actors = Seq::new(alloc);
    while let Some(word) = words.next() {
        let actor = Name(word.parse().map_err(|_| wrong())?);
        let permission = Name(0);
        actors.push(alloc, Level { actor, permission })?;
    }
    Ok(actors)
}

fn read_scene(alloc: Global, words: &mut SplitWhitespace) -> io::Result<Scene> {
    Ok(Scene {
        receiver: name(words)?,
        reads: words.next() == Some("read"),
        notified: words.next() == Some("notified"),
        actors: actors(alloc, words)?,
    })
}

fn store(alloc: Global, words: &mut SplitWhitespace) -> io::Result<Call> {
    let (scope, table, payer) = (name(words)?, name(words)?, name(words)?);
    Ok(Call::Store(scope, table, payer, number(words)?, bytes(alloc, words)?))
}

fn read_call(alloc: Global, kind: &str, words: &mut SplitWhitespace) -> io::Result<Call> {
    match kind {
        "store" => store(alloc, words),
        "update" => Ok(Call::Update(iterator(words)?, name(words)?, bytes(alloc, words)?)),
        "remove" => Ok(Call::Remove(iterator(words)?)),
        "get" => Ok(Call::Get(iterator(words)?, count(words)?)),
        "next" => Ok(Call::Next(iterator(words)?)),
        "previous" => Ok(Call::Previous(iterator(words)?)),
        "find" => Ok(Call::Find(read_place(words)?, number(words)?)),
        "lowerbound" => Ok(Call::LowerBound(read_place(words)?, number(words)?)),
        "upperbound" => Ok(Call::UpperBound(read_place(words)?, number(words)?)),
        "end" => Ok(Call::End(read_place(words)?)),
        _ => Err(wrong()),
    }
}

/// What the line says.
pub fn read_line(alloc: Global, text: &str) -> io::Result<Line> {
    let mut words = text.split_whitespace();
    match words.next() {
        Some("account") => Ok(Line::Account(name(&mut words)?)),
        Some("run") => Ok(Line::Run(read_scene(alloc, &mut words)?)),
        Some("used") => Ok(Line::Used(name(&mut words)?)),
        Some(kind) => Ok(Line::Call(read_call(alloc, kind, &mut words)?)),
        None => Err(wrong()),
    }
}
