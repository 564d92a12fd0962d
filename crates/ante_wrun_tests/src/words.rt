//! Reading a row's words.
use crate::player::{Answer, Play};
use ante_stack::Stack;
use std::alloc::Global;
use std::io;
use std::io::ErrorKind;
use std::str::SplitWhitespace;

/// What a run is given.
#[derive(Drop)]
pub struct Row {
    pub args: [u64; 3],
    pub left: u64,
    /// The look that asks to stop, and its moment.
    pub look: Option<(u64, u64)>,
    /// What the host does at its calls, the first one on top.
    pub plays: Stack<Play>,
}

fn number(words: &mut SplitWhitespace) -> Option<u64> {
    words.next()?.parse().ok()
}

fn place_and_number(text: &str) -> Option<(u32, u64)> {
    let (at, number) = text.split_once(':')?;
    Some((at.parse().ok()?, number.parse().ok()?))
}

/// What the word adds to a call.
fn with_word(mut play: Play, word: &str) -> Option<Play> {
    match word.split_once('=').unwrap_or((word, "")) {
        ("pay", steps) => play.pays = steps.parse().ok()?,
        ("put", text) => play.puts = Some(place_and_number(text)?),
        ("show", at) => play.shows = Some(at.parse().ok()?),
        ("give", number) => play.answer = Answer::Give(number.parse().ok()?),
        ("refuse", number) => play.answer = Answer::Refuse(number.parse().ok()?),
        ("exit", _) => play.answer = Answer::Exit,
        ("limit", _) => play.answer = Answer::Limit,
        _ => return None,
    }
    Some(play)
}

/// What the host does at a call: `pay=STEPS`, `put=ADDRESS:NUMBER`, `show=ADDRESS`, and one of `give=NUMBER`, `exit`,
/// `refuse=NUMBER` and `limit`.
fn play(text: &str) -> Option<Play> {
    let mut play = Play::silent();
    for word in text.split_whitespace() {
        play = with_word(play, word)?;
    }
    Some(play)
}

fn plays(alloc: Global, text: &str) -> io::Result<Stack<Play>> {
    let mut plays = Stack::new(alloc);
    for part in text.rsplit('|') {
        let play = play(part).ok_or(ErrorKind::InvalidData)?;
        plays.push(alloc, play)?;
    }
    Ok(plays)
}

fn look(words: &mut SplitWhitespace) -> Option<Option<(u64, u64)>> {
    match words.next() {
        None => Some(None),
        Some("look") => Some(Some((number(words)?, number(words)?))),
        Some(_) => None,
    }
}

fn row_of(text: &str, plays: Stack<Play>) -> Option<Row> {
    let mut words = text.split_whitespace();
    Some(Row {
        args: [
            number(&mut words)?,
            number(&mut words)?,
            number(&mut words)?,
        ],
        left: number(&mut words)?,
        look: look(&mut words)?,
        plays,
    })
}

/// The row that stands behind `run`.
pub fn read_row(alloc: Global, text: &str) -> io::Result<Row> {
    let found = match text.split_once('|') {
        Some((text, others)) => row_of(text, plays(alloc, others)?),
        None => row_of(text, Stack::new(alloc)),
    };
    Ok(found.ok_or(ErrorKind::InvalidData)?)
}
