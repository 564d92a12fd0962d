//! Reading a line's words. One that is missing or isn't a number reads as zero, and shows so in what is printed.
use ante_idxapi::Indexed;
use ante_pack::{Key256, Level, Name, Seq};
use std::alloc::{AllocError, Global};
use std::fmt::Debug;
use std::str::SplitWhitespace;

pub fn word<'a>(words: &mut SplitWhitespace<'a>) -> &'a str {
    words.next().unwrap_or("")
}

pub fn number(words: &mut SplitWhitespace) -> u64 {
    word(words).parse().unwrap_or(0)
}

pub fn wide(words: &mut SplitWhitespace) -> u128 {
    word(words).parse().unwrap_or(0)
}

pub fn iterator(words: &mut SplitWhitespace) -> i32 {
    word(words).parse().unwrap_or(0)
}

pub fn name(words: &mut SplitWhitespace) -> Name {
    Name(number(words))
}

/// The actors that the words which are left name.
pub fn actors(alloc: Global, words: &mut SplitWhitespace) -> Result<Seq<Level>, AllocError> {
    let mut actors = Seq::new(alloc);
    while let Some(word) = words.next() {
        let actor = Name(word.parse().unwrap_or(0));
        let permission = Name(0);
        actors.push(alloc, Level { actor, permission })?;
    }
    Ok(actors)
}

/// A key as it stands in scripts: one word, or two of a key of 256 bits.
pub trait Keyed: Indexed + Debug {
    fn read(words: &mut SplitWhitespace) -> Self;
}

impl Keyed for u64 {
    fn read(words: &mut SplitWhitespace) -> u64 {
        number(words)
    }
}

impl Keyed for u128 {
    fn read(words: &mut SplitWhitespace) -> u128 {
        wide(words)
    }
}

impl Keyed for Key256 {
    fn read(words: &mut SplitWhitespace) -> Key256 {
        let first = wide(words);
        let second = wide(words);
        Key256 { first, second }
    }
}
