//! Reading a line's words.
use ante_pack::Name;
use std::io;
use std::io::ErrorKind;
use std::str::SplitWhitespace;

pub fn wrong() -> io::Error {
    io::Error::from(ErrorKind::InvalidData)
}

pub fn number(words: &mut SplitWhitespace) -> io::Result<u64> {
    let word = words.next().ok_or_else(wrong)?;
    word.parse().map_err(|_| wrong())
}

pub fn signed(words: &mut SplitWhitespace) -> io::Result<i64> {
    let word = words.next().ok_or_else(wrong)?;
    word.parse().map_err(|_| wrong())
}

pub fn name(words: &mut SplitWhitespace) -> io::Result<Name> {
    Ok(Name(number(words)?))
}

pub fn byte(words: &mut SplitWhitespace) -> io::Result<u8> {
    let word = words.next().ok_or_else(wrong)?;
    word.parse().map_err(|_| wrong())
}

pub fn short(words: &mut SplitWhitespace) -> io::Result<u16> {
    let word = words.next().ok_or_else(wrong)?;
    word.parse().map_err(|_| wrong())
}

pub fn moment(words: &mut SplitWhitespace) -> io::Result<u32> {
    let word = words.next().ok_or_else(wrong)?;
    word.parse().map_err(|_| wrong())
}
