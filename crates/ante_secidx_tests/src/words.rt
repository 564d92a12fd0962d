//! Reading a line's words.
use ante_pack::{Key256, Name, TableKey};
use ante_secidx::SecKey;
use std::io;
use std::io::ErrorKind;
use std::str::SplitWhitespace;

/// A key as it stands in scripts.
pub trait Worded: SecKey {
    fn read(word: &str) -> io::Result<Self>;

    fn print(&self, rt: &impl Print) -> io::Result<()>;
}

pub fn wrong() -> io::Error {
    io::Error::from(ErrorKind::InvalidData)
}

fn wide_number(word: &str) -> io::Result<u128> {
    word.parse().map_err(|_| wrong())
}

impl Worded for u64 {
    fn read(word: &str) -> io::Result<u64> {
        word.parse().map_err(|_| wrong())
    }

    fn print(&self, rt: &impl Print) -> io::Result<()> {
        print!(rt; "{self}")
    }
}

impl Worded for u128 {
    fn read(word: &str) -> io::Result<u128> {
        wide_number(word)
    }

    fn print(&self, rt: &impl Print) -> io::Result<()> {
        print!(rt; "{self}")
    }
}

impl Worded for Key256 {
    fn read(word: &str) -> io::Result<Key256> {
        let (first, second) = word.split_once(':').ok_or_else(wrong)?;
        Ok(Key256 {
            first: wide_number(first)?,
            second: wide_number(second)?,
        })
    }

    fn print(&self, rt: &impl Print) -> io::Result<()> {
        let first = self.first;
        let second = self.second;
        print!(rt; "{first}:{second}")
    }
}

/// A call, with its arguments.
#[derive(Clone, Copy)]
pub enum Line<K: Worded> {
    Insert(TableKey, K, u64, Name),
    Update(TableKey, K, u64, Name),
    Remove(TableKey, u64),
    Primary(TableKey, u64),
    Lower(TableKey, K),
    Upper(TableKey, K),
    Exact(TableKey, K),
    Next(TableKey, K, u64),
    Previous(TableKey, K, u64),
    Last(TableKey),
    Walk(TableKey),
    Back(TableKey),
    All,
    Begin,
    Undo,
    Squash,
    Commit(u64),
    Shelve(u64),
    Unshelve,
    DropShelf,
}

// Five tables in their order: the least key, two of one contract in two scopes, one of another contract, the greatest key.
fn table(number: u64) -> TableKey {
    let (code, scope, table) = match number {
        0 => (0, 0, 0),
        1 => (1, 1, u64::MAX),
        2 => (1, 2, 0),
        3 => (2, 0, 0),
        _ => (u64::MAX, u64::MAX, u64::MAX),
    };
    TableKey {
        code: Name(code),
        scope: Name(scope),
        table: Name(table),
    }
}

/// The table's number, or 9.
pub fn number_of(key: TableKey) -> u64 {
    for number in 0..5 {
        if table(number) == key {
            return number;
        }
    }
    9
}

fn number(words: &mut SplitWhitespace) -> io::Result<u64> {
    let word = words.next().ok_or_else(wrong)?;
    word.parse().map_err(|_| wrong())
}

fn at(words: &mut SplitWhitespace) -> io::Result<TableKey> {
    Ok(table(number(words)?))
}

fn key<K: Worded>(words: &mut SplitWhitespace) -> io::Result<K> {
    K::read(words.next().ok_or_else(wrong)?)
}

fn read_write<K: Worded>(kind: &str, words: &mut SplitWhitespace) -> io::Result<Line<K>> {
    let table = at(words)?;
    if kind == "remove" {
        return Ok(Line::Remove(table, number(words)?));
    }
    let (key, primary) = (key(words)?, number(words)?);
    let payer = Name(number(words)?);
    if kind == "insert" {
        Ok(Line::Insert(table, key, primary, payer))
    } else {
        Ok(Line::Update(table, key, primary, payer))
    }
}

fn read_look<K: Worded>(kind: &str, words: &mut SplitWhitespace) -> io::Result<Line<K>> {
    let table = at(words)?;
    match kind {
        "primary" => Ok(Line::Primary(table, number(words)?)),
        "lower" => Ok(Line::Lower(table, key(words)?)),
        "upper" => Ok(Line::Upper(table, key(words)?)),
        "exact" => Ok(Line::Exact(table, key(words)?)),
        "next" => Ok(Line::Next(table, key(words)?, number(words)?)),
        "previous" => Ok(Line::Previous(table, key(words)?, number(words)?)),
        "last" => Ok(Line::Last(table)),
        "walk" => Ok(Line::Walk(table)),
        "back" => Ok(Line::Back(table)),
        _ => Err(wrong()),
    }
}

/// What the line says.
pub fn read_line<K: Worded>(text: &str) -> io::Result<Line<K>> {
    let mut words = text.split_whitespace();
    let kind = words.next().ok_or_else(wrong)?;
    match kind {
        "begin" => Ok(Line::Begin),
        "undo" => Ok(Line::Undo),
        "squash" => Ok(Line::Squash),
        "commit" => Ok(Line::Commit(number(&mut words)?)),
        "shelve" => Ok(Line::Shelve(number(&mut words)?)),
        "unshelve" => Ok(Line::Unshelve),
        "drop_shelf" => Ok(Line::DropShelf),
        "all" => Ok(Line::All),
        "insert" | "update" | "remove" => read_write(kind, &mut words),
        _ => read_look(kind, &mut words),
    }
}
