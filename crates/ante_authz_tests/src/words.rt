//! Reading a line's words.
use ante_pack::{Authority, Bytes, Key, KeyWeight, Level, LevelWeight, Name, Seq, name_from_text};
use ante_state::{AccountRow, PermissionRow};
use ante_store::Change;
use ante_types::Action;
use std::alloc::Global;
use std::io;
use std::io::ErrorKind;
use std::str::SplitWhitespace;

/// What is asked of a permission.
#[derive(Drop)]
pub struct Weighing {
    pub level: Level,
    pub code: Option<Name>,
    pub visits: u32,
    pub keys: Vec<Key>,
}

/// What is asked of an action.
#[derive(Drop)]
pub struct Sending {
    pub action: Action,
    pub code: Option<Name>,
    pub keys: Vec<Key>,
}

#[derive(Drop)]
pub enum Line {
    State,
    Change(Change),
    Satisfied(Weighing),
    Check(Sending),
}

fn wrong() -> io::Error {
    io::Error::from(ErrorKind::InvalidData)
}

fn word<'a>(words: &mut SplitWhitespace<'a>) -> io::Result<&'a str> {
    words.next().ok_or_else(wrong)
}

fn number(words: &mut SplitWhitespace) -> io::Result<u32> {
    word(words)?.parse().map_err(|_| wrong())
}

fn weight(words: &mut SplitWhitespace) -> io::Result<u16> {
    word(words)?.parse().map_err(|_| wrong())
}

fn key(words: &mut SplitWhitespace) -> io::Result<Key> {
    let mut key = [0; 34];
    key[33] = word(words)?.parse().map_err(|_| wrong())?;
    Ok(key)
}

fn code(words: &mut SplitWhitespace) -> io::Result<Option<Name>> {
    match word(words)? {
        "-" => Ok(None),
        text => Ok(Some(name_from_text(text).map_err(|_| wrong())?)),
    }
}

fn name(words: &mut SplitWhitespace) -> io::Result<Name> {
    Ok(code(words)?.unwrap_or(Name(0)))
}

fn level(words: &mut SplitWhitespace) -> io::Result<Level> {
    Ok(Level {
        actor: name(words)?,
        permission: name(words)?,
    })
}

fn bytes(alloc: Global, words: &mut SplitWhitespace) -> io::Result<Bytes> {
    match word(words)? {
        "-" => Ok(Bytes::new(alloc)),
        text => Ok(Bytes::from_vec(hex::decode(alloc, text).map_err(|_| wrong())?)),
    }
}

fn keys(alloc: Global, words: &mut SplitWhitespace) -> io::Result<Vec<Key>> {
    let mut keys = Vec::new(alloc);
    for _ in 0..number(words)? {
        keys.push(key(words)?)?;
    }
    Ok(keys)
}

fn levels(alloc: Global, words: &mut SplitWhitespace) -> io::Result<Seq<Level>> {
    let mut levels = Seq::new(alloc);
    for _ in 0..number(words)? {
        levels.push(alloc, level(words)?)?;
    }
    Ok(levels)
}

fn key_weights(alloc: Global, words: &mut SplitWhitespace) -> io::Result<Seq<KeyWeight>> {
    let mut weights = Seq::new(alloc);
    for _ in 0..number(words)? {
        let (key, weight) = (key(words)?, weight(words)?);
        weights.push(alloc, KeyWeight { key, weight })?;
    }
    Ok(weights)
}

fn level_weights(alloc: Global, words: &mut SplitWhitespace) -> io::Result<Seq<LevelWeight>> {
    let mut weights = Seq::new(alloc);
    for _ in 0..number(words)? {
        let (level, weight) = (level(words)?, weight(words)?);
        weights.push(alloc, LevelWeight { level, weight })?;
    }
    Ok(weights)
}

fn authority(alloc: Global, words: &mut SplitWhitespace) -> io::Result<Authority> {
    Ok(Authority {
        threshold: number(words)?,
        keys: key_weights(alloc, words)?,
        accounts: level_weights(alloc, words)?,
        waits: Seq::new(alloc),
    })
}

fn account(alloc: Global, words: &mut SplitWhitespace) -> io::Result<Change> {
    let name = name(words)?;
    let row = AccountRow {
        payer: name,
        privileged: false,
        code: Bytes::new(alloc),
        abi: Bytes::new(alloc),
    };
    Ok(Change::SetAccount { name, row })
}

fn permission(alloc: Global, words: &mut SplitWhitespace) -> io::Result<Change> {
    let level = level(words)?;
    let parent = name(words)?;
    let authority = authority(alloc, words)?;
    let row = Some(PermissionRow { parent, authority });
    Ok(Change::SetPermission { level, row })
}

fn link(words: &mut SplitWhitespace) -> io::Result<Change> {
    let (account, code, action) = (name(words)?, name(words)?, name(words)?);
    let requirement = Some(name(words)?);
    Ok(Change::SetLink {
        account,
        code,
        action,
        requirement,
    })
}

fn read_weighing(alloc: Global, words: &mut SplitWhitespace) -> io::Result<Weighing> {
    Ok(Weighing {
        level: level(words)?,
        code: code(words)?,
        visits: number(words)?,
        keys: keys(alloc, words)?,
    })
}

fn action(alloc: Global, words: &mut SplitWhitespace) -> io::Result<Action> {
    Ok(Action {
        account: name(words)?,
        name: name(words)?,
        authorization: Seq::new(alloc),
        bytes: bytes(alloc, words)?,
    })
}

fn read_sending(alloc: Global, words: &mut SplitWhitespace) -> io::Result<Sending> {
    let mut action = action(alloc, words)?;
    let code = code(words)?;
    let keys = keys(alloc, words)?;
    action.authorization = levels(alloc, words)?;
    Ok(Sending { action, code, keys })
}

/// What the line says.
pub fn read_line(alloc: Global, text: &str) -> io::Result<Line> {
    let mut words = text.split_whitespace();
    match word(&mut words)? {
        "state" => Ok(Line::State),
        "account" => Ok(Line::Change(account(alloc, &mut words)?)),
        "permission" => Ok(Line::Change(permission(alloc, &mut words)?)),
        "link" => Ok(Line::Change(link(&mut words)?)),
        "satisfied" => Ok(Line::Satisfied(read_weighing(alloc, &mut words)?)),
        "check" => Ok(Line::Check(read_sending(alloc, &mut words)?)),
        _ => Err(wrong()),
    }
}
