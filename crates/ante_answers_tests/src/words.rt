//! Reading a line.
use ante_json::Path;
use ante_pack::{Authority, Bytes, Level, Name, TableKey, name_from_text, read_whole};
use ante_state::{AccountRow, PermissionRow};
use ante_store::Change;
use std::alloc::Global;
use std::io;
use std::io::ErrorKind;
use std::str::SplitWhitespace;

#[derive(Drop)]
pub enum Line<'a> {
    Change(Change),
    Query(Path, &'a str),
}

fn wrong() -> io::Error {
    io::Error::from(ErrorKind::InvalidData)
}

fn name(words: &mut SplitWhitespace) -> io::Result<Name> {
    let word = words.next().ok_or_else(wrong)?;
    name_from_text(word).map_err(|_| wrong())
}

fn number(words: &mut SplitWhitespace) -> io::Result<u64> {
    let word = words.next().ok_or_else(wrong)?;
    word.parse().map_err(|_| wrong())
}

fn zeros(alloc: Global, count: &str) -> io::Result<Bytes> {
    let count: u32 = count.parse().map_err(|_| wrong())?;
    let mut bytes = Bytes::new(alloc);
    for _ in 0..count {
        bytes.push(alloc, 0)?;
    }
    Ok(bytes)
}

fn bytes(alloc: Global, words: &mut SplitWhitespace) -> io::Result<Bytes> {
    let word = words.next().ok_or_else(wrong)?;
    if let Some(count) = word.strip_prefix("*") {
        return zeros(alloc, count);
    }
    if word == "-" {
        return Ok(Bytes::new(alloc));
    }
    let bytes = hex::decode(alloc, word).map_err(|_| wrong())?;
    Ok(Bytes::from_vec(bytes))
}

fn account(alloc: Global, words: &mut SplitWhitespace) -> io::Result<Change> {
    let (name, payer) = (name(words)?, name(words)?);
    let row = AccountRow {
        payer,
        privileged: words.next() == Some("privileged"),
        code: bytes(alloc, words)?,
        abi: Bytes::new(alloc),
    };
    Ok(Change::SetAccount { name, row })
}

fn authority(alloc: Global, words: &mut SplitWhitespace) -> io::Result<Authority> {
    let packed = bytes(alloc, words)?;
    read_whole(alloc, packed.as_slice()).map_err(|_| wrong())
}

fn permission(alloc: Global, words: &mut SplitWhitespace) -> io::Result<Change> {
    let (actor, permission, parent) = (name(words)?, name(words)?, name(words)?);
    let authority = authority(alloc, words)?;
    Ok(Change::SetPermission {
        level: Level { actor, permission },
        row: Some(PermissionRow { parent, authority }),
    })
}

fn quota(words: &mut SplitWhitespace) -> io::Result<Change> {
    let account = name(words)?;
    let word = words.next().ok_or_else(wrong)?;
    let quota = word.parse().map_err(|_| wrong())?;
    Ok(Change::SetQuota { account, quota })
}

fn table(words: &mut SplitWhitespace) -> io::Result<TableKey> {
    let (code, scope, table) = (name(words)?, name(words)?, name(words)?);
    Ok(TableKey { code, scope, table })
}

fn row(alloc: Global, words: &mut SplitWhitespace) -> io::Result<Change> {
    Ok(Change::StoreRow {
        table: table(words)?,
        primary: number(words)?,
        payer: name(words)?,
        bytes: bytes(alloc, words)?,
    })
}

fn path_of(word: &str) -> io::Result<Path> {
    match word {
        "get_account" => Ok(Path::GetAccount),
        "get_table_rows" => Ok(Path::GetTableRows),
        "get_table_by_scope" => Ok(Path::GetTableByScope),
        _ => Err(wrong()),
    }
}

/// What the line says.
pub fn read_line(alloc: Global, text: &str) -> io::Result<Line<'_>> {
    let (word, rest) = text.split_once(' ').ok_or_else(wrong)?;
    let mut words = rest.split_whitespace();
    match word {
        "account" => Ok(Line::Change(account(alloc, &mut words)?)),
        "permission" => Ok(Line::Change(permission(alloc, &mut words)?)),
        "quota" => Ok(Line::Change(quota(&mut words)?)),
        "row" => Ok(Line::Change(row(alloc, &mut words)?)),
        path => Ok(Line::Query(path_of(path)?, rest)),
    }
}
