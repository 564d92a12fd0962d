//! Changes as lines write them.
use crate::objects::{account, permission, repeated};
use crate::words::{byte, moment, name, number, short, signed, wrong};
use ante_pack::{Level, Name, TableKey};
use ante_store::Change;
use std::alloc::Global;
use std::io;
use std::str::SplitWhitespace;

/// One of four tables in their order: two of one contract and scope, one of another scope, and one of the greatest contract.
fn table(words: &mut SplitWhitespace) -> io::Result<TableKey> {
    let (code, scope, table) = match byte(words)? {
        0 => (1, 0, 0),
        1 => (1, 0, 1),
        2 => (1, 2, 0),
        _ => (u64::MAX, 7, 7),
    };
    Ok(TableKey {
        code: Name(code),
        scope: Name(scope),
        table: Name(table),
    })
}

fn level(words: &mut SplitWhitespace) -> io::Result<Level> {
    Ok(Level {
        actor: name(words)?,
        permission: name(words)?,
    })
}

// A row's bytes are so many times the least byte of its primary key.
fn row(alloc: Global, words: &mut SplitWhitespace, stores: bool) -> io::Result<Change> {
    let table = table(words)?;
    let primary = number(words)?;
    let payer = name(words)?;
    let bytes = repeated(alloc, (primary % 256) as u8, number(words)?)?;
    Ok(if stores {
        Change::StoreRow {
            table,
            primary,
            payer,
            bytes,
        }
    } else {
        Change::UpdateRow {
            table,
            primary,
            payer,
            bytes,
        }
    })
}

fn link(words: &mut SplitWhitespace, asks: bool) -> io::Result<Change> {
    let account = name(words)?;
    let code = name(words)?;
    let action = name(words)?;
    let requirement = if asks { Some(name(words)?) } else { None };
    Ok(Change::SetLink {
        account,
        code,
        action,
        requirement,
    })
}

fn recent(words: &mut SplitWhitespace, there: bool) -> io::Result<Change> {
    let expiration = moment(words)?;
    let id = [byte(words)?; 32];
    Ok(Change::SetRecent {
        expiration,
        id,
        there,
    })
}

/// The change of this kind.
pub fn change(alloc: Global, kind: &str, words: &mut SplitWhitespace) -> io::Result<Change> {
    match kind {
        "store" => row(alloc, words, true),
        "update" => row(alloc, words, false),
        "remove" => Ok(Change::RemoveRow {
            table: table(words)?,
            primary: number(words)?,
        }),
        "account" => Ok(Change::SetAccount {
            name: name(words)?,
            row: account(alloc, words)?,
        }),
        "permission" => Ok(Change::SetPermission {
            level: level(words)?,
            row: Some(permission(alloc, words)?),
        }),
        "no_permission" => Ok(Change::SetPermission {
            level: level(words)?,
            row: None,
        }),
        _ => plain_change(kind, words),
    }
}

fn plain_change(kind: &str, words: &mut SplitWhitespace) -> io::Result<Change> {
    match kind {
        "link" => link(words, true),
        "no_link" => link(words, false),
        "quota" => Ok(Change::SetQuota {
            account: name(words)?,
            quota: signed(words)?,
        }),
        "recent" => recent(words, true),
        "not_recent" => recent(words, false),
        "reference" => Ok(Change::SetReference {
            low: short(words)?,
            id: [byte(words)?; 32],
        }),
        _ => Err(wrong()),
    }
}
