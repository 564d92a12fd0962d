//! The rows of accounts and permissions as lines write them: by their sizes.
use crate::words::{byte, name, number};
use ante_pack::{Authority, Bytes, KeyWeight, Level, LevelWeight, Seq, WaitWeight};
use ante_state::{AccountRow, PermissionRow};
use std::alloc::{AllocError, Global};
use std::io;
use std::str::SplitWhitespace;

/// So many times this byte.
pub fn repeated(alloc: Global, byte: u8, length: u64) -> Result<Bytes, AllocError> {
    let mut bytes = Bytes::new(alloc);
    for _ in 0..length {
        bytes.push(alloc, byte)?;
    }
    Ok(bytes)
}

fn keys(alloc: Global, count: u8) -> Result<Seq<KeyWeight>, AllocError> {
    let mut items = Seq::new(alloc);
    for number in 0..count {
        let mut key = [number; 34];
        key[0] = 0;
        items.push(alloc, KeyWeight { key, weight: 1 })?;
    }
    Ok(items)
}

fn accounts(alloc: Global, count: u8) -> Result<Seq<LevelWeight>, AllocError> {
    let mut items = Seq::new(alloc);
    for number in 0..count {
        let name = ante_pack::Name(number as u64);
        let level = Level {
            actor: name,
            permission: name,
        };
        items.push(alloc, LevelWeight { level, weight: 2 })?;
    }
    Ok(items)
}

fn waits(alloc: Global, count: u8) -> Result<Seq<WaitWeight>, AllocError> {
    let mut items = Seq::new(alloc);
    for number in 0..count {
        let seconds = number as u32;
        items.push(alloc, WaitWeight { seconds, weight: 3 })?;
    }
    Ok(items)
}

pub fn account(alloc: Global, words: &mut SplitWhitespace) -> io::Result<AccountRow> {
    let payer = name(words)?;
    let privileged = words.next() == Some("true");
    let code = repeated(alloc, 7, number(words)?)?;
    let abi = repeated(alloc, 8, number(words)?)?;
    Ok(AccountRow {
        payer,
        privileged,
        code,
        abi,
    })
}

pub fn permission(alloc: Global, words: &mut SplitWhitespace) -> io::Result<PermissionRow> {
    let parent = name(words)?;
    let keys = keys(alloc, byte(words)?)?;
    let accounts = accounts(alloc, byte(words)?)?;
    let waits = waits(alloc, byte(words)?)?;
    let authority = Authority {
        threshold: 1,
        keys,
        accounts,
        waits,
    };
    Ok(PermissionRow { parent, authority })
}
