//! Reading a line's words.
use ante_pack::{
    Authority, Bytes, Digest, Key, KeyWeight, Level, Name, Seq, TableKey, name_from_text,
};
use ante_state::{AccountRow, PermissionRow};
use ante_store::Change;
use ante_types::{Action, Extension, Transaction, trx_id};
use std::alloc::Global;
use std::io;
use std::io::ErrorKind;
use std::str::SplitWhitespace;

/// A transaction's block, the size of its packed form, and its signatures.
#[derive(Drop)]
pub struct Sending {
    pub slot: u32,
    pub size: usize,
    pub signatures: Seq<Bytes>,
}

#[derive(Drop)]
pub enum Line {
    State,
    Begin,
    Change(Change),
    Transaction(Transaction),
    Action(Action),
    Check(Sending),
    Read(usize),
    Memory,
}

pub fn wrong() -> io::Error {
    io::Error::from(ErrorKind::InvalidData)
}

/// So many zeros.
pub fn zeros(alloc: Global, size: usize) -> io::Result<Bytes> {
    Ok(Bytes::from_vec(vec![in alloc; 0u8; size]?))
}

fn word<'a>(words: &mut SplitWhitespace<'a>) -> io::Result<&'a str> {
    words.next().ok_or_else(wrong)
}

fn short(words: &mut SplitWhitespace) -> io::Result<u16> {
    word(words)?.parse().map_err(|_| wrong())
}

fn number(words: &mut SplitWhitespace) -> io::Result<u32> {
    word(words)?.parse().map_err(|_| wrong())
}

fn size(words: &mut SplitWhitespace) -> io::Result<usize> {
    word(words)?.parse().map_err(|_| wrong())
}

fn primary(words: &mut SplitWhitespace) -> io::Result<u64> {
    word(words)?.parse().map_err(|_| wrong())
}

fn key(words: &mut SplitWhitespace) -> io::Result<Key> {
    let mut key = [0; 34];
    key[33] = word(words)?.parse().map_err(|_| wrong())?;
    Ok(key)
}

fn name_of(text: &str) -> io::Result<Name> {
    match text {
        "-" => Ok(Name(0)),
        text => name_from_text(text).map_err(|_| wrong()),
    }
}

fn name(words: &mut SplitWhitespace) -> io::Result<Name> {
    name_of(word(words)?)
}

fn level_of(text: &str) -> io::Result<Level> {
    let (actor, permission) = text.split_once('@').ok_or_else(wrong)?;
    Ok(Level {
        actor: name_of(actor)?,
        permission: name_of(permission)?,
    })
}

fn levels(alloc: Global, words: &mut SplitWhitespace) -> io::Result<Seq<Level>> {
    let mut levels = Seq::new(alloc);
    while let Some(text) = words.next() {
        levels.push(alloc, level_of(text)?)?;
    }
    Ok(levels)
}

fn signature(alloc: Global, text: &str) -> io::Result<Bytes> {
    match text {
        "-" => Ok(Bytes::new(alloc)),
        text => Ok(Bytes::from_slice(alloc, text.as_bytes())?),
    }
}

fn signatures(alloc: Global, words: &mut SplitWhitespace) -> io::Result<Seq<Bytes>> {
    let mut signatures = Seq::new(alloc);
    while let Some(text) = words.next() {
        signatures.push(alloc, signature(alloc, text)?)?;
    }
    Ok(signatures)
}

fn account(alloc: Global, words: &mut SplitWhitespace) -> io::Result<Change> {
    let name = name(words)?;
    let row = AccountRow {
        payer: name,
        privileged: false,
        code: Bytes::new(alloc),
        abi: Bytes::new(alloc),
    };
    Ok(Change::SetAccount { name, row })
}

fn permission(alloc: Global, words: &mut SplitWhitespace) -> io::Result<Change> {
    let level = Level {
        actor: name(words)?,
        permission: name(words)?,
    };
    let parent = name(words)?;
    let mut keys = Seq::new(alloc);
    let key = key(words)?;
    keys.push(alloc, KeyWeight { key, weight: 1 })?;
    let authority = Authority {
        threshold: 1,
        keys,
        accounts: Seq::new(alloc),
        waits: Seq::new(alloc),
    };
    let row = Some(PermissionRow { parent, authority });
    Ok(Change::SetPermission { level, row })
}

// The prefix stands at bytes 8 to 11, the lowest first, between others.
fn id_with(prefix: u32) -> Digest {
    let mut id = [255; 32];
    let [a, b, c, d] = prefix.to_le_bytes();
    id[8] = a;
    id[9] = b;
    id[10] = c;
    id[11] = d;
    id
}

fn reference(words: &mut SplitWhitespace) -> io::Result<Change> {
    let low = short(words)?;
    let id = id_with(number(words)?);
    Ok(Change::SetReference { low, id })
}

fn recent(alloc: Global, words: &mut SplitWhitespace) -> io::Result<Change> {
    let expiration = number(words)?;
    let packed = zeros(alloc, size(words)?)?;
    Ok(Change::SetRecent {
        expiration,
        id: trx_id(packed.as_slice()),
        there: true,
    })
}

fn quota(words: &mut SplitWhitespace) -> io::Result<Change> {
    Ok(Change::SetQuota {
        account: name(words)?,
        quota: word(words)?.parse().map_err(|_| wrong())?,
    })
}

const TABLE: TableKey = TableKey {
    code: Name(1),
    scope: Name(2),
    table: Name(3),
};

fn row(alloc: Global, words: &mut SplitWhitespace) -> io::Result<Change> {
    Ok(Change::StoreRow {
        table: TABLE,
        primary: primary(words)?,
        payer: name(words)?,
        bytes: zeros(alloc, size(words)?)?,
    })
}

fn update(alloc: Global, words: &mut SplitWhitespace) -> io::Result<Change> {
    Ok(Change::UpdateRow {
        table: TABLE,
        primary: primary(words)?,
        payer: name(words)?,
        bytes: zeros(alloc, size(words)?)?,
    })
}

fn remove(words: &mut SplitWhitespace) -> io::Result<Change> {
    Ok(Change::RemoveRow {
        table: TABLE,
        primary: primary(words)?,
    })
}

fn empty_action(alloc: Global) -> Action {
    Action {
        account: Name(0),
        name: Name(0),
        authorization: Seq::new(alloc),
        bytes: Bytes::new(alloc),
    }
}

fn empty_actions(alloc: Global, count: u32) -> io::Result<Seq<Action>> {
    let mut actions = Seq::new(alloc);
    for _ in 0..count {
        actions.push(alloc, empty_action(alloc))?;
    }
    Ok(actions)
}

fn empty_extensions(alloc: Global, count: u32) -> io::Result<Seq<Extension>> {
    let mut extensions = Seq::new(alloc);
    for _ in 0..count {
        let extension = Extension {
            kind: 0,
            bytes: Bytes::new(alloc),
        };
        extensions.push(alloc, extension)?;
    }
    Ok(extensions)
}

/// A transaction without actions.
pub fn empty_transaction(alloc: Global) -> Transaction {
    Transaction {
        expiration: 0,
        ref_block_num: 0,
        ref_block_prefix: 0,
        max_net_usage_words: 0,
        max_cpu_usage_ms: 0,
        delay_sec: 0,
        context_free_actions: Seq::new(alloc),
        actions: Seq::new(alloc),
        extensions: Seq::new(alloc),
    }
}

fn read_transaction(alloc: Global, words: &mut SplitWhitespace) -> io::Result<Transaction> {
    let (expiration, ref_block_num) = (number(words)?, short(words)?);
    let (ref_block_prefix, delay_sec) = (number(words)?, number(words)?);
    let context_free_actions = empty_actions(alloc, number(words)?)?;
    let extensions = empty_extensions(alloc, number(words)?)?;
    Ok(Transaction {
        expiration,
        ref_block_num,
        ref_block_prefix,
        max_net_usage_words: 0,
        max_cpu_usage_ms: 0,
        delay_sec,
        context_free_actions,
        actions: Seq::new(alloc),
        extensions,
    })
}

fn read_action(alloc: Global, words: &mut SplitWhitespace) -> io::Result<Action> {
    let mut action = empty_action(alloc);
    action.account = name(words)?;
    action.name = name(words)?;
    action.authorization = levels(alloc, words)?;
    Ok(action)
}

fn read_sending(alloc: Global, words: &mut SplitWhitespace) -> io::Result<Sending> {
    Ok(Sending {
        slot: number(words)?,
        size: size(words)?,
        signatures: signatures(alloc, words)?,
    })
}

fn read_change(alloc: Global, kind: &str, words: &mut SplitWhitespace) -> io::Result<Change> {
    match kind {
        "account" => account(alloc, words),
        "permission" => permission(alloc, words),
        "reference" => reference(words),
        "recent" => recent(alloc, words),
        "quota" => quota(words),
        "row" => row(alloc, words),
        "update" => update(alloc, words),
        "remove" => remove(words),
        _ => Err(wrong()),
    }
}

/// What the line says.
pub fn read_line(alloc: Global, text: &str) -> io::Result<Line> {
    let mut words = text.split_whitespace();
    match word(&mut words)? {
        "state" => Ok(Line::State),
        "begin" => Ok(Line::Begin),
        "transaction" => Ok(Line::Transaction(read_transaction(alloc, &mut words)?)),
        "action" => Ok(Line::Action(read_action(alloc, &mut words)?)),
        "check" => Ok(Line::Check(read_sending(alloc, &mut words)?)),
        "read" => Ok(Line::Read(size(&mut words)?)),
        "memory" => Ok(Line::Memory),
        kind => Ok(Line::Change(read_change(alloc, kind, &mut words)?)),
    }
}
