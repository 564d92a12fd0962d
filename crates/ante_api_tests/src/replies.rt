//! A reply of each kind, byte by byte.
use ante_api::{ApiFault, ApiReply, Refused, head_fault, render};
use ante_http::HeadKind;
use ante_pack::{Bytes, Digest, Name, Seq};
use ante_types::{EOSIO, Head};
use ante_views::{PermissionView, ScopeView, ViewAnswer};
use hex::FromHex;
use std::alloc::{AllocError, Global};
use std::io;

fn digest(text: &str) -> Digest {
    match <[u8; 32] as FromHex>::from_hex(text) {
        Ok(digest) => digest,
        Err(_) => [0; 32],
    }
}

fn head() -> Head {
    Head {
        num: 1,
        id: digest("00000001a02ff9999db508509f7eaf28d07ca33d8ecce87712bb5d8043b4c5c9"),
    }
}

fn info() -> ApiReply {
    ApiReply::View(ViewAnswer::Info {
        chain_id: digest("38d79991418211b4cd6c80cc8f743ddc20562a2ebf0ea0c61b7cd8394ee49dfe"),
        head: head(),
        head_slot: 0,
        irreversible: 1,
        position: 0,
    })
}

fn block(alloc: Global) -> Result<ApiReply, AllocError> {
    let head = head();
    let id = head.id;
    Ok(ApiReply::View(ViewAnswer::Block {
        num: head.num,
        id,
        packed: Bytes::from_slice(alloc, b"\x00\xff\n")?,
    }))
}

/// A permission whose packed authority is this byte.
fn permission(
    alloc: Global,
    perm_name: Name,
    parent: Name,
    byte: u8,
) -> Result<PermissionView, AllocError> {
    Ok(PermissionView {
        perm_name,
        parent,
        packed_auth: Bytes::from_slice(alloc, &[byte])?,
    })
}

const OWNER: Name = Name(12044502819693133824);

const ACTIVE: Name = Name(3617214756542218240);

fn account(alloc: Global, count: usize) -> Result<ApiReply, AllocError> {
    let mut permissions = Seq::new(alloc);
    if 1 < count {
        permissions.push(alloc, permission(alloc, ACTIVE, OWNER, 1)?)?;
    }
    if 0 < count {
        permissions.push(alloc, permission(alloc, OWNER, Name(0), 2)?)?;
    }
    Ok(ApiReply::View(ViewAnswer::Account {
        name: EOSIO,
        code_hash: digest("e3b0c44298fc1c149afbf4c8996fb92427ae41e4649b934ca495991b7852b855"),
        permissions,
        privileged: true,
        ram_quota: -1,
        ram_usage: 3446,
    }))
}

fn rows(alloc: Global, count: usize, next_key: Option<u64>) -> Result<ApiReply, AllocError> {
    let mut rows = Seq::new(alloc);
    for _ in 0..count {
        rows.push(alloc, Bytes::from_slice(alloc, b"\x01\xab")?)?;
    }
    Ok(ApiReply::View(ViewAnswer::Rows {
        more: next_key.is_some(),
        next_key,
        rows,
    }))
}

fn scopes(alloc: Global, count: usize) -> Result<ApiReply, AllocError> {
    let mut rows = Seq::new(alloc);
    for _ in 0..count {
        let row = ScopeView {
            code: EOSIO,
            scope: Name(0),
            table: ACTIVE,
            payer: OWNER,
            count: u32::MAX,
        };
        rows.push(alloc, row)?;
    }
    Ok(ApiReply::View(ViewAnswer::Scopes { more: false, rows }))
}

fn pushed(kept: bool, position: u64) -> ApiReply {
    let block_id = head().id;
    ApiReply::Pushed {
        block_id,
        kept,
        position,
    }
}

fn show(rt: &impl Print, alloc: Global, reply: &ApiReply, close: bool) -> io::Result<()> {
    let bytes = match reply {
        ApiReply::View(ViewAnswer::Missing) => return Ok(()),
        _ => render(alloc, reply, close)?,
    };
    match str::from_utf8(bytes.as_slice()) {
        Ok(text) => println!(rt; "{text}"),
        Err(_) => println!(rt; "not UTF-8"),
    }
}

fn show_faults(rt: &impl Print, alloc: Global) -> io::Result<()> {
    for kind in [
        HeadKind::HeadLong,
        HeadKind::Head,
        HeadKind::Method,
        HeadKind::Encoding,
        HeadKind::Length,
        HeadKind::TooLarge { length: 4194305 },
    ] {
        show(rt, alloc, &ApiReply::Fault(head_fault(kind)), true)?;
    }
    for why in [
        Refused::Known,
        Refused::Unlinkable,
        Refused::BadRoot,
        Refused::BadSlot,
        Refused::BadProducer,
        Refused::BadSeal,
        Refused::Invalid { code: 6 },
    ] {
        show(rt, alloc, &ApiReply::Fault(ApiFault::Push(why)), false)?;
    }
    show(rt, alloc, &ApiReply::Fault(ApiFault::UnknownBlock), false)?;
    show(rt, alloc, &ApiReply::Fault(ApiFault::UnknownAccount), false)?;
    show(
        rt,
        alloc,
        &ApiReply::Fault(ApiFault::Ahead { seen: 1, last: 0 }),
        false,
    )?;
    show(rt, alloc, &ApiReply::Fault(ApiFault::NotProducing), true)?;
    show(rt, alloc, &ApiReply::Fault(ApiFault::OutOfMemory), false)
}

pub fn show_replies(rt: &impl Print, alloc: Global) -> io::Result<()> {
    show(rt, alloc, &info(), false)?;
    show(rt, alloc, &info(), true)?;
    show(rt, alloc, &block(alloc)?, false)?;
    for count in 0..3 {
        show(rt, alloc, &account(alloc, count)?, false)?;
        show(rt, alloc, &scopes(alloc, count)?, false)?;
    }
    show(rt, alloc, &rows(alloc, 0, None)?, false)?;
    show(rt, alloc, &rows(alloc, 0, Some(0))?, false)?;
    show(rt, alloc, &rows(alloc, 1, None)?, false)?;
    show(rt, alloc, &rows(alloc, 3, Some(u64::MAX))?, true)?;
    show(rt, alloc, &pushed(false, 3), false)?;
    show(rt, alloc, &pushed(true, 0), true)?;
    show_faults(rt, alloc)
}
