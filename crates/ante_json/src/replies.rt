//! The bodies of replies. Each private function appends a piece; after a refusal a front of it may stand there.
ghost use Rattle.std.specs.Prelude.{◌≡◌, ◌∷◌, [], ◌++◌, map, OnOk, IfOk};
ghost use Rattle.std.specs.List.{flat_map};
ghost use Rattle.serde_json.specs.Data.{string};
ghost use Rattle.serde_json.specs.Written.{compact_text};
ghost use Rattle.ante_pack.specs.Adds.{Adds};
ghost use Rattle.ante_json_text.specs.Values.{hex_value, list_value, number_value};
ghost use Rattle.ante_views.specs.declared.answers.ViewAnswer.TheVariants as answers;
ghost use Rattle.ante_json.specs.Replies as replies;

use crate::fault::{ApiFault, BodyKind, Refused};
use ante_http::HeadKind;
use ante_json_text::{
    Member, Scalar, ToJson, begin_object, end_object, put_array, put_key, put_member, put_object,
};
use ante_pack::{Bytes, Digest, Name, Seq};
use ante_types::Head;
use ante_views::{PermissionView, ScopeView, ViewAnswer};
use itoa::Buffer;
use std::alloc::{AllocError, Global};

/// An answer as compact JSON with its keys in ascending order.
#[tactic(auto, unfolding(crate::specs::Replies::view_json))]
pub fn view_text(alloc: Global, answer: &ViewAnswer) -> Result<Bytes, AllocError>
    requires { replies.IsThere answer.now }
    ensures { IfOk result (λ text. text ≡ replies.view_json answer.now) }
{
    let mut out = Bytes::new(alloc);
    put_view(alloc, &mut out, answer)?;
    Ok(out)
}

/// A fault as compact JSON: its arguments and its name.
#[tactic(auto, unfolding(crate::specs::Replies::fault_json))]
pub fn error_text(alloc: Global, fault: &ApiFault) -> Result<Bytes, AllocError>
    ensures { IfOk result (λ text. text ≡ replies.fault_json fault.now) }
{
    let mut out = Bytes::new(alloc);
    put_fault(alloc, &mut out, fault)?;
    Ok(out)
}

#[tactic(auto, unfolding(crate::specs::Replies::view_value))]
fn put_view(alloc: Global, out: &mut Bytes, answer: &ViewAnswer) -> Result<(), AllocError>
    ensures { OnOk result (Adds out.old out.new (compact_text (replies.view_value answer.now))) }
{
    match answer {
        ViewAnswer::Info {
            chain_id,
            head,
            head_slot,
            irreversible,
            position,
        } => put_info(
            alloc,
            out,
            chain_id,
            head,
            *head_slot,
            *irreversible,
            *position,
        ),
        ViewAnswer::Block { num, id, packed } => put_block(alloc, out, *num, id, packed),
        ViewAnswer::Account {
            name,
            code_hash,
            permissions,
            privileged,
            ram_quota,
            ram_usage,
        } => put_account(
            alloc,
            out,
            *name,
            code_hash,
            permissions,
            *privileged,
            *ram_quota,
            *ram_usage,
        ),
        ViewAnswer::Rows {
            more,
            next_key,
            rows,
        } => put_rows(alloc, out, *more, *next_key, rows),
        ViewAnswer::Scopes { more, rows } => put_scopes(alloc, out, *more, rows),
        ViewAnswer::Missing => Scalar::Null.put_json(alloc, out),
    }
}

#[tactic(auto, unfolding(crate::specs::Replies::info_value))]
fn put_info<'x>(
    alloc: Global,
    out: &mut Bytes,
    chain_id: &'x Digest,
    head: &'x Head,
    head_slot: u32,
    irreversible: u32,
    position: u64,
) -> Result<(), AllocError>
    ensures { OnOk result (Adds out.old out.new (compact_text (replies.info_value chain_id.now head.now head_slot irreversible position))) }
{
    put_object(
        alloc,
        out,
        &[
            Member(b"chain_id", Scalar::Hex(chain_id)),
            Member(b"head_block_id", Scalar::Hex(&head.id)),
            Member(b"head_block_num", Scalar::Number(u64::from(head.num))),
            Member(b"head_slot", Scalar::Number(u64::from(head_slot))),
            Member(
                b"last_irreversible_block_num",
                Scalar::Number(u64::from(irreversible)),
            ),
            Member(b"position", Scalar::Number(position)),
        ],
    )
}

#[tactic(auto, unfolding(crate::specs::Replies::block_value))]
fn put_block<'x>(
    alloc: Global,
    out: &mut Bytes,
    num: u32,
    id: &'x Digest,
    packed: &'x Bytes,
) -> Result<(), AllocError>
    ensures { OnOk result (Adds out.old out.new (compact_text (replies.block_value num id.now packed.now))) }
{
    put_object(
        alloc,
        out,
        &[
            Member(b"block_num", Scalar::Number(u64::from(num))),
            Member(b"id", Scalar::Hex(id)),
            Member(b"packed", Scalar::Bytes(packed)),
        ],
    )
}

fn put_account(
    alloc: Global,
    out: &mut Bytes,
    name: Name,
    code_hash: &Digest,
    permissions: &Seq<PermissionView>,
    privileged: bool,
    ram_quota: i64,
    ram_usage: u64,
) -> Result<(), AllocError>
    ensures { OnOk result (Adds out.old out.new (compact_text (replies.account_value name code_hash.now permissions.now privileged ram_quota ram_usage))) }
{
    begin_object(alloc, out)?;
    put_member(
        alloc,
        out,
        false,
        &Member(b"account_name", Scalar::Name(name)),
    )?;
    put_member(
        alloc,
        out,
        true,
        &Member(b"code_hash", Scalar::Hex(code_hash)),
    )?;
    put_key(alloc, out, true, b"permissions")?;
    put_array(alloc, out, permissions.as_slice())?;
    put_member(
        alloc,
        out,
        true,
        &Member(b"privileged", Scalar::Bool(privileged)),
    )?;
    put_member(
        alloc,
        out,
        true,
        &Member(b"ram_quota", Scalar::Signed(ram_quota)),
    )?;
    put_member(
        alloc,
        out,
        true,
        &Member(b"ram_usage", Scalar::Number(ram_usage)),
    )?;
    end_object(alloc, out)?;
    Ok(())
}

fn put_rows(
    alloc: Global,
    out: &mut Bytes,
    more: bool,
    next_key: Option<u64>,
    rows: &Seq<Bytes>,
) -> Result<(), AllocError>
    ensures { OnOk result (Adds out.old out.new (compact_text (replies.view_value (answers.Rows more next_key rows.now)))) }
{
    begin_object(alloc, out)?;
    put_member(alloc, out, false, &Member(b"more", Scalar::Bool(more)))?;
    put_key(alloc, out, true, b"next_key")?;
    put_next_key(alloc, out, next_key)?;
    put_key(alloc, out, true, b"rows")?;
    put_hex_list(alloc, out, rows.as_slice())?;
    end_object(alloc, out)?;
    Ok(())
}

fn put_scopes(
    alloc: Global,
    out: &mut Bytes,
    more: bool,
    rows: &Seq<ScopeView>,
) -> Result<(), AllocError>
    ensures { OnOk result (Adds out.old out.new (compact_text (replies.view_value (answers.Scopes more rows.now)))) }
{
    begin_object(alloc, out)?;
    put_member(alloc, out, false, &Member(b"more", Scalar::Bool(more)))?;
    put_key(alloc, out, true, b"rows")?;
    put_array(alloc, out, rows.as_slice())?;
    end_object(alloc, out)?;
    Ok(())
}

fn put_next_key(alloc: Global, out: &mut Bytes, key: Option<u64>) -> Result<(), AllocError>
    ensures { OnOk result (Adds out.old out.new (compact_text (string (replies.key_text key)))) }
{
    match key {
        None => put_text(alloc, out, b""),
        Some(key) => {
            let mut buffer = Buffer::new();
            put_text(alloc, out, buffer.format(key).as_bytes())
        }
    }
}

fn put_text(alloc: Global, out: &mut Bytes, text: &[u8]) -> Result<(), AllocError>
    ensures { OnOk result (Adds out.old out.new (compact_text (string text.now))) }
{
    Scalar::Text(text).put_json(alloc, out)
}

/// Appends a list of byte strings in hex.
fn put_hex_list(alloc: Global, out: &mut Bytes, rows: &[Bytes]) -> Result<(), AllocError>
    ensures { OnOk result (Adds out.old out.new (compact_text (list_value (map hex_value rows.now)))) }
{
    match rows.split_first() {
        None => put_raw(alloc, out, b"[]"),
        Some((first, later)) => put_hex_items(alloc, out, first, later),
    }
}

fn put_hex_items(
    alloc: Global,
    out: &mut Bytes,
    first: &Bytes,
    later: &[Bytes],
) -> Result<(), AllocError>
    ensures { OnOk result (Adds out.old out.new (compact_text (list_value (map hex_value (first.now ∷ later.now))))) }
{
    put_raw(alloc, out, b"[")?;
    put_hex(alloc, out, first)?;
    put_later_hex(alloc, out, later)?;
    put_raw(alloc, out, b"]")?;
    Ok(())
}

fn put_later_hex(alloc: Global, out: &mut Bytes, rows: &[Bytes]) -> Result<(), AllocError>
    ensures { OnOk result (Adds out.old out.new (flat_map (λ x. 44 ∷ compact_text (hex_value x)) rows.now)) }
{
    for row in rows {
        put_raw(alloc, out, b",")?;
        put_hex(alloc, out, row)?;
    }
    Ok(())
}

fn put_hex(alloc: Global, out: &mut Bytes, bytes: &Bytes) -> Result<(), AllocError>
    ensures { OnOk result (Adds out.old out.new (compact_text (hex_value bytes.now))) }
{
    Scalar::Bytes(bytes).put_json(alloc, out)
}

fn put_raw(alloc: Global, out: &mut Bytes, text: &[u8]) -> Result<(), AllocError>
    ensures { OnOk result (Adds out.old out.new text.now) }
{
    out.append(alloc, text)
}

fn put_fault(alloc: Global, out: &mut Bytes, fault: &ApiFault) -> Result<(), AllocError>
    ensures { OnOk result (Adds out.old out.new (compact_text (replies.fault_value fault.now))) }
{
    begin_object(alloc, out)?;
    put_key(alloc, out, false, b"args")?;
    put_arguments(alloc, out, fault)?;
    put_member(
        alloc,
        out,
        true,
        &Member(b"error", Scalar::Text(fault_name(fault))),
    )?;
    end_object(alloc, out)?;
    Ok(())
}

fn put_arguments(alloc: Global, out: &mut Bytes, fault: &ApiFault) -> Result<(), AllocError>
    ensures { OnOk result (Adds out.old out.new (compact_text (list_value (replies.fault_args fault.now)))) }
{
    match fault {
        ApiFault::BadHead(kind) => put_head(alloc, out, *kind),
        ApiFault::BadBody(kind) => put_body(alloc, out, kind),
        ApiFault::TooLarge { length } => put_number(alloc, out, *length),
        ApiFault::Ahead { seen, last } => {
            put_array(alloc, out, &[Scalar::Number(*seen), Scalar::Number(*last)])
        }
        ApiFault::Push(why) => put_refused(alloc, out, *why),
        _ => put_none(alloc, out),
    }
}

fn put_head(alloc: Global, out: &mut Bytes, kind: HeadKind) -> Result<(), AllocError>
    ensures { OnOk result (Adds out.old out.new (compact_text (list_value (replies.head_args kind)))) }
{
    match kind {
        HeadKind::HeadLong => put_word(alloc, out, b"headlong"),
        HeadKind::Head => put_word(alloc, out, b"head"),
        HeadKind::Method => put_word(alloc, out, b"method"),
        HeadKind::Encoding => put_word(alloc, out, b"encoding"),
        HeadKind::Length => put_word(alloc, out, b"length"),
        HeadKind::TooLarge { length } => put_number(alloc, out, length),
    }
}

fn put_body(alloc: Global, out: &mut Bytes, kind: &BodyKind) -> Result<(), AllocError>
    ensures { OnOk result (Adds out.old out.new (compact_text (list_value (replies.body_args kind.now)))) }
{
    put_detailed(alloc, out, body_word(kind), kind)
}

/// Appends a list of the word and the kind's field or place.
fn put_detailed<'x>(
    alloc: Global,
    out: &mut Bytes,
    word: &'x [u8],
    kind: &'x BodyKind,
) -> Result<(), AllocError>
    ensures { OnOk result (Adds out.old out.new (compact_text (list_value (string word.now ∷ replies.body_detail kind.now)))) }
{
    match kind {
        BodyKind::Missing { field } => put_words(alloc, out, word, field.as_slice()),
        BodyKind::Wrong { field } => put_words(alloc, out, word, field.as_slice()),
        BodyKind::NotHex { field } => put_words(alloc, out, word, field.as_slice()),
        BodyKind::Packed { at } => {
            put_array(alloc, out, &[Scalar::Text(word), Scalar::Number(*at)])
        }
        _ => put_word(alloc, out, word),
    }
}

fn body_word(kind: &BodyKind) -> &'static [u8]
    ensures { result.now ≡ replies.body_word kind.now }
{
    match kind {
        BodyKind::NotJson => b"notjson",
        BodyKind::Missing { .. } => b"missing",
        BodyKind::Wrong { .. } => b"wrong",
        BodyKind::NotHex { .. } => b"nothex",
        BodyKind::Compressed => b"compressed",
        BodyKind::ContextFree => b"contextfree",
        BodyKind::Packed { .. } => b"packed",
    }
}

fn put_refused(alloc: Global, out: &mut Bytes, why: Refused) -> Result<(), AllocError>
    ensures { OnOk result (Adds out.old out.new (compact_text (list_value (string (replies.refused_name why) ∷ [])))) }
{
    let mut name = Bytes::from_slice(alloc, refused_word(why))?;
    append_code(alloc, &mut name, why)?;
    put_word(alloc, out, name.as_slice())
}

fn refused_word(why: Refused) -> &'static [u8]
    ensures { result.now ≡ replies.refused_word why }
{
    match why {
        Refused::Known => b"known",
        Refused::Unlinkable => b"unlinkable",
        Refused::BadRoot => b"bad_root",
        Refused::BadSlot => b"bad_slot",
        Refused::BadProducer => b"bad_producer",
        Refused::BadSeal => b"bad_seal",
        Refused::Invalid { .. } => b"invalid:",
    }
}

fn append_code(alloc: Global, name: &mut Bytes, why: Refused) -> Result<(), AllocError>
    ensures { OnOk result (name.new ≡ name.old ++ replies.refused_code why) }
{
    match why {
        Refused::Invalid { code } => {
            let mut buffer = Buffer::new();
            name.append(alloc, buffer.format(code).as_bytes())
        }
        _ => name.append(alloc, b""),
    }
}

fn put_none(alloc: Global, out: &mut Bytes) -> Result<(), AllocError>
    ensures { OnOk result (Adds out.old out.new (compact_text (list_value []))) }
{
    let none: [Scalar<'_>; 0] = [];
    put_array(alloc, out, &none)
}

fn put_number(alloc: Global, out: &mut Bytes, number: u64) -> Result<(), AllocError>
    ensures { OnOk result (Adds out.old out.new (compact_text (list_value (number_value number ∷ [])))) }
{
    put_array(alloc, out, &[Scalar::Number(number)])
}

fn put_word(alloc: Global, out: &mut Bytes, word: &[u8]) -> Result<(), AllocError>
    ensures { OnOk result (Adds out.old out.new (compact_text (list_value (string word.now ∷ [])))) }
{
    put_array(alloc, out, &[Scalar::Text(word)])
}

fn put_words<'x>(
    alloc: Global,
    out: &mut Bytes,
    first: &'x [u8],
    second: &'x [u8],
) -> Result<(), AllocError>
    ensures { OnOk result (Adds out.old out.new (compact_text (list_value (string first.now ∷ string second.now ∷ [])))) }
{
    put_array(alloc, out, &[Scalar::Text(first), Scalar::Text(second)])
}

fn fault_name(fault: &ApiFault) -> &'static [u8]
    ensures { result.now ≡ replies.fault_name fault.now }
{
    match fault {
        ApiFault::OutOfMemory => b"out_of_memory",
        ApiFault::BadHead(kind) => head_name(*kind),
        ApiFault::BadBody(_) => b"bad_body",
        ApiFault::UnknownPath => b"unknown_path",
        ApiFault::UnknownBlock => b"unknown_block",
        ApiFault::UnknownAccount => b"unknown_account",
        ApiFault::TooLarge { .. } => b"too_large",
        ApiFault::Ahead { .. } => b"ahead",
        ApiFault::NotProducing => b"not_producing",
        ApiFault::Push(_) => b"push",
    }
}

fn head_name(kind: HeadKind) -> &'static [u8]
    ensures { result.now ≡ replies.head_name kind }
{
    match kind {
        HeadKind::TooLarge { .. } => b"too_large",
        _ => b"bad_head",
    }
}
