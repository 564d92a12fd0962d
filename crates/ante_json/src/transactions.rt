//! Transactions and blocks in bodies.
ghost use Rattle.std.specs.Prelude.{[], Some, codes, IsTrue};
ghost use Rattle.serde_json.specs.Find.{get};
ghost use Rattle.serde_json.specs.View.{view, items_view};
ghost use Rattle.ante_pack.specs.Forms.{whole};
ghost use Rattle.ante_types.specs.Chain as forms;
ghost use Rattle.ante_types.specs.Jobs.{job_of};
ghost use Rattle.ante_types.specs.Labels.{is_label};
ghost use Rattle.ante_json.specs.Kinds as kinds;
ghost use Rattle.ante_json.specs.Fields as fields;
ghost use Rattle.ante_json.specs.Fields.{Answers, AnswersBy};
ghost use Rattle.ante_json.specs.Bodies as bodies;

use crate::fault::{BodyError, BodyKind};
use crate::fields::{hex_field, id_field, number_field, packed_fault, wrong};
use crate::kinds::{is_empty_text, is_no_compression};
use ante_pack::{Bytes, ReadFault, Seq};
use ante_types::{Block, ReadJob, read_block};
use ante_views::Seen;
use serde_json::Value;
use std::alloc::Global;

/// The fields of a transaction: it with its packed form, and its signatures.
pub(crate) fn transaction_of(
    alloc: Global,
    body: &Value,
) -> Result<(ReadJob, Seq<Bytes>), BodyError>
    ensures { Answers result (bodies.transaction_of (view body.now)) }
{
    let packed = hex_field(alloc, body, "packed_trx")?;
    let job = job(alloc, packed)?;
    let signatures = signatures_of(alloc, body)?;
    uncompressed(body)?;
    without_context_free(body)?;
    Ok((job, signatures))
}

fn job(alloc: Global, packed: Bytes) -> Result<ReadJob, BodyError>
    ensures { Answers result (fields.unpacked (job_of packed)) }
{
    match ReadJob::new(alloc, packed) {
        Ok(job) => Ok(job),
        Err(ReadFault::OutOfMemory) => Err(BodyError::OutOfMemory),
        Err(ReadFault::Pack(fault)) => Err(packed_fault(fault)),
    }
}

/// The block that the field holds packed.
pub(crate) fn packed_block(alloc: Global, packed: &Bytes) -> Result<Block, BodyError>
    ensures { Answers result (fields.unpacked (whole forms.block packed.now)) }
{
    match read_block(alloc, packed.as_slice()) {
        Ok(block) => Ok(block),
        Err(ReadFault::OutOfMemory) => Err(BodyError::OutOfMemory),
        Err(ReadFault::Pack(fault)) => Err(packed_fault(fault)),
    }
}

fn signatures_of(alloc: Global, body: &Value) -> Result<Seq<Bytes>, BodyError>
    ensures { Answers result (fields.defaulted [] kinds.texts_of (codes "signatures") (view body.now)) }
{
    match body.get("signatures") {
        None => Ok(Seq::new(alloc)),
        Some(value) => texts_of(alloc, "signatures", value),
    }
}

/// The field's list of texts.
fn texts_of(alloc: Global, field: &str, value: &Value) -> Result<Seq<Bytes>, BodyError>
    requires { IsTrue (is_label field.now) }
    ensures { Answers result (fields.or_wrong field.now (kinds.texts_of (view value.now))) }
{
    match value.as_array() {
        None => wrong(alloc, field),
        Some(items) => texts_from(alloc, field, items.as_slice()),
    }
}

#[tactic(auto, using(crate::proofs::Texts::one_more, crate::proofs::Texts::none_of))]
fn texts_from(alloc: Global, field: &str, items: &[Value]) -> Result<Seq<Bytes>, BodyError>
    requires { IsTrue (is_label field.now) }
    ensures { Answers result (fields.or_wrong field.now (kinds.texts_from (items_view items.now))) }
{
    let mut texts = Seq::new(alloc);
    for item in items {
        let Some(text) = item.as_str() else {
            return wrong(alloc, field);
        };
        let text = Bytes::from_slice(alloc, text.as_bytes())?;
        texts.push(alloc, text)?;
    }
    Ok(texts)
}

fn uncompressed(body: &Value) -> Result<(), BodyError>
    ensures { Answers result (fields.uncompressed (get (codes "compression") (view body.now))) }
{
    match body.get("compression") {
        None => Ok(()),
        Some(value) => {
            if is_no_compression(value) {
                Ok(())
            } else {
                Err(BodyError::BadBody(BodyKind::Compressed))
            }
        }
    }
}

fn without_context_free(body: &Value) -> Result<(), BodyError>
    ensures { Answers result (fields.without_context_free (get (codes "packed_context_free_data") (view body.now))) }
{
    match body.get("packed_context_free_data") {
        None => Ok(()),
        Some(value) => {
            if is_empty_text(value) {
                Ok(())
            } else {
                Err(BodyError::BadBody(BodyKind::ContextFree))
            }
        }
    }
}

/// The value, where it is an object.
fn object_or_wrong<'v>(alloc: Global, field: &str, value: &'v Value) -> Result<&'v Value, BodyError>
    requires { IsTrue (is_label field.now) }
    ensures { AnswersBy (λ v. view v.now) result (bodies.object_or_wrong field.now (view value.now)) }
{
    if value.is_object() {
        Ok(value)
    } else {
        wrong(alloc, field)
    }
}

/// Where the fields of a read-only transaction stand.
pub(crate) fn transaction_fields(alloc: Global, body: &Value) -> Result<&Value, BodyError>
    ensures { AnswersBy (λ v. view v.now) result (bodies.transaction_fields (view body.now)) }
{
    match body.get("transaction") {
        None => Ok(body),
        Some(value) => object_or_wrong(alloc, "transaction", value),
    }
}

/// A head that the caller has seen.
pub(crate) fn seen_of(alloc: Global, body: &Value) -> Result<Option<Seen>, BodyError>
    ensures { Answers result (bodies.seen_of (view body.now)) }
{
    match body.get("seen") {
        None => Ok(None),
        Some(value) => seen_from(alloc, value),
    }
}

fn seen_from(alloc: Global, value: &Value) -> Result<Option<Seen>, BodyError>
    ensures { Answers result (bodies.seen_at (Some (view value.now))) }
{
    let fields = object_or_wrong(alloc, "seen", value)?;
    let position = number_field(alloc, fields, "position")?;
    let block_id = id_field(alloc, fields, "block_id")?;
    Ok(Some(Seen { position, block_id }))
}
