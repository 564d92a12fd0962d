ghost use Rattle.std.specs.Prelude.{◌≡◌, IfOk, IsTrue};
ghost use Rattle.ante_http.specs.Replies.{is_reply_status};
ghost use Rattle.ante_api.specs.Rendered.{IsThere};
ghost use Rattle.ante_api.specs.Rendered as rendered;

use crate::reply::ApiReply;
use ante_http::{HeadKind, write_reply};
use ante_json::{ApiFault, error_text, view_text};
use ante_json_text::{Member, Scalar, put_object};
use ante_pack::{Bytes, Digest};
use ante_types::trace_text;
use std::alloc::{AllocError, Global};

/// The bytes of a reply, head and body.
pub fn render(alloc: Global, reply: &ApiReply, close: bool) -> Result<Bytes, AllocError>
    requires { IsThere reply.now }
    ensures { IfOk result (λ bytes. bytes ≡ rendered.rendered reply.now close) }
{
    let body = body_of(alloc, reply)?;
    write_reply(alloc, status_of(reply), body.as_slice(), close)
}

fn body_of(alloc: Global, reply: &ApiReply) -> Result<Bytes, AllocError>
    requires { IsThere reply.now }
    ensures { IfOk result (λ text. text ≡ rendered.reply_body reply.now) }
{
    match reply {
        ApiReply::View(answer) => view_text(alloc, answer),
        ApiReply::Trace(trace) => trace_text(alloc, trace),
        ApiReply::Pushed {
            block_id,
            kept,
            position,
        } => pushed_text(alloc, block_id, *kept, *position),
        ApiReply::Fault(fault) => error_text(alloc, fault),
    }
}

#[tactic(auto, unfolding(crate::specs::Rendered::pushed_json))]
fn pushed_text(
    alloc: Global,
    block_id: &Digest,
    kept: bool,
    position: u64,
) -> Result<Bytes, AllocError>
    ensures { IfOk result (λ text. text ≡ rendered.pushed_json block_id.now kept position) }
{
    let mut out = Bytes::new(alloc);
    put_object(
        alloc,
        &mut out,
        &[
            Member(b"block_id", Scalar::Hex(block_id)),
            Member(b"kept", Scalar::Bool(kept)),
            Member(b"position", Scalar::Number(position)),
        ],
    )?;
    Ok(out)
}

fn status_of(reply: &ApiReply) -> u16
    ensures status { result ≡ rendered.reply_status reply.now }
    ensures known { IsTrue (is_reply_status result) }
{
    match reply {
        ApiReply::Fault(fault) => fault_status(fault),
        _ => 200,
    }
}

fn fault_status(fault: &ApiFault) -> u16
    ensures status { result ≡ rendered.fault_status fault.now }
    ensures known { IsTrue (is_reply_status result) }
{
    match fault {
        ApiFault::OutOfMemory => 503,
        ApiFault::BadHead(kind) => head_status(*kind),
        ApiFault::BadBody(_) => 400,
        ApiFault::UnknownPath => 404,
        ApiFault::UnknownBlock => 404,
        ApiFault::UnknownAccount => 404,
        ApiFault::TooLarge { .. } => 413,
        ApiFault::Ahead { .. } => 409,
        ApiFault::NotProducing => 409,
        ApiFault::Push(_) => 409,
    }
}

fn head_status(kind: HeadKind) -> u16
    ensures status { result ≡ rendered.head_status kind }
    ensures known { IsTrue (is_reply_status result) }
{
    match kind {
        HeadKind::TooLarge { .. } => 413,
        _ => 400,
    }
}
