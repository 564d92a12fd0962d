ghost use Rattle.std.specs.Prelude.{◌≡◌, [], ◌∷◌, OnOk, IfOk};
ghost use Rattle.serde_json.specs.Data.{string};
ghost use Rattle.serde_json.specs.Written.{compact_text};
ghost use Rattle.ante_pack.specs.Adds.{Adds};
ghost use Rattle.ante_json_text.specs.Values.{list_value, name_value, number_value};
ghost use Rattle.ante_types.specs.Failures.{failure_args};
ghost use Rattle.ante_types.specs.Traces.{outcome_value, trace_json};

use crate::failure::Failure;
use crate::failure_words::{failure_code, failure_name};
use crate::label::Label;
use crate::trace::{ActionTrace, Trace};
use ante_json_text::{
    Member, Scalar, ToJson, begin_object, end_object, put_array, put_key, put_member, put_object,
};
use ante_pack::{Bytes, Name};
use std::alloc::{AllocError, Global};

impl ToJson for ActionTrace {
    ghost use Rattle.ante_types.specs.Traces.{action_value};

    ghost value = { action_value };

    #[tactic(auto, unfolding(crate::specs::Traces::action_value))]
    fn put_json(&self, alloc: Global, out: &mut Bytes) -> Result<(), AllocError> {
        put_object(
            alloc,
            out,
            &[
                Member(b"account", Scalar::Name(self.account)),
                Member(b"bytes", Scalar::Bytes(&self.bytes)),
                Member(b"console", Scalar::Bytes(&self.console)),
                Member(b"creator", Scalar::Number(u64::from(self.creator))),
                Member(b"name", Scalar::Name(self.name)),
                Member(b"ordinal", Scalar::Number(u64::from(self.ordinal))),
                Member(b"receiver", Scalar::Name(self.receiver)),
                Member(b"return_value", Scalar::Bytes(&self.return_value)),
                Member(b"steps", Scalar::Number(self.steps)),
            ],
        )
    }
}

impl ToJson for Failure {
    ghost use Rattle.ante_types.specs.Traces.{failure_value};

    ghost value = { failure_value };

    fn put_json(&self, alloc: Global, out: &mut Bytes) -> Result<(), AllocError> {
        let code = Scalar::Number(u64::from(failure_code(self)));
        let name = Scalar::Text(failure_name(self));
        begin_object(alloc, out)?;
        put_key(alloc, out, false, b"args")?;
        put_arguments(alloc, out, self)?;
        put_member(alloc, out, true, &Member(b"code", code))?;
        put_member(alloc, out, true, &Member(b"name", name))?;
        end_object(alloc, out)?;
        Ok(())
    }
}

impl ToJson for Trace {
    ghost use Rattle.ante_types.specs.Traces.{trace_value};

    ghost value = { trace_value };

    fn put_json(&self, alloc: Global, out: &mut Bytes) -> Result<(), AllocError> {
        let num = Scalar::Number(u64::from(self.head.num));
        begin_object(alloc, out)?;
        put_key(alloc, out, false, b"actions")?;
        put_array(alloc, out, self.actions.as_slice())?;
        put_member(
            alloc,
            out,
            true,
            &Member(b"block_id", Scalar::Hex(&self.head.id)),
        )?;
        put_member(alloc, out, true, &Member(b"block_num", num))?;
        put_key(alloc, out, true, b"failure")?;
        put_outcome(alloc, out, &self.failure)?;
        put_member(alloc, out, true, &Member(b"id", Scalar::Hex(&self.id)))?;
        put_member(
            alloc,
            out,
            true,
            &Member(b"position", Scalar::Number(self.position)),
        )?;
        put_member(
            alloc,
            out,
            true,
            &Member(b"steps", Scalar::Number(self.steps)),
        )?;
        end_object(alloc, out)?;
        Ok(())
    }
}

fn put_outcome(alloc: Global, out: &mut Bytes, failure: &Option<Failure>) -> Result<(), AllocError>
    ensures { OnOk result (Adds out.old out.new (compact_text (outcome_value failure.now))) }
{
    match failure {
        None => Scalar::Null.put_json(alloc, out),
        Some(failure) => failure.put_json(alloc, out),
    }
}

/// Appends the list of a failure's fields.
fn put_arguments(alloc: Global, out: &mut Bytes, failure: &Failure) -> Result<(), AllocError>
    ensures { OnOk result (Adds out.old out.new (compact_text (list_value (failure_args failure.now)))) }
{
    match failure {
        Failure::HasAuthorization { action } => put_number(alloc, out, u64::from(*action)),
        Failure::UnknownAccount { name } => put_array(alloc, out, &[Scalar::Name(*name)]),
        Failure::Unsupported { field } => put_label(alloc, out, field),
        Failure::WriteRefused { intrinsic } => put_label(alloc, out, intrinsic),
        Failure::Assert { message } => put_array(alloc, out, &[Scalar::Bytes(message)]),
        Failure::AssertCode { code } => put_number(alloc, out, *code),
        Failure::Trap { kind } => put_label(alloc, out, kind),
        Failure::BadIterator { value } => {
            put_array(alloc, out, &[Scalar::Signed(i64::from(*value))])
        }
        Failure::KeyExists { primary } => put_number(alloc, out, *primary),
        Failure::NotOwner { code } => put_array(alloc, out, &[Scalar::Name(*code)]),
        Failure::BadPayer { account } => put_array(alloc, out, &[Scalar::Name(*account)]),
        Failure::RamExceeded {
            account,
            used,
            quota,
        } => put_array(
            alloc,
            out,
            &[
                Scalar::Name(*account),
                Scalar::Number(*used),
                Scalar::Signed(*quota),
            ],
        ),
        Failure::MissingAuth { actor, permission } => put_names(alloc, out, *actor, *permission),
        Failure::Irrelevant { actor, permission } => put_names(alloc, out, *actor, *permission),
        Failure::DataFault { at } => put_number(alloc, out, *at),
        Failure::BadSignature { index } => put_number(alloc, out, u64::from(*index)),
        Failure::Native { rule } => put_number(alloc, out, u64::from(*rule)),
        Failure::KeyLength { count } => put_number(alloc, out, u64::from(*count)),
        _ => put_none(alloc, out),
    }
}

fn put_none(alloc: Global, out: &mut Bytes) -> Result<(), AllocError>
    ensures { OnOk result (Adds out.old out.new (compact_text (list_value []))) }
{
    let none: [Scalar<'_>; 0] = [];
    put_array(alloc, out, &none)
}

fn put_number(alloc: Global, out: &mut Bytes, number: u64) -> Result<(), AllocError>
    ensures { OnOk result (Adds out.old out.new (compact_text (list_value (number_value number ∷ [])))) }
{
    put_array(alloc, out, &[Scalar::Number(number)])
}

fn put_label(alloc: Global, out: &mut Bytes, label: &Label) -> Result<(), AllocError>
    ensures { OnOk result (Adds out.old out.new (compact_text (list_value (string label.now ∷ [])))) }
{
    put_array(alloc, out, &[Scalar::Text(label.as_slice())])
}

fn put_names(alloc: Global, out: &mut Bytes, first: Name, second: Name) -> Result<(), AllocError>
    ensures { OnOk result (Adds out.old out.new (compact_text (list_value (name_value first ∷ name_value second ∷ [])))) }
{
    put_array(alloc, out, &[Scalar::Name(first), Scalar::Name(second)])
}

/// The trace as compact JSON with its keys in ascending order: names as texts, byte strings and digests as lower-case
/// hex, numbers plain.
#[tactic(auto, unfolding(crate::specs::Traces::trace_json))]
pub fn trace_text(alloc: Global, trace: &Trace) -> Result<Bytes, AllocError>
    ensures { IfOk result (λ text. text ≡ trace_json trace.now) }
{
    let mut out = Bytes::new(alloc);
    trace.put_json(alloc, &mut out)?;
    Ok(out)
}
