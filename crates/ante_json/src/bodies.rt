//! The body of each path.
ghost use Rattle.serde_json.specs.View.{view};
ghost use Rattle.ante_json.specs.Fields.{Answers};
ghost use Rattle.ante_json.specs.Bodies as bodies;

use crate::fault::BodyError;
use crate::fields::{
    block_field, bound_field, flag_field, hex_field, limit_field, name_field, optional_name,
};
use crate::request::{ApiRequest, Path};
use crate::transactions::{packed_block, seen_of, transaction_fields, transaction_of};
use ante_views::ViewQuery;
use serde_json::Value;
use std::alloc::Global;

/// What a body that is an object asks for.
pub(crate) fn request_of(alloc: Global, path: Path, body: &Value) -> Result<ApiRequest, BodyError>
    ensures { Answers result (bodies.request_of path (view body.now)) }
{
    match path {
        Path::GetInfo => Ok(ApiRequest::View(ViewQuery::Info)),
        Path::GetBlock => Ok(ApiRequest::View(block_query(alloc, body)?)),
        Path::GetAccount => Ok(ApiRequest::View(account_query(alloc, body)?)),
        Path::GetTableRows => Ok(ApiRequest::View(rows_query(alloc, body)?)),
        Path::GetTableByScope => Ok(ApiRequest::View(scopes_query(alloc, body)?)),
        Path::PushTransaction => pushed_transaction(alloc, body),
        Path::PushBlock => pushed_block(alloc, body),
        Path::SendReadOnlyTransaction => read_only(alloc, body),
    }
}

fn block_query(alloc: Global, body: &Value) -> Result<ViewQuery, BodyError>
    ensures { Answers result (bodies.block_query (view body.now)) }
{
    let block = block_field(alloc, body, "block_num_or_id")?;
    Ok(ViewQuery::Block(block))
}

fn account_query(alloc: Global, body: &Value) -> Result<ViewQuery, BodyError>
    ensures { Answers result (bodies.account_query (view body.now)) }
{
    let name = name_field(alloc, body, "account_name")?;
    Ok(ViewQuery::Account { name })
}

fn rows_query(alloc: Global, body: &Value) -> Result<ViewQuery, BodyError>
    ensures { Answers result (bodies.rows_query (view body.now)) }
{
    let code = name_field(alloc, body, "code")?;
    let scope = name_field(alloc, body, "scope")?;
    let table = name_field(alloc, body, "table")?;
    let lower = bound_field(alloc, body, "lower_bound")?;
    let upper = bound_field(alloc, body, "upper_bound")?;
    let limit = limit_field(alloc, body, "limit")?;
    let reverse = flag_field(alloc, body, "reverse")?;
    Ok(ViewQuery::Rows {
        code,
        scope,
        table,
        lower,
        upper,
        limit,
        reverse,
    })
}

fn scopes_query(alloc: Global, body: &Value) -> Result<ViewQuery, BodyError>
    ensures { Answers result (bodies.scopes_query (view body.now)) }
{
    let code = name_field(alloc, body, "code")?;
    let table = optional_name(alloc, body, "table")?;
    let lower = bound_field(alloc, body, "lower_bound")?;
    let limit = limit_field(alloc, body, "limit")?;
    Ok(ViewQuery::Scopes {
        code,
        table,
        lower,
        limit,
    })
}

fn pushed_transaction(alloc: Global, body: &Value) -> Result<ApiRequest, BodyError>
    ensures { Answers result (bodies.pushed_transaction (view body.now)) }
{
    let (job, signatures) = transaction_of(alloc, body)?;
    Ok(ApiRequest::PushTransaction {
        packed: job.packed,
        signatures,
    })
}

fn pushed_block(alloc: Global, body: &Value) -> Result<ApiRequest, BodyError>
    ensures { Answers result (bodies.pushed_block (view body.now)) }
{
    let packed = hex_field(alloc, body, "packed_block")?;
    let block = packed_block(alloc, &packed)?;
    Ok(ApiRequest::PushBlock { block })
}

fn read_only(alloc: Global, body: &Value) -> Result<ApiRequest, BodyError>
    ensures { Answers result (bodies.read_only (view body.now)) }
{
    let fields = transaction_fields(alloc, body)?;
    let (job, _) = transaction_of(alloc, fields)?;
    let seen = seen_of(alloc, body)?;
    Ok(ApiRequest::ReadOnly { job, seen })
}
