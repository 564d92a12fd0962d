ghost use Rattle.std.specs.Prelude.{◌≡◌};
ghost use Rattle.ante_api.specs.Routes.{IsSpanOf, Routes, ReadsAt};
ghost use Rattle.ante_api.specs.Routes as routes;

use ante_http::{HeadKind, RequestSpan};
use ante_json::{ApiFault, ApiRequest, BodyError, Path, read_body};
use std::alloc::Global;

/// What a request asks for, by its target and its body.
#[tactic(auto, using(crate::proofs::Ends::target_order, crate::proofs::Ends::target_end, crate::proofs::Ends::body_order, crate::proofs::Ends::body_end))]
pub fn route(alloc: Global, request: &RequestSpan, bytes: &[u8]) -> Result<ApiRequest, ApiFault>
    requires span { IsSpanOf bytes.now request.now }
    ensures { Routes bytes.now request.now result }
{
    let Some(path) = path_of(request.target.of(bytes)) else {
        return Err(ApiFault::UnknownPath);
    };
    read_at(alloc, path, request.body.of(bytes))
}

fn read_at(alloc: Global, path: Path, body: &[u8]) -> Result<ApiRequest, ApiFault>
    ensures { ReadsAt path body.now result }
{
    match read_body(alloc, path, body) {
        Ok(request) => Ok(request),
        Err(BodyError::OutOfMemory) => Err(ApiFault::OutOfMemory),
        Err(BodyError::BadBody(kind)) => Err(ApiFault::BadBody(kind)),
    }
}

fn path_of(target: &[u8]) -> Option<Path>
    ensures { result ≡ routes.path_of target.now }
{
    if target == b"/v1/chain/get_info".as_slice() {
        return Some(Path::GetInfo);
    }
    if target == b"/v1/chain/get_block".as_slice() {
        return Some(Path::GetBlock);
    }
    if target == b"/v1/chain/get_account".as_slice() {
        return Some(Path::GetAccount);
    }
    if target == b"/v1/chain/get_table_rows".as_slice() {
        return Some(Path::GetTableRows);
    }
    if target == b"/v1/chain/get_table_by_scope".as_slice() {
        return Some(Path::GetTableByScope);
    }
    if target == b"/v1/chain/push_transaction".as_slice() {
        return Some(Path::PushTransaction);
    }
    if target == b"/v1/chain/push_block".as_slice() {
        return Some(Path::PushBlock);
    }
    if target == b"/v1/chain/send_read_only_transaction".as_slice() {
        return Some(Path::SendReadOnlyTransaction);
    }
    None
}

/// The fault of a request that is Bad.
pub fn head_fault(kind: HeadKind) -> ApiFault
    ensures { result ≡ routes.head_fault kind }
{
    match kind {
        HeadKind::TooLarge { length } => ApiFault::TooLarge { length },
        _ => ApiFault::BadHead(kind),
    }
}
