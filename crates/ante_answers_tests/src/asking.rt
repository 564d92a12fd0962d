//! A query's answer, as the body of its reply.
ghost use Rattle.std.specs.Prelude.{◌≡◌, true};
ghost use Rattle.ante_views.specs.Views.{AsksState};
ghost use Rattle.ante_json.specs.Replies.{IsThere};

use ante_answers::store_text;
use ante_json::{ApiRequest, Path, read_body, view_text};
use ante_pack::Bytes;
use ante_store::Store;
use ante_views::{ViewAnswer, ViewQuery};
use sha2::{Digest as _, Sha256};
use std::alloc::Global;
use std::io;
use std::io::ErrorKind;

// Longer texts are shown by their length and SHA-256.
const SHOWN: usize = 1_000;

fn asks_state(query: &ViewQuery) -> bool
    ensures { result ≡ true → AsksState query.now }
{
    match query {
        ViewQuery::Account { .. } => true,
        ViewQuery::Rows { .. } => true,
        ViewQuery::Scopes { .. } => true,
        ViewQuery::Info => false,
        ViewQuery::Block(_) => false,
    }
}

fn is_there(answer: &ViewAnswer) -> bool
    ensures { result ≡ true → IsThere answer.now }
{
    match answer {
        ViewAnswer::Account { .. } => true,
        ViewAnswer::Rows { .. } => true,
        ViewAnswer::Scopes { .. } => true,
        ViewAnswer::Info { .. } => true,
        ViewAnswer::Block { .. } => true,
        ViewAnswer::Missing => false,
    }
}

fn print_text(rt: &impl Print, alloc: Global, text: &Bytes) -> io::Result<()> {
    let bytes = text.as_slice();
    if bytes.len() > SHOWN {
        let digest = Sha256::digest(bytes);
        let hex = hex::encode(alloc, &digest)?;
        return println!(rt; "  {} bytes, {hex}", bytes.len());
    }
    match std::str::from_utf8(bytes) {
        Ok(text) => println!(rt; "  {text}"),
        Err(_) => Err(io::Error::from(ErrorKind::InvalidData)),
    }
}

fn print_answer(rt: &impl Print, alloc: Global, answer: &ViewAnswer) -> io::Result<()> {
    if !is_there(answer) {
        return println!(rt; "  no such account");
    }
    let text = view_text(alloc, answer)?;
    print_text(rt, alloc, &text)
}

fn query_of(alloc: Global, path: Path, body: &[u8]) -> io::Result<ViewQuery> {
    match read_body(alloc, path, body) {
        Ok(ApiRequest::View(query)) => Ok(query),
        _ => Err(io::Error::from(ErrorKind::InvalidData)),
    }
}

/// Prints what the state answers to the query.
pub fn ask(
    rt: &impl Print,
    alloc: Global,
    store: &Store,
    path: Path,
    body: &[u8],
) -> io::Result<()> {
    let query = query_of(alloc, path, body)?;
    if !asks_state(&query) {
        return Err(io::Error::from(ErrorKind::InvalidData));
    }
    let answer = store_text(alloc, store, &query)?;
    print_answer(rt, alloc, &answer)
}
