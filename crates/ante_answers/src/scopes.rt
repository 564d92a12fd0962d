// The tables of a contract.
ghost use Rattle.std.specs.Prelude.{◌≡◌, T, IfOk, IsTrue, unwrap_or};
ghost use Rattle.std.specs.FinMap.Entries.{is_sorted};
ghost use Rattle.ante_undo.specs.Entries.{first_entry, first_where, entry_from, entry_after};
ghost use Rattle.ante_state.specs.Orders.{table_order};
ghost use Rattle.ante_answers.specs.Answers.{tables_from, is_asked, is_named, scope_view, scopes_answer};
ghost use Rattle.ante_answers.specs.Walks.{Follows, rest_from};

use crate::ranges::not_below;
use ante_pack::{Name, Seq, TableKey};
use ante_rows::Rows;
use ante_state::TableRow;
use ante_views::{ScopeView, ViewAnswer};
use std::alloc::{AllocError, Global};

#[derive(Clone, Copy)]
pub(crate) struct Scopes {
    pub code: Name,
    pub table: Option<Name>,
    pub lower: Option<u64>,
}

pub(crate) fn tables_answer(
    alloc: Global,
    rows: &Rows,
    scopes: Scopes,
    limit: u32,
) -> Result<ViewAnswer, AllocError>
    ensures { IfOk result (λ answer. answer ≡ scopes_answer limit (tables_from scopes.code scopes.table scopes.lower rows.now.top.tables)) }
{
    let mut given = Seq::new(alloc);
    let mut next = first_table(rows, scopes);
    while let Some((key, table)) = next {
        if given.len() >= limit as usize {
            return Ok(ViewAnswer::Scopes {
                more: true,
                rows: given,
            });
        }
        given.push(alloc, scope_view(key, table))?;
        next = table_past(rows, scopes, key);
    }
    Ok(ViewAnswer::Scopes {
        more: false,
        rows: given,
    })
}

fn scope_view(key: TableKey, table: TableRow) -> ScopeView
    ensures { result ≡ scope_view (key, table) }
{
    ScopeView {
        code: key.code,
        scope: key.scope,
        table: key.table,
        payer: table.payer,
        count: table.count,
    }
}

fn first_table(rows: &Rows, scopes: Scopes) -> Option<(TableKey, TableRow)>
    ensures { result ≡ first_entry (tables_from scopes.code scopes.table scopes.lower rows.now.top.tables) }
{
    asked_from(rows, scopes, table_from(rows, scopes.code, scopes.lower))
}

/// The table that is given after the one with this key.
fn table_past(rows: &Rows, scopes: Scopes, key: TableKey) -> Option<(TableKey, TableRow)>
    ensures { Follows (tables_from scopes.code scopes.table scopes.lower rows.now.top.tables) key result }
{
    asked_from(rows, scopes, table_after(rows, key))
}

// The first table of any name that isn't before the contract's scope.
fn table_from(rows: &Rows, code: Name, lower: Option<u64>) -> Option<(TableKey, TableRow)>
    ensures nearest { result ≡ entry_from table_order
        (record { code = code; scope = record { 0 = unwrap_or lower 0 }; table = record { 0 = 0 } }) rows.now.top.tables }
    ensures ordered { IsTrue (is_sorted table_order rows.now.top.tables) }
{
    let start = TableKey {
        code,
        scope: Name(lower.unwrap_or(0)),
        table: Name(0),
    };
    match rows.table_from(&start) {
        Some((key, table)) => Some((*key, *table)),
        None => None,
    }
}

fn table_after(rows: &Rows, key: TableKey) -> Option<(TableKey, TableRow)>
    ensures next { result ≡ entry_after table_order key rows.now.top.tables }
    ensures ordered { IsTrue (is_sorted table_order rows.now.top.tables) }
{
    match rows.table_after(&key) {
        Some((key, table)) => Some((*key, *table)),
        None => None,
    }
}

// The first table that is asked for, of this one and those after it.
fn asked_from(
    rows: &Rows,
    scopes: Scopes,
    first: Option<(TableKey, TableRow)>,
) -> Option<(TableKey, TableRow)>
    requires { T (is_sorted table_order rows.now.top.tables) }
    ensures { result ≡ first_where (is_asked scopes.code scopes.table scopes.lower) (rest_from table_order first rows.now.top.tables) }
{
    let mut next = first;
    while let Some((key, table)) = next {
        if key.code.0 > scopes.code.0 {
            return None;
        }
        if is_asked(scopes, key) {
            return Some((key, table));
        }
        next = table_after(rows, key);
    }
    None
}

fn is_asked(scopes: Scopes, key: TableKey) -> bool
    ensures { result ≡ is_asked scopes.code scopes.table scopes.lower key }
{
    key.code == scopes.code
        && not_below(scopes.lower, key.scope.0)
        && is_named(scopes.table, key.table)
}

fn is_named(table: Option<Name>, name: Name) -> bool
    ensures { result ≡ is_named table name }
{
    match table {
        Some(wanted) => name == wanted,
        None => true,
    }
}
