ghost use Rattle.std.specs.Prelude.{◌≡◌, IfOk};
ghost use Rattle.ante_views.specs.Views.{AsksState};
ghost use Rattle.ante_answers.specs.Answers.{state_answer};

use crate::accounts::account_answer;
use crate::pages::page;
use crate::ranges::Range;
use crate::scopes::{Scopes, tables_answer};
use ante_pack::TableKey;
use ante_store::Store;
use ante_views::{ViewAnswer, ViewQuery};
use std::alloc::{AllocError, Global};

/// Answers a query on an account or on tables from the newest world. The cost grows with what is answered, and for a query on the tables
/// of one name also with the contract's other tables.
pub fn store_text(alloc: Global, store: &Store, query: &ViewQuery) -> Result<ViewAnswer, AllocError>
    requires { AsksState query.now }
    ensures { IfOk result (λ answer. answer ≡ state_answer store.now.top query.now) }
{
    match *query {
        ViewQuery::Account { name } => account_answer(alloc, store, name),
        ViewQuery::Rows {
            code,
            scope,
            table,
            lower,
            upper,
            limit,
            reverse,
        } => {
            let range = Range {
                table: TableKey { code, scope, table },
                lower,
                upper,
                backward: reverse,
            };
            page(alloc, store.rows(), range, limit)
        }
        ViewQuery::Scopes {
            code,
            table,
            lower,
            limit,
        } => {
            let scopes = Scopes { code, table, lower };
            tables_answer(alloc, store.rows(), scopes, limit)
        }
        ViewQuery::Info => Ok(ViewAnswer::Missing),
        ViewQuery::Block(_) => Ok(ViewAnswer::Missing),
    }
}
