// What a call meets: a table, and then a row of it, or nothing.
ghost use Rattle.std.specs.Prelude.{◌≡◌, ◌+◌, ◌<◌, ◌≤◌, ◌^◌, length, is_some, OnErr, IfOk};
ghost use Rattle.std.specs.FinMap.Entries.{find};
ghost use Rattle.ante_state.specs.Orders.{table_order};
ghost use Rattle.ante_calls.specs.Rows.{has_table};
ghost use Rattle.ante_itercache.specs.Iterators.{meet_table, meet_row};

use ante_itercache::Iters;
use ante_pack::TableKey;
use ante_store::Tables;
use std::alloc::{AllocError, Global};

/// Whether the state has the table.
pub fn has_table<T: Tables>(tables: &T, key: &TableKey) -> bool
    ensures { result ≡ has_table key.now (T.stack tables.now).top }
{
    tables.store().rows().table(key).is_some()
}

/// Meets the table and then the row, or neither, and answers the row's number.
#[tactic(auto, using(crate::proofs::Taken::taken_back))]
pub fn meet_both(
    alloc: Global,
    iters: &mut Iters,
    key: TableKey,
    primary: u64,
) -> Result<i32, AllocError>
    requires room_for_table { length iters.old.tables + 1 < 2 ^ 31 }
    requires room_for_row { length iters.old.rows < 2 ^ 31 }
    ensures ok { IfOk result (λ it. (it, iters.new) ≡ meet_row key primary (meet_table key iters.old).1) }
    ensures err { OnErr result (iters.new ≡ iters.old) }
{
    let (tables, rows) = iters.met();
    iters.table(alloc, key)?;
    match iters.row(alloc, key, primary) {
        Ok(it) => Ok(it),
        Err(refused) => {
            iters.back_to(tables, rows);
            Err(refused)
        }
    }
}
