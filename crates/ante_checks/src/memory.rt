//! The memory that accounts use when all actions have run.
ghost use Rattle.std.specs.Prelude.{◌≡◌, ◌<◌, length};
ghost use Rattle.ante_execution.specs.Transactions.{memory_refusal};
ghost use Rattle.ante_undo.specs.Stack.{under_top};

use ante_pack::Name;
use ante_state::{names_are_ordered, total_order};
use ante_store::Store;
use ante_types::Failure;

/// The first account that uses more memory than when the newest session began, and more than its quota. The cost grows with the accounts
/// whose usage changed.
pub fn check_memory(store: &Store) -> Option<Failure>
    requires session { 0 < length store.now.under }
    ensures { result ≡ memory_refusal (under_top store.now) store.now.top }
{
    total_order::<Name>();
    names_are_ordered();
    let usage = store.usage();
    usage.entries_hold();
    match usage.first_over() {
        Some((account, used, quota)) => Some(Failure::RamExceeded {
            account,
            used,
            quota,
        }),
        None => None,
    }
}
