// The widths of secondary keys, with the changes that are of each.
ghost use Rattle.std.specs.Prelude.{◌≡◌, ℕ};
ghost use Rattle.ante_pack.specs.declared.names.Name.{Name};
ghost use Rattle.ante_pack.specs.declared.names.TableKey.{TableKey};
ghost use Rattle.ante_store.specs.declared.change.Change.{Change};
ghost use Rattle.ante_store.specs.declared.change.Change.TheVariants as change;
ghost use Rattle.ante_state.specs.Billing.{index64_size, index128_size, index256_size};
ghost use Rattle.ante_store.specs.Widths.{IsSlot, AreChanges};

use ante_pack::Key256;
use ante_secidx::Width;
use ante_state::billing::{INDEX64_SIZE, INDEX128_SIZE, INDEX256_SIZE};

/// A width of secondary keys as the store bills and changes its rows.
pub(crate) trait Billed: Width {
    ghost bytes: { ℕ };

    ghost storing: { TableKey → Self → ℕ → Name → Change };

    ghost updating: { TableKey → Self → ℕ → Name → Change };

    ghost removing: { TableKey → ℕ → Change };

    /// What a row is billed.
    fn row_size() -> u128
        ensures { result ≡ bytes };

    // The two laws: the proof is all that each is for.
    fn is_slot()
        ensures { IsSlot Self.cmp bytes Self.rows Self.with_rows };

    fn are_changes()
        ensures { AreChanges Self.cmp bytes Self.rows Self.with_rows storing updating removing };
}

impl Billed for u64 {
    ghost bytes = { index64_size };

    ghost storing = { change.StoreIndex64 };

    ghost updating = { change.UpdateIndex64 };

    ghost removing = { change.RemoveIndex64 };

    fn row_size() -> u128 {
        INDEX64_SIZE
    }

    fn is_slot() {}

    fn are_changes() {}
}

impl Billed for u128 {
    ghost bytes = { index128_size };

    ghost storing = { change.StoreIndex128 };

    ghost updating = { change.UpdateIndex128 };

    ghost removing = { change.RemoveIndex128 };

    fn row_size() -> u128 {
        INDEX128_SIZE
    }

    fn is_slot() {}

    fn are_changes() {}
}

impl Billed for Key256 {
    ghost bytes = { index256_size };

    ghost storing = { change.StoreIndex256 };

    ghost updating = { change.UpdateIndex256 };

    ghost removing = { change.RemoveIndex256 };

    fn row_size() -> u128 {
        INDEX256_SIZE
    }

    fn is_slot() {}

    fn are_changes() {}
}
