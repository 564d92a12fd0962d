// Rows of each width of secondary keys, changed among those of all widths.
ghost use Rattle.std.specs.Prelude.{◌≡◌, OnOk, OnErr, IfErr, IsNone, IsSome};
ghost use Rattle.ante_undo.specs.Stack.{with_top, IsAbove};
ghost use Rattle.ante_secidx.specs.Faults.{IsInsertFault, IsChangeFault};
ghost use Rattle.ante_secidx.specs.Index.{Rows, with_index_row, without_index_row, moved};
ghost use Rattle.ante_secidx.specs.declared.indexes.IndexesMap.{IndexesMap};

use crate::fault::SecFault;
use crate::index::SecIndex;
use crate::indexes::{Indexes, IndexesMap};
use crate::keys::SecKey;
use ante_pack::{Key256, Name, TableKey};
use std::alloc::Global;

/// A width of secondary keys: where its rows stand among those of all widths.
pub trait Width: SecKey {
    ghost rows: { IndexesMap → Rows Self };

    ghost with_rows: { Rows Self → IndexesMap → IndexesMap };

    /// The rows of this width.
    fn rows_of(indexes: &Indexes) -> &SecIndex<Self>
        ensures { result.now.top ≡ rows indexes.now.top };

    /// A new row of the table.
    fn insert(
        indexes: &mut Indexes,
        alloc: Global,
        table: TableKey,
        key: Self,
        primary: u64,
        payer: Name,
    ) -> Result<(), SecFault>
        requires above { IsAbove 1 indexes.old }
        ensures ok { OnOk result (indexes.new ≡ with_top (with_rows (with_index_row Self.cmp table key primary payer (rows indexes.old.top)) indexes.old.top) indexes.old) }
        ensures fault { IfErr result (IsInsertFault table primary (rows indexes.old.top)) }
        ensures err { OnErr result (indexes.new ≡ indexes.old) }
        ensures top { indexes.new ≡ with_top indexes.new.top indexes.old };

    /// Another secondary key and another payer for a row of the table. After a refusal nothing is said of the rows.
    fn update(
        indexes: &mut Indexes,
        alloc: Global,
        table: TableKey,
        key: Self,
        primary: u64,
        payer: Name,
    ) -> Result<(), SecFault>
        requires above { IsAbove 1 indexes.old }
        ensures ok { OnOk result (indexes.new ≡ with_top (with_rows (moved Self.cmp table key primary payer (rows indexes.old.top)) indexes.old.top) indexes.old) }
        ensures fault { IfErr result (IsChangeFault table primary (rows indexes.old.top)) }
        ensures top { indexes.new ≡ with_top indexes.new.top indexes.old };

    /// Takes a row of the table away.
    fn remove(
        indexes: &mut Indexes,
        alloc: Global,
        table: TableKey,
        primary: u64,
    ) -> Result<(), SecFault>
        requires above { IsAbove 1 indexes.old }
        ensures ok { OnOk result (indexes.new ≡ with_top (with_rows (without_index_row Self.cmp table primary (rows indexes.old.top)) indexes.old.top) indexes.old) }
        ensures fault { IfErr result (IsChangeFault table primary (rows indexes.old.top)) }
        ensures err { OnErr result (indexes.new ≡ indexes.old) }
        ensures top { indexes.new ≡ with_top indexes.new.top indexes.old };
}

impl Width for u64 {
    ghost rows = { λ m. m.index64 };

    ghost with_rows = { λ rows m. record m { index64 = rows } };

    fn rows_of(indexes: &Indexes) -> &SecIndex<u64> {
        indexes.index64()
    }

    fn insert(
        indexes: &mut Indexes,
        alloc: Global,
        table: TableKey,
        key: u64,
        primary: u64,
        payer: Name,
    ) -> Result<(), SecFault> {
        let both = &mut indexes.kept.inner;
        let narrow = &mut both.first;
        narrow.first.insert(alloc, table, key, primary, payer)
    }

    fn update(
        indexes: &mut Indexes,
        alloc: Global,
        table: TableKey,
        key: u64,
        primary: u64,
        payer: Name,
    ) -> Result<(), SecFault> {
        let both = &mut indexes.kept.inner;
        let narrow = &mut both.first;
        narrow.first.update(alloc, table, key, primary, payer)
    }

    fn remove(
        indexes: &mut Indexes,
        alloc: Global,
        table: TableKey,
        primary: u64,
    ) -> Result<(), SecFault> {
        let both = &mut indexes.kept.inner;
        let narrow = &mut both.first;
        narrow.first.remove(alloc, table, primary)
    }
}

impl Width for u128 {
    ghost rows = { λ m. m.index128 };

    ghost with_rows = { λ rows m. record m { index128 = rows } };

    fn rows_of(indexes: &Indexes) -> &SecIndex<u128> {
        indexes.index128()
    }

    fn insert(
        indexes: &mut Indexes,
        alloc: Global,
        table: TableKey,
        key: u128,
        primary: u64,
        payer: Name,
    ) -> Result<(), SecFault> {
        let both = &mut indexes.kept.inner;
        let narrow = &mut both.first;
        narrow.second.insert(alloc, table, key, primary, payer)
    }

    fn update(
        indexes: &mut Indexes,
        alloc: Global,
        table: TableKey,
        key: u128,
        primary: u64,
        payer: Name,
    ) -> Result<(), SecFault> {
        let both = &mut indexes.kept.inner;
        let narrow = &mut both.first;
        narrow.second.update(alloc, table, key, primary, payer)
    }

    fn remove(
        indexes: &mut Indexes,
        alloc: Global,
        table: TableKey,
        primary: u64,
    ) -> Result<(), SecFault> {
        let both = &mut indexes.kept.inner;
        let narrow = &mut both.first;
        narrow.second.remove(alloc, table, primary)
    }
}

impl Width for Key256 {
    ghost rows = { λ m. m.index256 };

    ghost with_rows = { λ rows m. record m { index256 = rows } };

    fn rows_of(indexes: &Indexes) -> &SecIndex<Key256> {
        indexes.index256()
    }

    fn insert(
        indexes: &mut Indexes,
        alloc: Global,
        table: TableKey,
        key: Key256,
        primary: u64,
        payer: Name,
    ) -> Result<(), SecFault> {
        let both = &mut indexes.kept.inner;
        both.second.insert(alloc, table, key, primary, payer)
    }

    fn update(
        indexes: &mut Indexes,
        alloc: Global,
        table: TableKey,
        key: Key256,
        primary: u64,
        payer: Name,
    ) -> Result<(), SecFault> {
        let both = &mut indexes.kept.inner;
        both.second.update(alloc, table, key, primary, payer)
    }

    fn remove(
        indexes: &mut Indexes,
        alloc: Global,
        table: TableKey,
        primary: u64,
    ) -> Result<(), SecFault> {
        let both = &mut indexes.kept.inner;
        both.second.remove(alloc, table, primary)
    }
}
