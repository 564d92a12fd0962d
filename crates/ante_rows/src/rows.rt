ghost use Rattle.std.specs.Prelude.{◌≡◌, [], ◌<◌, ◌≤◌, ◌^◌, Some, None, OnOk, OnErr, IfOk, is_some, IsTrue, true};
ghost use Rattle.std.specs.Option.{option_map, option_copied};
ghost use Rattle.std.specs.Ordering.{nat_cmp};
ghost use Rattle.std.specs.FinMap.Entries.{find, is_sorted};
ghost use Rattle.ante_undo.specs.Stack.{opened, with_top, begun, committed, IsSquashed, without_shelf, IsShelved, IsUnshelved, IsAbove, IsSound};
ghost use Rattle.ante_undo.specs.Entries.{entry_from, entry_after, entry_before, entry_up_to, first_entry, last_entry};
ghost use Rattle.ante_sessions.specs.Walk.{past};
ghost use Rattle.ante_state.specs.Orders.{table_order, row_order};
ghost use Rattle.ante_rows.specs.Rows.{rows_of, in_table, table_set, row_set, KeysFit};
ghost use Rattle.std.specs.Map.Iter.{deref_pair};

use ante_pack::TableKey;
use ante_sessions::{Both, Entries, Kept, Rule, Sessions, next_entry, set_entry};
use ante_state::{PrimaryRow, RowKey, TableRow, total_order};
use ante_undo::Layered;
use std::alloc::{AllocError, Global};
use std::marker::{Model, PhantomData};

pub(crate) type Parts = Both<Layered<TableKey, TableRow>, Layered<RowKey, PrimaryRow>>;

/// Tables and primary rows as contracts name them. None is ever made.
pub struct RowsMap {
    pub tables: Entries<TableKey, TableRow>,
    pub rows: Entries<RowKey, PrimaryRow>,
}

/// What holds of the rows.
pub struct RowsRule;

impl Rule<Parts> for RowsRule {
    type Shown = RowsMap;

    ghost shown = { λ m. record { tables = m.0; rows = m.1 } };

    ghost holds = { KeysFit };
}

/// Contract tables and their primary rows, under nested sessions.
#[derive(Drop)]
pub struct Rows {
    kept: Kept<Parts, RowsRule>,
}

impl Model for Rows {
    ghost use Rattle.ante_undo.specs.Stack.{Stack};
    ghost use Rattle.ante_rows.specs.declared.rows.RowsMap.{RowsMap};

    ghost Value = { Stack RowsMap };

    ghost view = { λ s. s.kept };
}

impl Rows {
    /// No table and no row, at the revision.
    pub fn new(alloc: Global, revision: u64) -> Rows
        requires small { revision < 2 ^ 63 }
        ensures { result ≡ opened (record { tables = []; rows = [] }) revision }
    {
        Rows {
            kept: Kept {
                inner: Both {
                    first: Layered::new(alloc, revision),
                    second: Layered::new(alloc, revision),
                },
                rule: PhantomData,
            },
        }
    }

    /// The table object.
    pub fn table(&self, key: &TableKey) -> Option<&TableRow>
        ensures { option_copied result ≡ find ⟦<TableKey as Ord>⟧.cmp key.now self.now.top.tables }
    {
        self.kept.inner.first.get(key)
    }

    /// The first table at or after the key.
    pub fn table_from(&self, key: &TableKey) -> Option<(&TableKey, &TableRow)>
        ensures nearest { option_map deref_pair result ≡ entry_from ⟦<TableKey as Ord>⟧.cmp key.now self.now.top.tables }
        ensures ordered { IsTrue (is_sorted ⟦<TableKey as Ord>⟧.cmp self.now.top.tables) }
    {
        self.kept.inner.first.at_or_after(key)
    }

    /// The first table after the key.
    pub fn table_after(&self, key: &TableKey) -> Option<(&TableKey, &TableRow)>
        ensures nearest { option_map deref_pair result ≡ entry_after ⟦<TableKey as Ord>⟧.cmp key.now self.now.top.tables }
        ensures ordered { IsTrue (is_sorted ⟦<TableKey as Ord>⟧.cmp self.now.top.tables) }
    {
        self.kept.inner.first.after(key)
    }

    /// The first table after the given one, or the first of all.
    pub fn next_table(&self, after: Option<TableKey>) -> Option<(TableKey, &TableRow)>
        ensures next { option_map (λ e. (e.0, e.1.now)) result ≡ first_entry (past ⟦<TableKey as Ord>⟧.cmp after self.now.top.tables) }
        ensures ordered { IsTrue (is_sorted ⟦<TableKey as Ord>⟧.cmp self.now.top.tables) }
    {
        match next_entry(&self.kept.inner.first, after) {
            Some((key, row)) => Some((*key, row)),
            None => None,
        }
    }

    /// The first row of any table after the given one, or the first of all.
    pub fn next_row(&self, after: Option<RowKey>) -> Option<(RowKey, &PrimaryRow)>
        ensures next { option_map (λ e. (e.0, e.1.now)) result ≡ first_entry (past ⟦<RowKey as Ord>⟧.cmp after self.now.top.rows) }
        ensures ordered { IsTrue (is_sorted ⟦<RowKey as Ord>⟧.cmp self.now.top.rows) }
    {
        match next_entry(&self.kept.inner.second, after) {
            Some((key, row)) => Some((*key, row)),
            None => None,
        }
    }

    /// The row of the table with the primary key.
    pub fn row(&self, key: &TableKey, primary: u64) -> Option<&PrimaryRow>
        ensures { option_copied result ≡ find nat_cmp primary (rows_of table_order key.now self.now.top.rows) }
    {
        total_order::<TableKey>();
        let place = RowKey {
            table: *key,
            primary,
        };
        self.kept.inner.second.get(&place)
    }

    /// The first row of the table whose primary key is at least the given one.
    pub fn row_from(&self, key: &TableKey, primary: u64) -> Option<(u64, &PrimaryRow)>
        ensures nearest { option_map (λ e. (e.0, e.1.now)) result ≡ entry_from nat_cmp primary (rows_of table_order key.now self.now.top.rows) }
        ensures ordered { IsTrue (is_sorted nat_cmp (rows_of table_order key.now self.now.top.rows)) }
    {
        total_order::<TableKey>();
        let place = RowKey {
            table: *key,
            primary,
        };
        in_table(key, self.kept.inner.second.at_or_after(&place))
    }

    /// The first row of the table whose primary key is above the given one.
    pub fn row_after(&self, key: &TableKey, primary: u64) -> Option<(u64, &PrimaryRow)>
        ensures nearest { option_map (λ e. (e.0, e.1.now)) result ≡ entry_after nat_cmp primary (rows_of table_order key.now self.now.top.rows) }
        ensures ordered { IsTrue (is_sorted nat_cmp (rows_of table_order key.now self.now.top.rows)) }
    {
        total_order::<TableKey>();
        let place = RowKey {
            table: *key,
            primary,
        };
        in_table(key, self.kept.inner.second.after(&place))
    }

    /// The last row of the table whose primary key is below the given one.
    pub fn row_before(&self, key: &TableKey, primary: u64) -> Option<(u64, &PrimaryRow)>
        ensures nearest { option_map (λ e. (e.0, e.1.now)) result ≡ entry_before nat_cmp primary (rows_of table_order key.now self.now.top.rows) }
        ensures ordered { IsTrue (is_sorted nat_cmp (rows_of table_order key.now self.now.top.rows)) }
    {
        total_order::<TableKey>();
        let place = RowKey {
            table: *key,
            primary,
        };
        in_table(key, self.kept.inner.second.before(&place))
    }

    /// The last row of the table.
    pub fn row_last(&self, key: &TableKey) -> Option<(u64, &PrimaryRow)>
        ensures { option_map (λ e. (e.0, e.1.now)) result ≡ last_entry (rows_of table_order key.now self.now.top.rows) }
    {
        self.row_up_to(key, u64::MAX)
    }

    // The last row of the table whose primary key is not above the given one.
    fn row_up_to(&self, key: &TableKey, primary: u64) -> Option<(u64, &PrimaryRow)>
        ensures nearest { option_map (λ e. (e.0, e.1.now)) result ≡ entry_up_to nat_cmp primary (rows_of table_order key.now self.now.top.rows) }
        ensures fit { KeysFit (self.now.top.tables, self.now.top.rows) }
    {
        total_order::<TableKey>();
        let place = RowKey {
            table: *key,
            primary,
        };
        in_table(key, self.kept.inner.second.at_or_before(&place))
    }

    /// Puts the row into the table.
    pub fn put_row(
        &mut self,
        alloc: Global,
        key: TableKey,
        primary: u64,
        row: PrimaryRow,
    ) -> Result<(), AllocError>
        requires above { IsAbove 1 self.old }
        ensures ok { OnOk result (self.new ≡ with_top (row_set key primary (Some row) self.old.top) self.old) }
        ensures err { OnErr result (self.new ≡ self.old) }
    {
        let place = RowKey {
            table: key,
            primary,
        };
        let parts = &mut self.kept.inner;
        set_entry(alloc, &mut parts.second, place, Some(row))
    }

    /// Removes the row from the table, and says whether it was there.
    pub fn remove_row(
        &mut self,
        alloc: Global,
        key: &TableKey,
        primary: u64,
    ) -> Result<bool, AllocError>
        requires above { IsAbove 1 self.old }
        ensures there { IfOk result (λ there. there ≡ is_some (find row_order (record { table = key.now; primary = primary }) self.old.top.rows)) }
        ensures ok { OnOk result (self.new ≡ with_top (row_set key.now primary None self.old.top) self.old) }
        ensures err { OnErr result (self.new ≡ self.old) }
    {
        let place = RowKey {
            table: *key,
            primary,
        };
        let parts = &mut self.kept.inner;
        parts.second.remove(alloc, &place)
    }

    /// Puts the table object, or takes it away.
    pub fn set_table(
        &mut self,
        alloc: Global,
        key: TableKey,
        row: Option<TableRow>,
    ) -> Result<(), AllocError>
        requires above { IsAbove 1 self.old }
        ensures ok { OnOk result (self.new ≡ with_top (table_set key row self.old.top) self.old) }
        ensures err { OnErr result (self.new ≡ self.old) }
    {
        let parts = &mut self.kept.inner;
        set_entry(alloc, &mut parts.first, key, row)
    }
}

// An entry as a row of the table, if it is one.
fn in_table<'a>(
    table: &TableKey,
    entry: Option<(&RowKey, &'a PrimaryRow)>,
) -> Option<(u64, &'a PrimaryRow)>
    ensures { option_map (λ e. (e.0, e.1.now)) result ≡ in_table ⟦<TableKey as Ord>⟧.cmp table.now (option_map deref_pair entry.entry) }
{
    match entry {
        Some((at, row)) => {
            if at.table.cmp(table).is_eq() {
                Some((at.primary, row))
            } else {
                None
            }
        }
        None => None,
    }
}

impl Sessions for Rows {
    type Map = RowsMap;

    ghost stack = { λ s. s };

    fn begin(&mut self, alloc: Global) -> Result<u64, AllocError> {
        self.kept.begin(alloc)
    }

    fn undo(&mut self) {
        self.kept.undo();
    }

    fn squash(&mut self) {
        self.kept.squash();
    }

    fn commit(&mut self, revision: u64) {
        self.kept.commit(revision);
    }

    fn shelve(&mut self, revision: u64) {
        self.kept.shelve(revision);
    }

    fn unshelve(&mut self) {
        self.kept.unshelve();
    }

    fn drop_shelf(&mut self) {
        self.kept.drop_shelf();
    }

    fn revision(&self) -> u64 {
        self.kept.revision()
    }

    fn sessions(&self) -> u64 {
        self.kept.sessions()
    }
}
