// What is found among the rows.
ghost use Rattle.std.specs.Prelude.{◌≡◌, ◌==◌, Option, Some, is_some, IsTrue};
ghost use Rattle.std.specs.Option.{option_map};
ghost use Rattle.std.specs.FinMap.Entries.{is_sorted};
ghost use Rattle.std.specs.Map.Iter.{deref_pair};
ghost use Rattle.ante_undo.specs.Entries.{first_where, entry_from, entry_after, entry_before, entry_up_to, first_entry, last_entry};
ghost use Rattle.ante_sessions.specs.Walk.{past};
ghost use Rattle.ante_secidx.specs.Index as index;
ghost use Rattle.ante_secidx.specs.Index.{index_of, index_row, key_and_payer, listed_key, pair_of, place_key, shown_row};
ghost use Rattle.ante_secidx.specs.Index.{row_under};
ghost use Rattle.ante_state.specs.Orders.{pair_order, index_order};
ghost use Rattle.ante_secidx.specs.Index.{lower_bound, upper_bound, exact_match};

use crate::index::SecIndex;
use crate::keys::SecKey;
use crate::laws::rows_are_listed;
use ante_pack::{Name, TableKey};
use ante_sessions::next_entry;
use ante_state::{IndexKey, total_order};

impl<K: SecKey> SecIndex<K> {
    /// The secondary key of the table's row with the primary key, and who pays for the row.
    pub fn by_primary(&self, table: TableKey, primary: u64) -> Option<(K, Name)>
        ensures found { result ≡ option_map key_and_payer (index_row table primary self.now.top) }
        ensures listed { result ≡ option_map listed_key (first_where (λ pair. pair.1 == primary) (index_of table self.now.top)) }
        ensures there { is_some result ≡ is_some (index_row table primary self.now.top) }
    {
        rows_are_listed::<K>();
        match self.hint(table, primary) {
            Some(key) => self.paid_at(table, key, primary),
            None => None,
        }
    }

    /// The first row of the table whose secondary key is at least the given one, as its secondary and its primary key.
    pub fn lower(&self, table: TableKey, key: K) -> Option<(K, u64)>
        ensures { result ≡ pair_of (lower_bound K.cmp key (index_of table self.now.top)) }
    {
        self.first_from(IndexKey {
            table,
            key,
            primary: 0,
        })
    }

    /// The first row of the table whose secondary key is above the given one.
    pub fn upper(&self, table: TableKey, key: K) -> Option<(K, u64)>
        ensures { result ≡ pair_of (upper_bound K.cmp key (index_of table self.now.top)) }
    {
        let _rows = self.rows();
        self.first_after(IndexKey {
            table,
            key,
            primary: u64::MAX,
        })
    }

    /// The first row of the table with the secondary key.
    pub fn exact(&self, table: TableKey, key: K) -> Option<(K, u64)>
        ensures { result ≡ pair_of (exact_match K.cmp key (index_of table self.now.top)) }
    {
        total_order::<K>();
        let _ordered = self.is_ordered(table);
        only_at(key, self.lower(table, key))
    }

    /// The row of the table that comes next after the place.
    pub fn next(&self, table: TableKey, key: K, primary: u64) -> Option<(K, u64)>
        ensures { result ≡ pair_of (entry_after (pair_order K.cmp) (key, primary) (index_of table self.now.top)) }
    {
        self.first_after(IndexKey {
            table,
            key,
            primary,
        })
    }

    /// The row of the table that comes last before the place.
    pub fn previous(&self, table: TableKey, key: K, primary: u64) -> Option<(K, u64)>
        ensures { result ≡ pair_of (entry_before (pair_order K.cmp) (key, primary) (index_of table self.now.top)) }
    {
        total_order::<TableKey>();
        let rows = self.rows();
        pair_in(
            table,
            rows.before(&IndexKey {
                table,
                key,
                primary,
            }),
        )
    }

    /// The last row of the table.
    pub fn last(&self, table: TableKey) -> Option<(K, u64)>
        ensures { result ≡ pair_of (last_entry (index_of table self.now.top)) }
    {
        total_order::<TableKey>();
        let rows = self.rows();
        let end = IndexKey {
            table,
            key: K::greatest(),
            primary: u64::MAX,
        };
        pair_in(table, rows.at_or_before(&end))
    }

    /// The first row of all tables after the place, or the first of all, with who pays for it.
    pub fn next_entry(&self, after: Option<(TableKey, K, u64)>) -> Option<(TableKey, K, u64, Name)>
        ensures next { result ≡ option_map shown_row (first_entry (past (index_order K.cmp) (option_map place_key after) self.now.top)) }
        ensures ordered { IsTrue (is_sorted (index_order K.cmp) self.now.top) }
    {
        let rows = self.rows();
        match next_entry(rows, place_of(after)) {
            Some((row, payer)) => Some((row.table, row.key, row.primary, *payer)),
            None => None,
        }
    }

    /// The same with places as they stand in the order.
    pub fn next_row(&self, after: Option<IndexKey<K>>) -> Option<(IndexKey<K>, Name)>
        ensures next { result ≡ first_entry (past (index_order K.cmp) after self.now.top) }
        ensures ordered { IsTrue (is_sorted (index_order K.cmp) self.now.top) }
    {
        let rows = self.rows();
        match next_entry(rows, after) {
            Some((row, payer)) => Some((*row, *payer)),
            None => None,
        }
    }

    // The secondary key of the row at the place, and who pays for the row, if there is one.
    fn paid_at(&self, table: TableKey, key: K, primary: u64) -> Option<(K, Name)>
        ensures { result ≡ option_map key_and_payer (row_under K.cmp table key primary self.now.top) }
    {
        let place = IndexKey {
            table,
            key,
            primary,
        };
        match self.rows().get(&place) {
            Some(payer) => Some((key, *payer)),
            None => None,
        }
    }

    // The first row of the place's table that isn't before the place.
    fn first_from(&self, place: IndexKey<K>) -> Option<(K, u64)>
        ensures { result ≡ pair_of (entry_from (pair_order K.cmp) (place.key, place.primary) (index_of place.table self.now.top)) }
    {
        total_order::<TableKey>();
        let rows = self.rows();
        pair_in(place.table, rows.at_or_after(&place))
    }

    // The first row of the place's table that is after the place.
    fn first_after(&self, place: IndexKey<K>) -> Option<(K, u64)>
        ensures { result ≡ pair_of (entry_after (pair_order K.cmp) (place.key, place.primary) (index_of place.table self.now.top)) }
    {
        total_order::<TableKey>();
        let rows = self.rows();
        pair_in(place.table, rows.after(&place))
    }

    // That the rows of the table rise by secondary key, and then by primary key.
    fn is_ordered(&self, table: TableKey) -> bool
        ensures { IsTrue (is_sorted (pair_order K.cmp) (index_of table self.now.top)) }
    {
        total_order::<TableKey>();
        let _all = self.rows();
        true
    }
}

// A row as one of the table's, if it is one.
fn pair_in<K: SecKey>(table: TableKey, row: Option<(&IndexKey<K>, &Name)>) -> Option<(K, u64)>
    ensures { result ≡ pair_of (index.in_table table (option_map deref_pair row.entry)) }
{
    match row {
        Some((at, _)) => {
            if at.table.cmp(&table).is_eq() {
                Some((at.key, at.primary))
            } else {
                None
            }
        }
        None => None,
    }
}

// The row, if it has the secondary key.
fn only_at<K: SecKey>(key: K, row: Option<(K, u64)>) -> Option<(K, u64)>
    ensures { result ≡ index.only_at K.cmp key row }
{
    match row {
        Some(found) => {
            if found.0.cmp(&key).is_eq() {
                Some(found)
            } else {
                None
            }
        }
        None => None,
    }
}

fn place_of<K: SecKey>(place: Option<(TableKey, K, u64)>) -> Option<IndexKey<K>>
    ensures { result ≡ option_map place_key place }
{
    match place {
        Some((table, key, primary)) => Some(IndexKey {
            table,
            key,
            primary,
        }),
        None => None,
    }
}
