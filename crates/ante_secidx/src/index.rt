ghost use Rattle.std.specs.Prelude.{◌≡◌, ℕ, [], ◌<◌, ◌≤◌, ◌^◌, IsNone, IsTrue};
ghost use Rattle.ante_pack.specs.declared.names.TableKey.{TableKey};
ghost use Rattle.std.specs.Option.{option_map};
ghost use Rattle.std.specs.List.{AllByRecursion};
ghost use Rattle.std.specs.FinMap.Entries.{is_sorted};
ghost use Rattle.ante_undo.specs.Stack.{opened};
ghost use Rattle.ante_secidx.specs.Keys.{greatest_64};
ghost use Rattle.ante_secidx.specs.Index.{index_row, without_index_row};
ghost use Rattle.ante_state.specs.Orders.{index_order};
ghost use Rattle.ante_secidx.specs.Hints.{AreHinted, FitsAt, Tells};

use crate::keys::SecKey;
use crate::laws::orders_hold;
use ante_pack::{Name, TableKey};
use ante_sessions::{Both, Entries, Kept, Rule, Sessions};
use ante_state::{IndexKey, RowKey};
use ante_undo::Layered;
use std::alloc::{AllocError, Global};
use std::marker::{Model, PhantomData};

// The secondary key under which to look for a row, by its table and primary key, and the rows in their order.
pub(crate) type Parts<K> = Both<Layered<RowKey, K>, Layered<IndexKey<K>, Name>>;

/// What holds of the rows of an index and of what tells where to look.
pub struct IndexRule;

impl<K: SecKey> Rule<Parts<K>> for IndexRule {
    type Shown = Entries<IndexKey<K>, Name>;

    ghost shown = { λ m. m.1 };

    ghost holds = { AreHinted K.fits K.cmp };
}

/// The rows of contract tables under a secondary key, with who pays for each, under nested sessions.
#[derive(Drop)]
pub struct SecIndex<K: SecKey> {
    pub(crate) kept: Kept<Parts<K>, IndexRule>,
}

impl<K: SecKey> Model for SecIndex<K> {
    ghost use Rattle.std.specs.Prelude.{List};
    ghost use Rattle.ante_pack.specs.declared.names.Name.{Name};
    ghost use Rattle.ante_undo.specs.Stack.{Stack};
    ghost use Rattle.ante_state.specs.declared.tables.IndexKey.{IndexKey};

    ghost Value = { Stack (List (IndexKey K × Name)) };

    ghost view = { λ s. s.kept };
}

impl<K: SecKey> SecIndex<K> {
    /// No row, at the revision.
    pub fn new(alloc: Global, revision: u64) -> SecIndex<K>
        requires small { revision < 2 ^ 63 }
        ensures { result ≡ opened [] revision }
    {
        SecIndex {
            kept: Kept {
                inner: Both {
                    first: Layered::new(alloc, revision),
                    second: Layered::new(alloc, revision),
                },
                rule: PhantomData,
            },
        }
    }

    // The rows in their order. Their keys are within their bits.
    pub(crate) fn rows(&self) -> &Layered<IndexKey<K>, Name>
        ensures rows { result.now.top ≡ self.now.top }
        ensures fit { AllByRecursion (λ e. FitsAt K.fits e.0) self.now.top }
        ensures ordered { IsTrue (is_sorted (index_order K.cmp) self.now.top) }
    {
        &self.kept.inner.second
    }

    // The secondary key under which to look for the table's row with the primary key.
    pub(crate) fn hint(&self, table: TableKey, primary: u64) -> Option<K>
        ensures { Tells K.cmp table primary self.now.top result }
    {
        orders_hold::<K>();
        let row = RowKey { table, primary };
        self.kept.inner.first.get(&row).copied()
    }

    /// A table has one row at most with a primary key. The proof is all that this is for.
    pub fn rows_are_single(&self)
        ensures { (table : TableKey) (primary : ℕ) → IsNone (index_row table primary (without_index_row K.cmp table primary self.now.top)) }
    {
        orders_hold::<K>();
        let _rows = &self.kept.inner.second;
    }

    // Where the table's row with the primary key stands.
    pub(crate) fn place(&self, table: TableKey, primary: u64) -> Option<IndexKey<K>>
        ensures { result ≡ option_map (λ e. e.0) (index_row table primary self.now.top) }
    {
        let Some(key) = self.hint(table, primary) else {
            return None;
        };
        let place = IndexKey {
            table,
            key,
            primary,
        };
        match self.rows().get(&place) {
            Some(_) => Some(place),
            None => None,
        }
    }
}

impl<K: SecKey> Sessions for SecIndex<K> {
    type Map = Entries<IndexKey<K>, Name>;

    ghost stack = { λ s. s };

    fn begin(&mut self, alloc: Global) -> Result<u64, AllocError> {
        self.kept.begin(alloc)
    }

    fn undo(&mut self) {
        self.kept.undo();
    }

    fn squash(&mut self) {
        self.kept.squash();
    }

    fn commit(&mut self, revision: u64) {
        self.kept.commit(revision);
    }

    fn shelve(&mut self, revision: u64) {
        self.kept.shelve(revision);
    }

    fn unshelve(&mut self) {
        self.kept.unshelve();
    }

    fn drop_shelf(&mut self) {
        self.kept.drop_shelf();
    }

    fn revision(&self) -> u64 {
        self.kept.revision()
    }

    fn sessions(&self) -> u64 {
        self.kept.sessions()
    }
}
