// The keys of secondary indexes, with where their rows stand in the state.
ghost use Rattle.std.specs.Prelude.{◌≡◌};
ghost use Rattle.ante_pack.specs.declared.names.TableKey.{TableKey};
ghost use Rattle.ante_secidx.specs.Index.{index_of};
ghost use Rattle.ante_calls.specs.IndexCalls.{KeyForm, IndexRows};

use ante_pack::{Key256, Name, TableKey};
use ante_secidx::{SecIndex, SecKey};
use ante_store::{Change, Store};

/// A secondary key, with the rows of the state that stand under such keys.
pub trait Indexed: SecKey {
    ghost form: { KeyForm Self };

    ghost index: { IndexRows Self };

    /// The rows under such keys.
    fn rows_of(store: &Store) -> &SecIndex<Self>
        ensures { (table : TableKey) → index_of table result.now.top ≡ index.rows table store.now.top };

    /// The changes that store, update and remove such a row.
    fn storing(table: TableKey, primary: u64, payer: Name, key: Self) -> Change
        ensures { result ≡ index.storing table primary payer key };

    fn updating(table: TableKey, primary: u64, payer: Name, key: Self) -> Change
        ensures { result ≡ index.updating table primary payer key };

    fn removing(table: TableKey, primary: u64) -> Change
        ensures { result ≡ index.removing table primary };

    /// Calls order such keys as they are ordered. The proof is all that this is for.
    fn is_ordered()
        ensures { form.order ≡ Self.cmp };
}

impl Indexed for u64 {
    ghost use Rattle.ante_calls.specs.IndexCalls.{key64, rows64};

    ghost form = { key64 };

    ghost index = { rows64 };

    fn rows_of(store: &Store) -> &SecIndex<u64> {
        store.index64()
    }

    fn storing(table: TableKey, primary: u64, payer: Name, key: u64) -> Change {
        Change::StoreIndex64 {
            table,
            key,
            primary,
            payer,
        }
    }

    fn updating(table: TableKey, primary: u64, payer: Name, key: u64) -> Change {
        Change::UpdateIndex64 {
            table,
            key,
            primary,
            payer,
        }
    }

    fn removing(table: TableKey, primary: u64) -> Change {
        Change::RemoveIndex64 { table, primary }
    }

    fn is_ordered() {}
}

impl Indexed for u128 {
    ghost use Rattle.ante_calls.specs.IndexCalls.{key128, rows128};

    ghost form = { key128 };

    ghost index = { rows128 };

    fn rows_of(store: &Store) -> &SecIndex<u128> {
        store.index128()
    }

    fn storing(table: TableKey, primary: u64, payer: Name, key: u128) -> Change {
        Change::StoreIndex128 {
            table,
            key,
            primary,
            payer,
        }
    }

    fn updating(table: TableKey, primary: u64, payer: Name, key: u128) -> Change {
        Change::UpdateIndex128 {
            table,
            key,
            primary,
            payer,
        }
    }

    fn removing(table: TableKey, primary: u64) -> Change {
        Change::RemoveIndex128 { table, primary }
    }

    fn is_ordered() {}
}

impl Indexed for Key256 {
    ghost use Rattle.ante_calls.specs.IndexCalls.{key256, rows256};

    ghost form = { key256 };

    ghost index = { rows256 };

    fn rows_of(store: &Store) -> &SecIndex<Key256> {
        store.index256()
    }

    fn storing(table: TableKey, primary: u64, payer: Name, key: Key256) -> Change {
        Change::StoreIndex256 {
            table,
            key,
            primary,
            payer,
        }
    }

    fn updating(table: TableKey, primary: u64, payer: Name, key: Key256) -> Change {
        Change::UpdateIndex256 {
            table,
            key,
            primary,
            payer,
        }
    }

    fn removing(table: TableKey, primary: u64) -> Change {
        Change::RemoveIndex256 { table, primary }
    }

    fn is_ordered() {}
}
