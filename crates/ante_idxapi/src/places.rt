// Where the rows stand that calls look for.
ghost use Rattle.std.specs.Prelude.{◌≡◌, ◌==◌};
ghost use Rattle.std.specs.Ordering.{is_ge, is_gt, eq_by_cmp};
ghost use Rattle.ante_undo.specs.Entries.{entry_after, entry_before, last_entry};
ghost use Rattle.ante_calls.specs.IndexCalls.{first_place, index_kind};
ghost use Rattle.ante_calls.specs.Rows.{place_of};

use crate::keys::Indexed;
use ante_pack::{Name, TableKey};
use ante_store::Tables;

/// The row with the primary key.
pub(crate) fn with_primary<T: Tables, K: Indexed>(
    tables: &T,
    key: TableKey,
    primary: u64,
) -> Option<(K, u64)>
    ensures { result ≡ first_place K.form K.index (λ place. place.1 == primary) (K.index.rows key (T.stack tables.now).top) }
{
    match K::rows_of(tables.store()).by_primary(key, primary) {
        Some(found) => Some((found.0, primary)),
        None => None,
    }
}

/// Who pays for the row with the primary key.
pub(crate) fn payer_at<T: Tables, K: Indexed>(
    tables: &T,
    key: TableKey,
    primary: u64,
) -> Option<Name>
    ensures { result ≡ (index_kind K.form K.index).row key primary (T.stack tables.now).top }
{
    match K::rows_of(tables.store()).by_primary(key, primary) {
        Some(found) => Some(found.1),
        None => None,
    }
}

/// The first row with the secondary key.
pub(crate) fn with_secondary<T: Tables, K: Indexed>(
    tables: &T,
    key: TableKey,
    secondary: K,
) -> Option<(K, u64)>
    ensures { result ≡ first_place K.form K.index (λ place. eq_by_cmp K.form.order place.0 secondary) (K.index.rows key (T.stack tables.now).top) }
{
    K::is_ordered();
    K::rows_of(tables.store()).exact(key, secondary)
}

/// The first row whose secondary key is at least the given one.
pub(crate) fn lower<T: Tables, K: Indexed>(
    tables: &T,
    key: TableKey,
    secondary: K,
) -> Option<(K, u64)>
    ensures { result ≡ first_place K.form K.index (λ place. is_ge (K.form.order place.0 secondary)) (K.index.rows key (T.stack tables.now).top) }
{
    K::is_ordered();
    K::rows_of(tables.store()).lower(key, secondary)
}

/// The first row whose secondary key is above the given one.
pub(crate) fn upper<T: Tables, K: Indexed>(
    tables: &T,
    key: TableKey,
    secondary: K,
) -> Option<(K, u64)>
    ensures { result ≡ first_place K.form K.index (λ place. is_gt (K.form.order place.0 secondary)) (K.index.rows key (T.stack tables.now).top) }
{
    K::is_ordered();
    K::rows_of(tables.store()).upper(key, secondary)
}

/// The row that comes next after the place.
pub(crate) fn after<T: Tables, K: Indexed>(
    tables: &T,
    key: TableKey,
    place: (K, u64),
) -> Option<(K, u64)>
    ensures { result ≡ place_of (index_kind K.form K.index) (entry_after (index_kind K.form K.index).order place (K.index.rows key (T.stack tables.now).top)) }
{
    K::is_ordered();
    K::rows_of(tables.store()).next(key, place.0, place.1)
}

/// The row that comes last before the place.
pub(crate) fn before<T: Tables, K: Indexed>(
    tables: &T,
    key: TableKey,
    place: (K, u64),
) -> Option<(K, u64)>
    ensures { result ≡ place_of (index_kind K.form K.index) (entry_before (index_kind K.form K.index).order place (K.index.rows key (T.stack tables.now).top)) }
{
    K::is_ordered();
    K::rows_of(tables.store()).previous(key, place.0, place.1)
}

/// The last row.
pub(crate) fn last<T: Tables, K: Indexed>(tables: &T, key: TableKey) -> Option<(K, u64)>
    ensures { result ≡ place_of (index_kind K.form K.index) (last_entry (K.index.rows key (T.stack tables.now).top)) }
{
    K::rows_of(tables.store()).last(key)
}
