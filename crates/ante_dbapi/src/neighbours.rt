// A table's rows, and their neighbours by primary keys alone.
ghost use Rattle.std.specs.Prelude.{◌≡◌};
ghost use Rattle.std.specs.FinMap.Entries.{find};
ghost use Rattle.std.specs.Option.{option_copied, option_map};
ghost use Rattle.std.specs.Ordering.{nat_cmp};
ghost use Rattle.ante_undo.specs.Entries.{entry_after, entry_before, last_entry};
ghost use Rattle.ante_calls.specs.Kinds.{primary_kind, primary_rows};
ghost use Rattle.ante_calls.specs.Rows.{place_of};

use ante_pack::TableKey;
use ante_state::PrimaryRow;
use ante_store::Tables;

pub(crate) fn row_at<'a, T: Tables>(
    tables: &'a T,
    key: &TableKey,
    primary: u64,
) -> Option<&'a PrimaryRow>
    ensures { option_copied result ≡ find nat_cmp primary (primary_rows key.now (T.stack tables.now).top) }
{
    tables.store().rows().row(key, primary)
}

pub(crate) fn primary_of(row: Option<(u64, &PrimaryRow)>) -> Option<u64>
    ensures { result ≡ option_map (λ e. e.0) row.entry }
{
    row.map(|(primary, _)| primary)
}

pub(crate) fn key_after<T: Tables>(tables: &T, key: &TableKey, primary: u64) -> Option<u64>
    ensures { result ≡ place_of primary_kind (entry_after nat_cmp primary (primary_rows key.now (T.stack tables.now).top)) }
{
    primary_of(tables.store().rows().row_after(key, primary))
}

pub(crate) fn key_before<T: Tables>(tables: &T, key: &TableKey, primary: u64) -> Option<u64>
    ensures { result ≡ place_of primary_kind (entry_before nat_cmp primary (primary_rows key.now (T.stack tables.now).top)) }
{
    primary_of(tables.store().rows().row_before(key, primary))
}

pub(crate) fn last_key<T: Tables>(tables: &T, key: &TableKey) -> Option<u64>
    ensures { result ≡ place_of primary_kind (last_entry (primary_rows key.now (T.stack tables.now).top)) }
{
    primary_of(tables.store().rows().row_last(key))
}
