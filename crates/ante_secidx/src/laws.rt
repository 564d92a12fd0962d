// What proofs rest on, each as a function whose contract is all that it is for.
ghost use Rattle.std.specs.Prelude.{◌≡◌, ◌==◌, ℕ};
ghost use Rattle.std.specs.Option.{option_map};
ghost use Rattle.std.specs.Cmp.{IsTotalOrder};
ghost use Rattle.std.specs.FinMap.{IsAntisymmetric};
ghost use Rattle.ante_state.specs.Orders.{row_order, index_order};
ghost use Rattle.ante_undo.specs.Entries.{first_where};
ghost use Rattle.ante_pack.specs.declared.names.TableKey.{TableKey};
ghost use Rattle.ante_secidx.specs.Index.{Rows, index_of, index_row, key_and_payer, listed_key};

use crate::keys::SecKey;
use ante_state::{IndexKey, RowKey, total_order};

/// A row found by its primary key among all rows is the one found in its table's list.
pub fn rows_are_listed<K: SecKey>()
    ensures { (table : TableKey) (primary : ℕ) (m : Rows K) → option_map key_and_payer (index_row table primary m)
        ≡ option_map listed_key (first_where (λ pair. pair.1 == primary) (index_of table m)) }
{}

// The orders are total, and keys that tie are one.
pub(crate) fn orders_hold<K: SecKey>()
    ensures rows { IsTotalOrder row_order }
    ensures places { IsTotalOrder (index_order K.cmp) }
    ensures exact_rows { IsAntisymmetric row_order }
    ensures exact_places { IsAntisymmetric (index_order K.cmp) }
{
    total_order::<RowKey>();
    total_order::<IndexKey<K>>();
}
