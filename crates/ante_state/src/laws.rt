// What contracts rest on, each as a function with an empty body: its contract is all that it is for.
ghost use Rattle.std.specs.Prelude.{◌≡◌};
ghost use Rattle.std.specs.Cmp.{IsTotalOrder};
ghost use Rattle.ante_state.specs.Orders.{name_order, table_order, row_order, index_order};
ghost use Rattle.ante_state.specs.Orders.{level_order, link_order, recent_order};

use crate::objects::{LinkKey, RecentKey};
use crate::tables::{IndexKey, RowKey};
use ante_pack::{Level, Name, TableKey};

/// Names are ordered as their numbers are.
pub fn names_are_ordered()
    ensures { ⟦<Name as Ord>⟧.cmp ≡ name_order }
{}

/// Tables are ordered by contract, then by scope, then by name.
pub fn tables_are_ordered()
    ensures { ⟦<TableKey as Ord>⟧.cmp ≡ table_order }
{}

/// Rows are ordered by table, and then by primary key.
pub fn rows_are_ordered()
    ensures { ⟦<RowKey as Ord>⟧.cmp ≡ row_order }
{}

/// Rows of a secondary index are ordered by table, then by secondary key, then by primary key.
pub fn index_is_ordered<K: Ord>()
    ensures { ⟦<IndexKey<K> as Ord>⟧.cmp ≡ index_order K.cmp }
{}

/// Permissions are ordered by account, and then by name.
pub fn levels_are_ordered()
    ensures { ⟦<Level as Ord>⟧.cmp ≡ level_order }
{}

/// Links are ordered by account, then by contract, then by action.
pub fn links_are_ordered()
    ensures { ⟦<LinkKey as Ord>⟧.cmp ≡ link_order }
{}

/// Transactions that were run are ordered by the moment of expiration, and then by id.
pub fn recent_are_ordered()
    ensures { ⟦<RecentKey as Ord>⟧.cmp ≡ recent_order }
{}

/// Every order that keys have is total.
pub fn total_order<K: Ord>()
    ensures { IsTotalOrder K.cmp }
{}
