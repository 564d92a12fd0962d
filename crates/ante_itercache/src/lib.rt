//! The iterators of a run: numbers that stand for the tables and rows that it has met.
#![tactic(auto)]

ghost use Rattle.std.specs.Prelude.{◌≡◌, ◌+◌, ◌<◌, ◌≤◌, ◌^◌, ◌-◌, ◌++◌, ◌∷◌, [], pos, negsuc, length, take, position, Some, None, OnOk, OnErr, IfOk, true};
ghost use Rattle.ante_itercache.specs.Iterators.{no_iterators, row_iterator, end_iterator, is_table, is_row, meet_table, meet_row, live_row, row_removed, first_met};
ghost use Rattle.ante_itercache.specs.Iterators as iterators;

mod met;

use ante_pack::TableKey;
use ante_state::RowKey;
pub use met::MetRow;
use std::alloc::{AllocError, Global};
use std::collections::BTreeMap;
use std::marker::Model;

/// The tables and the rows of one kind that a run has met, each with its number.
#[derive(Drop)]
pub struct Iters {
    tables: Vec<TableKey>,
    rows: Vec<MetRow>,
    // The place of each table, and of each live row.
    table_places: BTreeMap<TableKey, usize>,
    row_places: BTreeMap<RowKey, usize>,
}

impl Model for Iters {
    ghost use Rattle.ante_state.specs.Orders.{table_order, row_order};
    ghost use Rattle.ante_itercache.specs.Iterators.{Iterators};
    ghost use Rattle.ante_itercache.specs.Places.{HasPlaces, live_at};

    ghost Value = { Iterators };

    ghost view = { λ s. record { tables = s.tables.items; rows = s.rows.items } };

    ghost invariant = { λ s. HasPlaces table_order (λ key. key) s.table_places s.tables.items × HasPlaces row_order live_at s.row_places s.rows.items };
}

impl Iters {
    /// No table and no row was met.
    pub fn new(alloc: Global) -> Iters
        ensures { result ≡ no_iterators }
    {
        Iters {
            tables: Vec::new(alloc),
            rows: Vec::new(alloc),
            table_places: BTreeMap::new(alloc),
            row_places: BTreeMap::new(alloc),
        }
    }

    /// The table's end iterator, -2 or below, which it gets when it is first met.
    pub fn table(&mut self, _alloc: Global, key: TableKey) -> Result<i32, AllocError>
        requires room { length self.old.tables + 1 < 2 ^ 31 }
        ensures ok { IfOk result (λ value. (value, self.new) ≡ meet_table key self.old) }
        ensures err { OnErr result (self.new ≡ self.old) }
        ensures grows { length self.new.tables ≤ length self.old.tables + 1 }
        ensures rows { self.new.rows ≡ self.old.rows }
    {
        if let Some(place) = self.place_of_table(&key) {
            return Ok(end_number(place));
        }
        let place = self.tables.as_slice().len();
        self.add_table(key)?;
        Ok(end_number(place))
    }

    /// The table that has this end iterator.
    pub fn end_table(&self, value: i32) -> Option<TableKey>
        ensures { result ≡ iterators.end_table value self.now }
    {
        if value > -2 {
            return None;
        }
        self.tables.get((-2 - value) as usize).copied()
    }

    /// The row's number, from 0, which it gets when it is first met. A row that was removed gets a new one when it is met again.
    pub fn row(&mut self, _alloc: Global, key: TableKey, primary: u64) -> Result<i32, AllocError>
        requires room { length self.old.rows < 2 ^ 31 }
        ensures ok { IfOk result (λ value. (value, self.new) ≡ meet_row key primary self.old) }
        ensures err { OnErr result (self.new ≡ self.old) }
        ensures grows { length self.new.rows ≤ length self.old.rows + 1 }
        ensures tables { self.new.tables ≡ self.old.tables }
    {
        let key = RowKey {
            table: key,
            primary,
        };
        if let Some(place) = self.place_of_row(&key) {
            return Ok(row_number(place));
        }
        let place = self.rows.as_slice().len();
        self.add_row(key)?;
        Ok(row_number(place))
    }

    /// The table and the primary key of the live row with this number.
    pub fn get(&self, value: i32) -> Option<(TableKey, u64)>
        ensures { result ≡ live_row value self.now }
    {
        if value < 0 {
            return None;
        }
        let row = self.rows.get(value as usize)?;
        if !row.live {
            return None;
        }
        Some((row.table, row.primary))
    }

    /// The row with this number was removed. Where no live row has the number, nothing changes.
    pub fn removed(&mut self, value: i32)
        ensures { self.new ≡ row_removed value self.old }
    {
        let Some((table, primary)) = self.get(value) else {
            return;
        };
        self.row_places.remove(&RowKey { table, primary });
        self.rows[value as usize].live = false;
    }

    /// How many tables and how many rows were met.
    pub fn met(&self) -> (usize, usize)
        ensures { result ≡ (length self.now.tables, length self.now.rows) }
    {
        (self.tables.as_slice().len(), self.rows.as_slice().len())
    }

    /// Takes back the table and the row that were met last, each where more than so many were met.
    pub fn back_to(&mut self, tables: usize, rows: usize)
        requires tables { length self.old.tables ≤ tables + 1 }
        requires rows { length self.old.rows ≤ rows + 1 }
        ensures { self.new ≡ first_met tables rows self.old }
    {
        if tables < self.tables.as_slice().len() {
            self.forget_table();
        }
        if rows < self.rows.as_slice().len() {
            self.forget_row();
        }
    }

    fn forget_table(&mut self)
        ensures { self.new ≡ first_met (length self.old.tables - 1) (length self.old.rows) self.old }
    {
        if let Some(key) = self.tables.pop() {
            self.table_places.remove(&key);
        }
    }

    fn forget_row(&mut self)
        ensures { self.new ≡ first_met (length self.old.tables) (length self.old.rows - 1) self.old }
    {
        let Some(row) = self.rows.pop() else {
            return;
        };
        if row.live {
            self.row_places.remove(&RowKey {
                table: row.table,
                primary: row.primary,
            });
        }
    }

    fn place_of_table(&self, key: &TableKey) -> Option<usize>
        ensures { result ≡ position (is_table key.now) self.now.tables }
    {
        self.table_places.get(key).copied()
    }

    fn place_of_row(&self, key: &RowKey) -> Option<usize>
        ensures { result ≡ position (is_row key.now.table key.now.primary) self.now.rows }
    {
        self.row_places.get(key).copied()
    }

    // Room is made in the list before the map is changed.
    fn add_table(&mut self, key: TableKey) -> Result<(), AllocError>
        requires { position (is_table key) self.old.tables ≡ None }
        ensures ok { OnOk result (self.new ≡ record { tables = self.old.tables ++ key ∷ []; rows = self.old.rows }) }
        ensures err { OnErr result (self.new ≡ self.old) }
    {
        let place = self.tables.as_slice().len();
        self.tables.reserve(1)?;
        self.table_places.insert(key, place)?;
        self.tables.push_reserved(key);
        Ok(())
    }

    fn add_row(&mut self, key: RowKey) -> Result<(), AllocError>
        requires { position (is_row key.table key.primary) self.old.rows ≡ None }
        ensures ok { OnOk result (self.new ≡ record {
          tables = self.old.tables;
          rows = self.old.rows ++
              record { table = key.table; primary = key.primary; live = true } ∷ [];
        }) }
        ensures err { OnErr result (self.new ≡ self.old) }
    {
        let place = self.rows.as_slice().len();
        self.rows.reserve(1)?;
        self.row_places.insert(key, place)?;
        self.rows.push_reserved(MetRow {
            table: key.table,
            primary: key.primary,
            live: true,
        });
        Ok(())
    }
}

fn row_number(place: usize) -> i32
    requires { place < 2 ^ 31 }
    ensures { result ≡ row_iterator place }
{
    place as i32
}

fn end_number(place: usize) -> i32
    requires { place + 1 < 2 ^ 31 }
    ensures { result ≡ end_iterator place }
{
    -2 - place as i32
}

#[cfg(test)]
mod tests;
