// What changes the rows.
ghost use Rattle.std.specs.Prelude.{◌<◌, length, ◌≡◌, Some, None, Err, OnOk, OnErr, IfErr, IsSome, IsNone};
ghost use Rattle.std.specs.Option.{option_map};
ghost use Rattle.ante_undo.specs.Stack.{with_top, IsAbove};
ghost use Rattle.ante_undo.specs.Entries.{changed};
ghost use Rattle.ante_state.specs.Orders.{row_order, index_order};
ghost use Rattle.ante_secidx.specs.Index.{index_key, index_row, row_key, with_index_row, without_index_row, moved};
ghost use Rattle.ante_secidx.specs.Faults.{IsInsertFault, IsChangeFault};
ghost use Rattle.ante_secidx.specs.declared.fault.SecFault.TheVariants.{Missing};

use crate::fault::SecFault;
use crate::index::{Parts, SecIndex};
use crate::keys::SecKey;
use crate::laws::orders_hold;
use ante_pack::{Name, TableKey};
use ante_sessions::{Sessions, set_entry};
use ante_state::{IndexKey, RowKey};
use std::alloc::{AllocError, Global};

/// No session begins after it.
const LAST_REVISION: u64 = 9_223_372_036_854_775_807;

impl<K: SecKey> SecIndex<K> {
    /// A new row of the table.
    pub fn insert(
        &mut self,
        alloc: Global,
        table: TableKey,
        key: K,
        primary: u64,
        payer: Name,
    ) -> Result<(), SecFault>
        requires above { IsAbove 1 self.old }
        ensures granted { OnOk result (IsNone (index_row table primary self.old.top)) }
        ensures ok { OnOk result (self.new ≡ with_top (with_index_row K.cmp table key primary payer self.old.top) self.old) }
        ensures fault { IfErr result (IsInsertFault table primary self.old.top) }
        ensures err { OnErr result (self.new ≡ self.old) }
    {
        if self.by_primary(table, primary).is_some() {
            return Err(SecFault::KeyExists);
        }
        self.put_row(alloc, table, key, primary, payer)?;
        Ok(())
    }

    /// Another secondary key and another payer for a row of the table. Where no session is open, nothing is said of the rows
    /// after want of memory.
    pub fn update(
        &mut self,
        alloc: Global,
        table: TableKey,
        key: K,
        primary: u64,
        payer: Name,
    ) -> Result<(), SecFault>
        requires above { IsAbove 1 self.old }
        ensures granted { OnOk result (IsSome (index_row table primary self.old.top)) }
        ensures ok { OnOk result (self.new ≡ with_top (moved K.cmp table key primary payer self.old.top) self.old) }
        ensures fault { IfErr result (IsChangeFault table primary self.old.top) }
        ensures missing { result ≡ Err Missing → self.new ≡ self.old }
        ensures err { OnErr result (0 < length self.old.under → self.new ≡ self.old) }
        ensures top { self.new ≡ with_top self.new.top self.old }
    {
        let Some(old) = self.place(table, primary) else {
            return Err(SecFault::Missing);
        };
        if self.sessions() == 0 {
            self.move_row(alloc, old, table, key, primary, payer)?;
        } else {
            self.move_whole(alloc, old, table, key, primary, payer)?;
        }
        Ok(())
    }

    /// Takes a row of the table away.
    pub fn remove(&mut self, alloc: Global, table: TableKey, primary: u64) -> Result<(), SecFault>
        requires above { IsAbove 1 self.old }
        ensures granted { OnOk result (IsSome (index_row table primary self.old.top)) }
        ensures ok { OnOk result (self.new ≡ with_top (without_index_row K.cmp table primary self.old.top) self.old) }
        ensures fault { IfErr result (IsChangeFault table primary self.old.top) }
        ensures err { OnErr result (self.new ≡ self.old) }
    {
        let Some(gone) = self.place(table, primary) else {
            return Err(SecFault::Missing);
        };
        self.take_row(alloc, table, primary, gone)?;
        self.forget_hint(alloc, table, primary);
        Ok(())
    }

    // Moves the row, which stands at the place. After a refusal nothing is said of the newest rows.
    fn move_row(
        &mut self,
        alloc: Global,
        old: IndexKey<K>,
        table: TableKey,
        key: K,
        primary: u64,
        payer: Name,
    ) -> Result<(), AllocError>
        requires above { IsAbove 1 self.old }
        requires there { option_map (λ e. e.0) (index_row table primary self.old.top) ≡ Some old }
        ensures ok { OnOk result (self.new ≡ with_top (moved K.cmp table key primary payer self.old.top) self.old) }
        ensures top { self.new ≡ with_top self.new.top self.old }
    {
        self.take_row(alloc, table, primary, old)?;
        self.put_row(alloc, table, key, primary, payer)
    }

    // Moves the row, or leaves all as it was: what a refusal leaves half done is taken back with a session inside.
    fn move_whole(
        &mut self,
        alloc: Global,
        old: IndexKey<K>,
        table: TableKey,
        key: K,
        primary: u64,
        payer: Name,
    ) -> Result<(), AllocError>
        requires session { 0 < length self.old.under }
        requires above { IsAbove 1 self.old }
        requires there { option_map (λ e. e.0) (index_row table primary self.old.top) ≡ Some old }
        ensures ok { OnOk result (self.new ≡ with_top (moved K.cmp table key primary payer self.old.top) self.old) }
        ensures err { OnErr result (self.new ≡ self.old) }
    {
        if self.revision() >= LAST_REVISION {
            return Err(AllocError);
        }
        self.begin(alloc)?;
        match self.move_row(alloc, old, table, key, primary, payer) {
            Ok(()) => {
                self.squash();
                Ok(())
            }
            Err(refused) => {
                self.undo();
                Err(refused)
            }
        }
    }

    // Puts a row where the table has none with its primary key: first its hint, which changes no row, and then the row.
    fn put_row(
        &mut self,
        alloc: Global,
        table: TableKey,
        key: K,
        primary: u64,
        payer: Name,
    ) -> Result<(), AllocError>
        requires above { IsAbove 1 self.old }
        requires free { IsNone (index_row table primary self.old.top) }
        ensures ok { OnOk result (self.new ≡ with_top (with_index_row K.cmp table key primary payer self.old.top) self.old) }
        ensures err { OnErr result (self.new ≡ self.old) }
    {
        orders_hold::<K>();
        key.is_within();
        let place = IndexKey {
            table,
            key,
            primary,
        };
        let parts = &mut self.kept.inner;
        set_hint(parts, alloc, RowKey { table, primary }, Some(key))?;
        set_row(parts, alloc, place, Some(payer))
    }

    // Takes away the row that the table has with the primary key, which stands at the place.
    fn take_row(
        &mut self,
        alloc: Global,
        table: TableKey,
        primary: u64,
        place: IndexKey<K>,
    ) -> Result<(), AllocError>
        requires above { IsAbove 1 self.old }
        requires there { option_map (λ e. e.0) (index_row table primary self.old.top) ≡ Some place }
        ensures ok { OnOk result (self.new ≡ with_top (without_index_row K.cmp table primary self.old.top) self.old) }
        ensures free { OnOk result (IsNone (index_row table primary self.new.top)) }
        ensures err { OnErr result (self.new ≡ self.old) }
    {
        orders_hold::<K>();
        let parts = &mut self.kept.inner;
        set_row(parts, alloc, place, None)
    }

    // Forgets the hint of a row that is gone. A hint that stays does no harm.
    fn forget_hint(&mut self, alloc: Global, table: TableKey, primary: u64)
        requires above { IsAbove 1 self.old }
        requires free { IsNone (index_row table primary self.old.top) }
        ensures { self.new ≡ self.old }
    {
        orders_hold::<K>();
        let parts = &mut self.kept.inner;
        let _forgotten = set_hint(parts, alloc, RowKey { table, primary }, None);
    }
}

// Sets under which secondary key to look for the row, or forgets it.
fn set_hint<K: SecKey>(
    parts: &mut Parts<K>,
    alloc: Global,
    row: RowKey,
    key: Option<K>,
) -> Result<(), AllocError>
    requires above { IsAbove 1 parts.old }
    ensures ok { OnOk result (parts.new ≡ with_top (changed row_order parts.old.top.0 row key, parts.old.top.1) parts.old) }
    ensures err { OnErr result (parts.new ≡ parts.old) }
{
    set_entry(alloc, &mut parts.first, row, key)
}

// Puts the row, or takes it away.
fn set_row<K: SecKey>(
    parts: &mut Parts<K>,
    alloc: Global,
    place: IndexKey<K>,
    payer: Option<Name>,
) -> Result<(), AllocError>
    requires above { IsAbove 1 parts.old }
    ensures ok { OnOk result (parts.new ≡ with_top (parts.old.top.0, changed (index_order K.cmp) parts.old.top.1 place payer) parts.old) }
    ensures err { OnErr result (parts.new ≡ parts.old) }
{
    set_entry(alloc, &mut parts.second, place, payer)
}
