// What the entries of the state are billed.
ghost use Rattle.std.specs.Prelude.{◌≡◌, ◌+◌, [], ◌∷◌, ◌++◌, length};
ghost use Rattle.std.specs.FinMap.Entries.{find};
ghost use Rattle.ante_state.specs.Orders.{name_order, level_order, link_order};
ghost use Rattle.ante_state.specs.Billing.{row_size};
ghost use Rattle.ante_objects.specs.Objects.{link_key, requirement_of};
ghost use Rattle.ante_types.specs.World.{account_bills, permission_bills, link_bills};
ghost use Rattle.ante_store.specs.Bills.{bills_at, opening_bills, closing_bills};

use crate::maps::objects_of;
use crate::parts::Parts;
use crate::sizes::authority_size;
use ante_pack::{Bytes, Level, Name};
use ante_state::billing::{
    ACCOUNT_SIZE, CODE_FACTOR, LINK_SIZE, PERMISSION_SIZE, ROW_SIZE, TABLE_SIZE,
};
use ante_state::{AccountRow, PermissionRow, TableRow};
use std::marker::Model;

/// A payer and a size in bytes. Sizes and their sums can't overflow 128 bits.
pub(crate) type Bill = (Name, u128);

/// Two bills at most. Contracts see a list.
#[derive(Drop)]
pub(crate) struct Bills {
    items: [Bill; 2],
    count: usize,
}

impl Model for Bills {
    ghost use Rattle.std.specs.Prelude.{ℕ, List, take, ◌≤◌};
    ghost use Rattle.ante_pack.specs.declared.names.Name.{Name};

    ghost Value = { List (Name × ℕ) };

    ghost view = { λ s. take s.count s.items };

    ghost invariant = { λ s. s.count ≤ 2 };
}

impl Bills {
    pub(crate) fn none() -> Bills
        ensures { result ≡ [] }
    {
        Bills {
            items: [(Name(0), 0); 2],
            count: 0,
        }
    }

    pub(crate) fn one(bill: Bill) -> Bills
        ensures { result ≡ bill ∷ [] }
    {
        Bills {
            items: [bill, bill],
            count: 1,
        }
    }

    pub(crate) fn two(first: Bill, second: Bill) -> Bills
        ensures { result ≡ first ∷ second ∷ [] }
    {
        Bills {
            items: [first, second],
            count: 2,
        }
    }

    pub(crate) fn as_slice(&self) -> &[Bill]
        ensures { result.now ≡ self.now }
    {
        &self.items[..self.count]
    }
}

/// The bill of a row of so many bytes.
pub(crate) fn row_bill(payer: Name, bytes: &Bytes) -> Bill
    ensures { result ≡ (payer, row_size + length bytes.now) }
{
    (payer, ROW_SIZE + bytes.len() as u128)
}

/// The row's bill, and with the first row of a table that of the table object.
pub(crate) fn with_opening(table: Option<TableRow>, payer: Name, row: Bill) -> Bills
    ensures { result ≡ opening_bills table payer ++ row ∷ [] }
{
    match table {
        None => Bills::two((payer, TABLE_SIZE), row),
        Some(_) => Bills::one(row),
    }
}

/// The row's bill, and with the last row of a table that of the table object.
pub(crate) fn with_closing(table: Option<TableRow>, row: Bill) -> Bills
    ensures { result ≡ closing_bills table ++ row ∷ [] }
{
    match table {
        Some(table) => {
            if table.count <= 1 {
                Bills::two((table.payer, TABLE_SIZE), row)
            } else {
                Bills::one(row)
            }
        }
        None => Bills::one(row),
    }
}

/// An account's bills.
pub(crate) fn of_account(name: Name, row: &AccountRow) -> Bills
    ensures { result ≡ account_bills (name, row.now) }
{
    let held = CODE_FACTOR * row.code.len() as u128 + row.abi.len() as u128;
    Bills::two((row.payer, ACCOUNT_SIZE), (name, held))
}

/// A permission's bill.
pub(crate) fn of_permission(level: Level, row: &PermissionRow) -> Bills
    ensures { result ≡ permission_bills (level, row.now) }
{
    Bills::one((
        level.actor,
        PERMISSION_SIZE + authority_size(&row.authority),
    ))
}

/// The bills of the account as it stands.
pub(crate) fn removed_account(parts: &Parts, name: Name) -> Bills
    ensures { result ≡ bills_at account_bills name (find name_order name parts.now.top.objects.accounts) }
{
    match objects_of(parts).account(name) {
        Some(row) => of_account(name, row),
        None => Bills::none(),
    }
}

/// The bill of the permission as it stands.
pub(crate) fn removed_permission(parts: &Parts, level: Level) -> Bills
    ensures { result ≡ bills_at permission_bills level (find level_order level parts.now.top.objects.permissions) }
{
    match objects_of(parts).permission(level) {
        Some(row) => of_permission(level, row),
        None => Bills::none(),
    }
}

/// The bill of the permission as it will stand, if it will.
pub(crate) fn added_permission(level: Level, row: &Option<PermissionRow>) -> Bills
    ensures { result ≡ bills_at permission_bills level row.now }
{
    match row {
        Some(row) => of_permission(level, row),
        None => Bills::none(),
    }
}

/// The bill of the link as it stands.
pub(crate) fn removed_link(parts: &Parts, account: Name, code: Name, action: Name) -> Bills
    ensures { result ≡ bills_at link_bills (link_key (account, code, action)) (requirement_of (account, code, action) parts.now.top.objects) }
{
    let requirement = objects_of(parts).link(account, code, action);
    of_link(account, code, action, requirement)
}

/// The bill of a link, where it stands.
pub(crate) fn of_link(account: Name, code: Name, action: Name, requirement: Option<Name>) -> Bills
    ensures { result ≡ bills_at link_bills (link_key (account, code, action)) requirement }
{
    match requirement {
        Some(_) => Bills::one((account, LINK_SIZE)),
        None => Bills::none(),
    }
}
