ghost use Rattle.std.specs.Prelude.{◌≡◌};
ghost use Rattle.ante_store.specs.declared.change.WriteError.TheVariants.{OutOfMemory};

use ante_pack::{Bytes, Digest, Key256, Level, Name, TableKey};
use ante_state::{AccountRow, PermissionRow};
use std::alloc::AllocError;
use thiserror::Error;

/// One change of the chain's state.
#[derive(Debug, Drop)]
pub enum Change {
    /// A new row, and with the first row of a table its table object, both paid by the payer.
    StoreRow {
        table: TableKey,
        primary: u64,
        payer: Name,
        bytes: Bytes,
    },
    /// Other bytes and another payer for a row that is there.
    UpdateRow {
        table: TableKey,
        primary: u64,
        payer: Name,
        bytes: Bytes,
    },
    /// A row goes, and with the last row of a table its table object.
    RemoveRow {
        table: TableKey,
        primary: u64,
    },
    /// A new row of the secondary index of 64 bits, under the same rules as a primary row.
    StoreIndex64 {
        table: TableKey,
        key: u64,
        primary: u64,
        payer: Name,
    },
    /// Another secondary key and another payer for a row that is there.
    UpdateIndex64 {
        table: TableKey,
        key: u64,
        primary: u64,
        payer: Name,
    },
    RemoveIndex64 {
        table: TableKey,
        primary: u64,
    },
    /// A new row of the secondary index of 128 bits, under the same rules as a primary row.
    StoreIndex128 {
        table: TableKey,
        key: u128,
        primary: u64,
        payer: Name,
    },
    /// Another secondary key and another payer for a row that is there.
    UpdateIndex128 {
        table: TableKey,
        key: u128,
        primary: u64,
        payer: Name,
    },
    RemoveIndex128 {
        table: TableKey,
        primary: u64,
    },
    /// A new row of the secondary index of 256 bits, under the same rules as a primary row.
    StoreIndex256 {
        table: TableKey,
        key: Key256,
        primary: u64,
        payer: Name,
    },
    /// Another secondary key and another payer for a row that is there.
    UpdateIndex256 {
        table: TableKey,
        key: Key256,
        primary: u64,
        payer: Name,
    },
    RemoveIndex256 {
        table: TableKey,
        primary: u64,
    },
    SetAccount {
        name: Name,
        row: AccountRow,
    },
    SetPermission {
        level: Level,
        row: Option<PermissionRow>,
    },
    SetLink {
        account: Name,
        code: Name,
        action: Name,
        requirement: Option<Name>,
    },
    /// The memory that an account may use; -1 is no limit.
    SetQuota {
        account: Name,
        quota: i64,
    },
    SetRecent {
        expiration: u32,
        id: Digest,
        there: bool,
    },
    SetReference {
        low: u16,
        id: Digest,
    },
}

/// Why a change isn't made.
#[derive(Clone, Copy, Debug, PartialEq, Eq, Error)]
pub enum WriteError {
    #[error("out of memory")]
    OutOfMemory,
    /// Nothing may be written here.
    #[error("nothing may be written here")]
    WriteRefused,
    /// All accounts together would use more than 2^62 bytes, or a table would have more than 4,294,967,295 rows.
    #[error("all accounts together would use too much memory, or the table would have too many rows")]
    RamTotal,
    /// The row isn't there.
    #[error("the row is not there")]
    Missing,
    /// The row is there already.
    #[error("the row is there already")]
    Exists,
}

impl From<AllocError> for WriteError {
    ghost from_gives = { λ _ e. e ≡ OutOfMemory };

    fn from(_: AllocError) -> WriteError {
        WriteError::OutOfMemory
    }
}
