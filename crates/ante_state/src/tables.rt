use ante_pack::{Bytes, Name, TableKey};

/// Where a primary row stands: its table first, and then its primary key.
#[derive(Clone, Copy, Debug, PartialEq, Eq, PartialOrd, Ord)]
pub struct RowKey {
    pub table: TableKey,
    pub primary: u64,
}

/// Where a row of a secondary index stands: its table first, then its secondary key, and then its primary key.
#[derive(Clone, Copy, Debug, PartialEq, Eq, PartialOrd, Ord)]
pub struct IndexKey<K> {
    pub table: TableKey,
    pub key: K,
    pub primary: u64,
}

/// A table object: who pays for it, and how many rows of all kinds the table has.
#[derive(Clone, Copy, Debug, PartialEq, Eq)]
pub struct TableRow {
    pub payer: Name,
    pub count: u32,
}

/// A primary row: who pays for it, and its bytes.
#[derive(Debug, Drop)]
pub struct PrimaryRow {
    pub payer: Name,
    pub bytes: Bytes,
}
