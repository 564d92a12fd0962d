use ante_pack::Name;
use thiserror::Error;

/// Why a call on tables is refused.
#[derive(Clone, Copy, Debug, PartialEq, Eq, Error)]
pub enum DbFault {
    #[error("out of memory")]
    OutOfMemory,
    /// No live row was met with this number, or no table with this end iterator.
    #[error("bad iterator {value}")]
    BadIterator { value: i32 },
    /// The table has a row of this kind with this primary key.
    #[error("primary key {primary} exists")]
    KeyExists { primary: u64 },
    /// The row is of another contract.
    #[error("row of another contract")]
    NotOwner { code: Name },
    /// The run may not bill this account.
    #[error("account may not be billed")]
    BadPayer { account: Name },
    #[error("unknown account")]
    UnknownAccount { name: Name },
    /// The run only reads.
    #[error("write in a run that only reads")]
    WriteRefused,
    /// All accounts together would use too much, or the table would have too many rows.
    #[error("memory of all accounts exceeded")]
    RamTotal,
}
