//! What the entries of the state are billed, in bytes, and the most that is let in. `specs/Billing.antt` names the same numbers,
//! and each function that takes one of these says so by the name there.

/// An account, beside its code and its ABI.
pub const ACCOUNT_SIZE: u128 = 2_720;

/// Each byte of an account's code is billed so many times.
pub const CODE_FACTOR: u128 = 10;

/// A permission, beside its packed authority.
pub const PERMISSION_SIZE: u128 = 320;

/// A link.
pub const LINK_SIZE: u128 = 160;

/// A table object.
pub const TABLE_SIZE: u128 = 112;

/// A primary row, beside its bytes.
pub const ROW_SIZE: u128 = 112;

/// A row of a secondary index of 64 bits.
pub const INDEX64_SIZE: u128 = 128;

/// A row of a secondary index of 128 bits.
pub const INDEX128_SIZE: u128 = 136;

/// A row of a secondary index of 256 bits.
pub const INDEX256_SIZE: u128 = 152;

/// The most bytes that all accounts may use together.
pub const MOST_USAGE: u64 = 4_611_686_018_427_387_904;

/// The most rows of a table.
pub const MOST_ROWS: u32 = 4_294_967_295;
