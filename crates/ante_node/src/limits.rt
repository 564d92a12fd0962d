//! The limits of what a request may ask, which `specs/Limits.antt` defines.

/// How many packed bytes an item may have.
pub const ITEM_LIMIT: u64 = 16_777_216;

/// How many characters a line may have: two for each byte of an item.
pub const LINE_LIMIT: usize = 33_554_432;

/// How many characters are read of an input: a line of the greatest length, its newline, and a character too many.
pub const INPUT_LIMIT: usize = 33_554_434;
