//! Names, keys and authorities, and the packed fields that all binary forms of the chain are made of.
#![tactic(auto)]

mod authority;
mod fault;
pub mod laws;
mod lists;
mod names;
mod packed;
mod reader;
mod writer;

pub use authority::{
    Authority, KeyWeight, Level, LevelWeight, WaitWeight, read_authority, write_authority,
};
pub use fault::{PackFault, ReadFault};
pub use lists::{Bytes, Seq};
pub use names::{Key256, Name, NameFault, TableKey, name_from_text, name_text, names_are_numbers};
pub use packed::{
    Packed, read_seq, read_seq_fields, read_whole, write_seq, write_seq_fields, write_whole,
};
pub use reader::PackReader;
pub use writer::PackWriter;

/// A SHA-256 digest.
pub type Digest = [u8; 32];

/// A public key: a kind byte, 0 or 1, and 33 bytes.
pub type Key = [u8; 34];
