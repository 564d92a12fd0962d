ghost use Rattle.std.specs.Prelude.{◌≡◌, ℕ, ◌/◌, ◌%◌, ◌^◌, ◌<◌, ◌≤◌, take, slice_index, position, ◌==◌};
ghost use Rattle.ante_pack.specs.Names.{IsNameText, NamesAreNumbers, alphabet, choices, name_of_text, worth};
ghost use Rattle.ante_pack.specs.Names as names;

use std::error::Error;
use std::fmt;

/// A name of an account, an action, a table or a permission, as its number: up to twelve characters of five bits each
/// from the top, and a thirteenth of four bits.
#[derive(Clone, Copy, Debug, PartialEq, Eq, PartialOrd, Ord, Hash)]
pub struct Name(pub u64);

/// Where a table stands: the contract that keeps it, the scope within the contract, and its name.
#[derive(Clone, Copy, Debug, PartialEq, Eq, PartialOrd, Ord, Hash)]
pub struct TableKey {
    pub code: Name,
    pub scope: Name,
    pub table: Name,
}

/// A 256-bit key as two words, which are only compared, the first one first.
#[derive(Clone, Copy, Debug, PartialEq, Eq, PartialOrd, Ord, Hash)]
pub struct Key256 {
    pub first: u128,
    pub second: u128,
}

/// Why a text is no name: the first of these that holds.
#[derive(Clone, Copy, Debug, PartialEq, Eq)]
pub enum NameFault {
    /// More than thirteen bytes.
    TooLong,
    /// The byte at `at`, counted from 0, is the first outside the alphabet.
    BadChar { at: usize },
    /// The thirteenth character comes after `j`, and doesn't fit in four bits.
    BadLast,
}

impl fmt::Display for NameFault {
    fn fmt<W: fmt::Write>(&self, f: &mut fmt::Formatter<W>) -> fmt::Result {
        match self {
            NameFault::TooLong => f.write_str("a name has at most thirteen characters"),
            NameFault::BadChar { at } => write!(f, "the character at byte {at} can't be in a name"),
            NameFault::BadLast => f.write_str("the thirteenth character comes after `j`"),
        }
    }
}

impl Error for NameFault {}

/// The characters of names, in the order of their numbers.
const ALPHABET: [u8; 32] = *b".12345abcdefghijklmnopqrstuvwxyz";

/// Reads a name. Dots at the end don't count, and the empty text is the name 0.
pub fn name_from_text(text: &str) -> Result<Name, NameFault>
    ensures { result ≡ name_of_text text.now }
{
    let bytes = text.as_bytes();
    if bytes.len() > 13 {
        return Err(NameFault::TooLong);
    }
    let mut number = 0;
    for (at, byte) in bytes.iter().enumerate() {
        let Some(symbol) = symbol_of(*byte) else {
            return Err(NameFault::BadChar { at });
        };
        let choices = choices_at(at);
        if symbol >= choices {
            return Err(NameFault::BadLast);
        }
        number += (symbol as u64) << shift_of(at);
    }
    Ok(Name(number))
}

/// The text of a name and its length. Dots follow the text.
pub fn name_text(name: Name) -> ([u8; 13], usize)
    ensures text { take result.1 result.0 ≡ names.name_text name.0 }
    ensures name { IsNameText (take result.1 result.0) name.0 }
    ensures within { result.1 ≤ 13 }
    ensures dots { (k : ℕ) → result.1 ≤ k → k < 13 → slice_index result.0 k ≡ 46 }
{
    let mut text = [b'.'; 13];
    let mut len = 0;
    for place in 0..text.len() {
        let symbol = symbol_at(name.0, place);
        text[place] = ALPHABET[symbol];
        if symbol != 0 {
            len = place + 1;
        }
    }
    (text, len)
}

/// Each number has exactly one name text, which is read as that number. The proof is all that this is for.
pub fn names_are_numbers()
    ensures { NamesAreNumbers }
{}

/// The number of a character of the alphabet.
fn symbol_of(byte: u8) -> Option<usize>
    ensures { result ≡ position (λ x. x == byte) alphabet }
{
    ALPHABET.iter().position(|symbol| *symbol == byte)
}

/// The number of the character at a place, counted from 0.
fn symbol_at(number: u64, place: usize) -> usize
    requires { place < 13 }
    ensures { result ≡ number / worth place % choices place }
{
    (number >> shift_of(place)) as usize % choices_at(place)
}

/// How many characters may stand at a place.
fn choices_at(place: usize) -> usize
    requires { place < 13 }
    ensures { result ≡ choices place }
{
    if place < 12 { 32 } else { 16 }
}

/// How many bits stand below the character at a place.
fn shift_of(place: usize) -> u32
    requires { place < 13 }
    ensures worth { 2 ^ result ≡ worth place }
    ensures within { result < 64 }
{
    if place < 12 { 59 - 5 * place as u32 } else { 0 }
}
