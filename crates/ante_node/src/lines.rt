ghost use Rattle.std.specs.Prelude.{◌≡◌, ◌+◌, ◌<◌, ◌≤◌, ◌^◌, List, ℕ, length, Err};
ghost use Rattle.std.specs.List.{position_or_len};
ghost use Rattle.hex.specs.Hex.{decode_of};
ghost use Rattle.ante_node.specs.Requests.{Answers, input_fault};
ghost use Rattle.ante_node.specs.declared.fault.InputKind.TheVariants as kinds;
ghost use Rattle.ante_node.specs.Lines.{IsHexFault, bytes_in, decoded, is_newline, job_in, line_at, line_end};

use crate::failure::AnswerFailure;
use crate::fault::{InputFault, InputKind};
use crate::limits::{ITEM_LIMIT, LINE_LIMIT};
use ante_pack::Bytes;
use ante_types::ReadJob;
use hex::FromHexError;
use std::alloc::Global;
use std::marker::Model;

/// A line of an input: the place of its first character, and its characters, without the newline.
#[derive(Debug, Drop)]
pub struct Line<'a> {
    at: usize,
    text: &'a [u8],
}

impl<'a> Model for Line<'a> {
    ghost use Rattle.std.specs.Prelude.{◌+◌, ◌<◌, ◌^◌, length};
    ghost use Rattle.ante_node.specs.Lines.{TextLine};

    ghost Value = { TextLine };

    ghost view = { λ l. record { at = l.at; text = l.text.now } };

    ghost invariant = { λ l. l.at + length l.text.now < 2 ^ 64 };
}

fn line_len(text: &[u8]) -> usize
    ensures place { result ≡ position_or_len is_newline text.now }
    ensures within { result ≤ length text.now }
{
    for (i, character) in text.iter().enumerate() {
        if *character == b'\n' {
            return i;
        }
    }
    text.len()
}

/// A fault of the input at a place.
pub fn input_failure(at: u64, kind: InputKind) -> AnswerFailure
    ensures { result ≡ AnswerFailure.Input (input_fault at kind) }
{
    AnswerFailure::Input(InputFault { at, kind })
}

/// The fault of a character of a line that begins at a place.
fn bad_digit(at: usize, index: usize) -> AnswerFailure
    requires { at + index < 2 ^ 64 }
    ensures { result ≡ AnswerFailure.Input (input_fault (at + index) kinds.Hex) }
{
    input_failure((at + index) as u64, InputKind::Hex)
}

/// The place of the fault that `hex::decode` answered for the text of a line that begins at a place.
fn hex_failure(at: usize, text: &[u8], fault: FromHexError) -> AnswerFailure
    requires within { at + length text.now < 2 ^ 64 }
    requires fault { IsHexFault text.now fault }
    ensures { Answers {A = List ℕ} (Err result) (decoded (record { at = at; text = text.now }) (decode_of text.now)) ⊥ }
{
    match fault {
        FromHexError::OutOfMemory => AnswerFailure::OutOfMemory,
        FromHexError::InvalidHexCharacter { index, .. } => bad_digit(at, index),
        FromHexError::OddLength => bad_digit(at, text.len()),
        FromHexError::InvalidStringLength => bad_digit(at, text.len()),
    }
}

impl<'a> Line<'a> {
    /// The line that begins at a place of the input.
    pub fn at(input: &'a [u8], at: usize) -> Line<'a>
        requires { at ≤ length input.now }
        ensures { result ≡ line_at at input.now }
    {
        let (_, rest) = input.split_at(at);
        let (text, _) = rest.split_at(line_len(rest));
        Line { at, text }
    }

    /// The place past its last character.
    pub fn end(&self) -> usize
        ensures { result ≡ line_end self.now }
    {
        self.at + self.text.len()
    }

    /// The bytes that it spells in hex.
    fn bytes(&self, alloc: Global) -> Result<Bytes, AnswerFailure>
        ensures { Answers result (bytes_in self.now) ⊥ }
    {
        if self.text.len() > LINE_LIMIT {
            return Err(input_failure(ITEM_LIMIT, InputKind::Long));
        }
        match hex::decode(alloc, self.text) {
            Ok(bytes) => Ok(Bytes::from_vec(bytes)),
            Err(fault) => Err(hex_failure(self.at, self.text, fault)),
        }
    }

    /// The transaction that it spells.
    pub fn job(&self, alloc: Global) -> Result<ReadJob, AnswerFailure>
        ensures { Answers result (job_in self.now) ⊥ }
    {
        let packed = self.bytes(alloc)?;
        Ok(ReadJob::new(alloc, packed)?)
    }
}
