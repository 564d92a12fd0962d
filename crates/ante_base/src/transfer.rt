ghost use Rattle.std.specs.Prelude.{◌≡◌, ℕ, ◌≤◌, length, false, IsTrue, OnOk, OnErr, IfOk, min};
ghost use Rattle.ante_base.specs.Faults.{Rose};
ghost use Rattle.ante_base.specs.Source.{TakesAtMost, piece_limit};
ghost use Rattle.std.specs.Io.KnownBytes.{Appends, Consumes, IsAtEnd};
ghost use Rattle.ante_base.specs.Sink.{AppendsFront};

use crate::failure::{ReadFailure, SinkFailed};
use crate::sink::{Put, Sink};
use crate::source::{Got, Source};
use std::alloc::Global;

/// How many bytes one read asks for at the most.
const PIECE_LIMIT: usize = 4096;

/// Writes all the bytes, in as many writes as it takes. After an error a front of them is written.
pub fn write_all<S: Sink>(out: &mut S, bytes: &[u8]) -> Result<(), SinkFailed>
    ensures ok { OnOk result (Appends (S.written out.old) (S.written out.new) bytes.now) }
    ensures err { OnErr result (AppendsFront (S.written out.old) (S.written out.new) bytes.now) }
    ensures rose { OnErr result (Rose (S.faults out.old) (S.faults out.new)) }
    ensures later { S.faults out.old ≤ S.faults out.new }
{
    let mut at: usize = 0;
    while at < bytes.len() {
        let (_, rest) = bytes.split_at(at);
        match out.write(rest) {
            Put::Wrote(count) => at += count,
            Put::Failed => return Err(SinkFailed),
        }
    }
    Ok(())
}

/// The front of an input, and whether the input ended there.
#[derive(Debug, Drop)]
pub struct Front {
    pub bytes: Vec<u8>,
    pub ended: bool,
}

/// How many of the bytes that are still wanted one read asks for.
fn piece_len(wanted: usize) -> usize
    ensures { result ≡ min wanted piece_limit }
{
    if wanted < PIECE_LIMIT {
        wanted
    } else {
        PIECE_LIMIT
    }
}

/// Reads until the input ends or `most` bytes were read. Memory grows with the bytes that come, not with `most`. After an
/// error what was read is lost.
pub fn read_front<R: Source>(
    alloc: Global,
    source: &mut R,
    most: usize,
) -> Result<Front, ReadFailure>
    ensures taken { IfOk result (λ front. Consumes (R.left source.old) (R.left source.new) front.bytes.items) }
    ensures within { IfOk result (λ front. length front.bytes.items ≤ most) }
    ensures ended { IfOk result (λ front. IsTrue front.ended → IsAtEnd (R.left source.new)) }
    ensures cut { IfOk result (λ front. front.ended ≡ false → length front.bytes.items ≡ most) }
    ensures failed { result ≡ Err ReadFailure.Failed → Rose (R.faults source.old) (R.faults source.new) }
    ensures bounded { TakesAtMost most (R.left source.old) (R.left source.new) }
    ensures later { R.faults source.old ≤ R.faults source.new }
{
    let mut bytes = Vec::new(alloc);
    let mut piece = [0; PIECE_LIMIT];
    while bytes.len() < most {
        let room = piece_len(most - bytes.len());
        let window = &mut piece[..room];
        match source.read(window) {
            Got::Bytes(count) => {
                let (front, _) = window.split_at(count);
                bytes.extend_from_slice(front)?;
            }
            Got::End => return Ok(Front { bytes, ended: true }),
            Got::Failed => return Err(ReadFailure::Failed),
        }
    }
    Ok(Front {
        bytes,
        ended: false,
    })
}
