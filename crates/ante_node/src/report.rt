ghost use Rattle.std.specs.Prelude.{◌≡◌, IfOk};
ghost use Rattle.ante_base.specs.Faults.{Rose};
ghost use Rattle.ante_node.specs.Ends.{Delivers, fault_line, input_line, kind_text, words_line};

use crate::fault::{InputFault, InputKind, NodeFault, RequestFault};
use ante_base::{Sink, SinkFailed, write_all};
use ante_pack::Bytes;
use itoa::Buffer;
use std::alloc::{AllocError, Global};

fn kind_text(kind: InputKind) -> &'static [u8]
    ensures { result.now ≡ kind_text kind }
{
    match kind {
        InputKind::Hex => b"hex",
        InputKind::More => b"more",
        InputKind::Long => b"long",
        InputKind::Short => b"short",
        InputKind::Varuint => b"varuint",
        InputKind::KeyKind => b"keykind",
        InputKind::Trailing => b"trailing",
    }
}

/// The line that names a word that isn't accepted.
#[tactic(auto, unfolding(crate::specs::Ends::words_line))]
fn words_line(alloc: Global, at: u64) -> Result<Bytes, AllocError>
    ensures { IfOk result (λ line. line ≡ words_line at) }
{
    let mut buffer = Buffer::new();
    let mut line = Bytes::new(alloc);
    line.append(alloc, b"words ")?;
    line.append(alloc, buffer.format(at).as_bytes())?;
    line.append(alloc, b"\n")?;
    Ok(line)
}

/// The line that names a fault of the input.
#[tactic(auto, unfolding(crate::specs::Ends::input_line))]
fn input_line(alloc: Global, fault: InputFault) -> Result<Bytes, AllocError>
    ensures { IfOk result (λ line. line ≡ input_line fault) }
{
    let mut buffer = Buffer::new();
    let mut line = Bytes::new(alloc);
    line.append(alloc, b"input ")?;
    line.append(alloc, buffer.format(fault.at).as_bytes())?;
    line.append(alloc, b" ")?;
    line.append(alloc, kind_text(fault.kind))?;
    line.append(alloc, b"\n")?;
    Ok(line)
}

/// The line that names a fault of a request.
pub fn fault_line(alloc: Global, fault: RequestFault) -> Result<Bytes, AllocError>
    ensures { IfOk result (λ line. line ≡ fault_line fault) }
{
    match fault {
        RequestFault::Words { at } => words_line(alloc, at),
        RequestFault::Input(fault) => input_line(alloc, fault),
    }
}

/// Writes a text. Answers `whole` where all of it was written, and `cut` where the sink failed before.
pub fn deliver<S: Sink>(out: &mut S, text: &[u8], whole: NodeFault, cut: NodeFault) -> NodeFault
    ensures { Delivers text.now whole cut result (S.written out.old) (S.written out.new) (Rose (S.faults out.old) (S.faults out.new)) }
{
    match write_all(out, text) {
        Ok(()) => whole,
        Err(SinkFailed) => cut,
    }
}
