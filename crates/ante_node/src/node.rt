ghost use Rattle.std.specs.Prelude.{◌≡◌, ◌⊎◌, ℕ, [], map, string_bytes, Err, IfOk};
ghost use Rattle.std.specs.Io.KnownBytes.{Appends, IsAtEnd};
ghost use Rattle.ante_base.specs.Faults.{Rose};
ghost use Rattle.ante_base.specs.Source.{TakesAtMost};
ghost use Rattle.ante_node.specs.Ask.{HasAnswered};
ghost use Rattle.ante_node.specs.Commands.{ComesTo, IsBadWord, MadeOf};
ghost use Rattle.ante_node.specs.Ends.{EndsWith, HasWritten, RunEnds, status_of};
ghost use Rattle.ante_node.specs.Limits.{input_limit};
ghost use Rattle.ante_node.specs.Requests.{Answers, requested};

use crate::ask::ask;
use crate::command::{Command, read_command};
use crate::failure::AnswerFailure;
use crate::fault::{NodeEnd, NodeFault, RequestFault};
use crate::report::{deliver, fault_line};
use ante_base::{Sink, Source};
use ante_pack::{Bytes, Seq};
use ante_types::Head;
use std::alloc::Global;

/// How a run of a command that waits for nobody ended.
#[derive(Debug, Drop)]
pub struct OfflineEnd {
    /// The status of the program.
    pub status: u8,
    pub fault: NodeFault,
    /// The blocks that were applied: none under `ask`.
    pub applied: Seq<Head>,
}

fn status_of(fault: NodeFault) -> u8
    ensures { result ≡ status_of fault }
{
    match fault {
        NodeFault::Nothing => 0,
        NodeFault::BadWords { .. } => 2,
        NodeFault::BadInput { .. } => 3,
        NodeFault::SourceFault => 4,
        NodeFault::SinkFault => 5,
        NodeFault::OutOfMemory => 7,
    }
}

/// The text that a command answers to its input.
fn answer<R: Source>(alloc: Global, command: Command, files: &mut R) -> Result<Bytes, AnswerFailure>
    ensures made { MadeOf command (R.left files.old) (λ made. Answers result made (Rose (R.faults files.old) (R.faults files.new))) }
    ensures ended { IfOk result (λ _. IsAtEnd (R.left files.new)) }
    ensures bounded { TakesAtMost input_limit (R.left files.old) (R.left files.new) }
{
    match command {
        Command::Ask => ask(alloc, files),
    }
}

/// Names a fault of the request in a line.
fn refuse<S: Sink>(alloc: Global, out: &mut S, fault: RequestFault) -> NodeFault
    ensures { RunEnds result ⊥ (S.written out.old) (S.written out.new) (Rose (S.faults out.old) (S.faults out.new)) ⊥ (Err fault) }
{
    let blamed = NodeFault::from(fault);
    match fault_line(alloc, fault) {
        Ok(line) => deliver(out, line.as_slice(), blamed, blamed),
        Err(_) => NodeFault::OutOfMemory,
    }
}

/// Writes what a command makes of its input.
fn perform<R: Source, S: Sink>(
    alloc: Global,
    command: Command,
    files: &mut R,
    out: &mut S,
) -> NodeFault
    ensures ends { MadeOf command (R.left files.old) (λ made. RunEnds result (Rose (R.faults files.old) (R.faults files.new))
        (S.written out.old) (S.written out.new)
        (Rose (S.faults out.old) (S.faults out.new)) (IsAtEnd (R.left files.new)) (requested made)) }
    ensures bounded { TakesAtMost input_limit (R.left files.old) (R.left files.new) }
{
    match answer(alloc, command, files) {
        Ok(text) => deliver(
            out,
            text.as_slice(),
            NodeFault::Nothing,
            NodeFault::SinkFault,
        ),
        Err(AnswerFailure::Input(fault)) => refuse(alloc, out, RequestFault::Input(fault)),
        Err(AnswerFailure::SourceFault) => NodeFault::SourceFault,
        Err(AnswerFailure::OutOfMemory) => NodeFault::OutOfMemory,
    }
}

fn run<R: Source, S: Sink>(alloc: Global, words: &[String], files: &mut R, out: &mut S) -> NodeFault
    ensures ends { ComesTo (map string_bytes words.now) (R.left files.old) (RunEnds result (Rose (R.faults files.old) (R.faults files.new))
        (S.written out.old) (S.written out.new) (Rose (S.faults out.old) (S.faults out.new)) (IsAtEnd (R.left files.new))) }
    ensures bad_words { (at : ℕ) → IsBadWord (map string_bytes words.now) at → (result ≡ NodeFault.BadWords at) ⊎ (result ≡ NodeFault.OutOfMemory) }
    ensures untouched { (at : ℕ) → IsBadWord (map string_bytes words.now) at → files.new ≡ files.old }
    ensures bounded { TakesAtMost input_limit (R.left files.old) (R.left files.new) }
{
    match read_command(words) {
        Ok(command) => perform(alloc, command, files, out),
        Err(at) => refuse(alloc, out, RequestFault::Words { at }),
    }
}

/// Does what the words say, where that waits for nobody: `ask` reads one packed transaction in hex, perhaps with a newline
/// behind it, and writes the text of the trace that it gives on the built-in genesis, and a newline. Words or an input
/// that aren't accepted are named in a line.
pub fn run_offline<R: Source, S: Sink>(
    alloc: Global,
    words: &[String],
    files: &mut R,
    out: &mut S,
) -> OfflineEnd
    ensures status { result.status ≡ status_of result.fault }
    ensures applied { result.applied ≡ [] }

    // Which fault, and what was written.
    ensures fault { ComesTo (map string_bytes words.now) (R.left files.old)
        (EndsWith result.fault (Rose (R.faults files.old) (R.faults files.new)) (Rose (S.faults out.old) (S.faults out.new))) }
    ensures written { ComesTo (map string_bytes words.now) (R.left files.old)
        (HasWritten result.fault (S.written out.old) (S.written out.new) (Rose (S.faults out.old) (S.faults out.new))) }

    ensures ended { result.fault ≡ NodeFault.Nothing → IsAtEnd (R.left files.new) }

    // Words are refused exactly where they aren't accepted, and then the source stands as it was.
    ensures bad_words { (at : ℕ) → IsBadWord (map string_bytes words.now) at →
        (result.fault ≡ NodeFault.BadWords at) ⊎ (result.fault ≡ NodeFault.OutOfMemory) }
    ensures untouched { (at : ℕ) → IsBadWord (map string_bytes words.now) at → files.new ≡ files.old }
    ensures bounded { TakesAtMost input_limit (R.left files.old) (R.left files.new) }
{
    let fault = run(alloc, words, files, out);
    OfflineEnd {
        status: status_of(fault),
        fault,
        applied: Seq::new(alloc),
    }
}

/// Does what the words say. Each command of today waits for nobody, so it goes through `run_offline`, as words that aren't
/// accepted do.
pub fn run_node<R: Source, S: Sink>(
    alloc: Global,
    words: &[String],
    files: &mut R,
    out: &mut S,
) -> NodeEnd
    ensures status { result.status ≡ status_of result.fault }

    // The headline: where all went well, the input was read to its end, and what was written is the text of the trace that
    // its transaction gives alone on the built-in genesis.
    ensures answered { result.fault ≡ NodeFault.Nothing →
        IsAtEnd (R.left files.new) × HasAnswered (R.left files.old) (S.written out.old) (S.written out.new) }

    // Which fault, and what was written. A source or a sink is blamed only where its count of faults rose.
    ensures fault { ComesTo (map string_bytes words.now) (R.left files.old)
        (EndsWith result.fault (Rose (R.faults files.old) (R.faults files.new)) (Rose (S.faults out.old) (S.faults out.new))) }
    ensures written { ComesTo (map string_bytes words.now) (R.left files.old)
        (HasWritten result.fault (S.written out.old) (S.written out.new) (Rose (S.faults out.old) (S.faults out.new))) }

    // Words are refused exactly where they aren't accepted, and then the source stands as it was.
    ensures bad_words { (at : ℕ) → IsBadWord (map string_bytes words.now) at →
        (result.fault ≡ NodeFault.BadWords at) ⊎ (result.fault ≡ NodeFault.OutOfMemory) }
    ensures untouched { (at : ℕ) → IsBadWord (map string_bytes words.now) at → files.new ≡ files.old }

    ensures bounded { TakesAtMost input_limit (R.left files.old) (R.left files.new) }
{
    let end = run_offline(alloc, words, files, out);
    NodeEnd {
        status: end.status,
        fault: end.fault,
    }
}
