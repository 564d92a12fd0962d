ghost use Rattle.std.specs.Prelude.{◌≡◌, ◌≤◌, ℕ, List, IfOk};
ghost use Rattle.std.specs.Io.KnownBytes.{IsAtEnd};
ghost use Rattle.ante_base.specs.Faults.{Rose};
ghost use Rattle.ante_base.specs.Source.{TakesAtMost};
ghost use Rattle.ante_node.specs.Ask.{answer, asked_of};
ghost use Rattle.ante_node.specs.Commands.{MadeOf};
ghost use Rattle.ante_node.specs.Limits.{input_limit};
ghost use Rattle.ante_node.specs.Requests.{Answers, Tells};
ghost use Rattle.ante_node.specs.declared.command.Command.TheVariants as commands;

use crate::failure::AnswerFailure;
use crate::fault::InputKind;
use crate::limits::INPUT_LIMIT;
use crate::lines::{Line, input_failure};
use crate::read_only::read_only;
use ante_base::{Source, read_front};
use ante_pack::Bytes;
use ante_types::{ReadJob, builtin_head, trace_text};
use std::alloc::{AllocError, Global};

/// The job that an input asks for.
#[tactic(auto, unfolding(crate::specs::Ask::asked_of))]
fn read_asked(alloc: Global, input: &[u8]) -> Result<ReadJob, AnswerFailure>
    ensures { Answers result (asked_of input.now) ⊥ }
{
    let line = Line::at(input, 0);
    let job = line.job(alloc)?;
    let end = line.end();
    if end + 1 < input.len() {
        return Err(input_failure(end as u64 + 1, InputKind::More));
    }
    Ok(job)
}

/// Reads the job that the input asks for.
fn read_input<R: Source>(alloc: Global, files: &mut R) -> Result<ReadJob, AnswerFailure>
    ensures asked { (input : List ℕ) × Tells (R.left files.old) input × Answers result (asked_of input) (Rose (R.faults files.old) (R.faults files.new)) }
    ensures ended { IfOk result (λ _. IsAtEnd (R.left files.new)) }
    ensures bounded { TakesAtMost input_limit (R.left files.old) (R.left files.new) }
{
    let front = read_front(alloc, files, INPUT_LIMIT)?;
    read_asked(alloc, front.bytes.as_slice())
}

/// The text of the trace that a job gives on the built-in genesis, and a newline.
#[tactic(auto, unfolding(crate::specs::Ask::answer))]
fn answer(alloc: Global, job: &ReadJob) -> Result<Bytes, AllocError>
    ensures { IfOk result (λ text. text ≡ answer job.now) }
{
    let trace = read_only(alloc, 0, builtin_head(), job)?;
    let mut text = trace_text(alloc, &trace)?;
    text.append(alloc, b"\n")?;
    Ok(text)
}

/// What `ask` answers to its input. The whole input is read before there is an answer.
pub fn ask<R: Source>(alloc: Global, files: &mut R) -> Result<Bytes, AnswerFailure>
    ensures made { MadeOf commands.Ask (R.left files.old) (λ made. Answers result made (Rose (R.faults files.old) (R.faults files.new))) }
    ensures ended { IfOk result (λ _. IsAtEnd (R.left files.new)) }
    ensures bounded { TakesAtMost input_limit (R.left files.old) (R.left files.new) }
{
    let job = read_input(alloc, files)?;
    Ok(answer(alloc, &job)?)
}
