//! One run of an action, with its trace.
ghost use Rattle.std.specs.Prelude.{◌≡◌, ◌≤◌, ◌<◌, ◌+◌, ◌-◌, ℕ, Bool, List, None, Err, IfOk, length};
ghost use Rattle.ante_apply.specs.Going.{going, Closes, Follows};
ghost use Rattle.ante_apply.specs.Scenes.{asked_after, said_trace, scene_of};
ghost use Rattle.ante_calls.specs.ActionData.{IsPacked};
ghost use Rattle.ante_calls.specs.Views.{base_of, ReadyFor, said};
ghost use Rattle.ante_execution.specs.Actions.{run_one};
ghost use Rattle.ante_execution.specs.Codes.{Accepts, codes_with};
ghost use Rattle.ante_execution.specs.declared.ends.ApplyEnd.TheVariants as ends;
ghost use Rattle.ante_execution.specs.Stopping.{Reaches, AskedAt};

use crate::jobs::{asked_by, context_of};
use crate::run::{Ended, run};
use crate::scene::Scene;
use ante_base::Stop;
use ante_execution::{ApplyEnd, Asked, Job};
use ante_pack::{Bytes, Seq};
use ante_store::Tables;
use ante_types::{Action, ActionTrace, RunContext};
use std::alloc::{AllocError, Global};
use std::mem;

// The trace of a run that said this.
fn trace_of(
    alloc: Global,
    action: &Action,
    job: Job,
    ordinal: u32,
    console: Bytes,
    return_value: Bytes,
    steps: u64,
) -> Result<ActionTrace, AllocError>
    ensures { IfOk result (λ trace. trace ≡ said_trace action.now job ordinal (console, return_value) steps) }
{
    Ok(ActionTrace {
        ordinal,
        creator: job.creator,
        receiver: job.receiver,
        account: action.account,
        name: action.name,
        bytes: action.bytes.try_clone(alloc)?,
        console,
        return_value,
        steps,
    })
}

// Adds the trace of a run that ended so, and what it asked for.
fn close(
    alloc: Global,
    action: &Action,
    job: Job,
    ordinal: u32,
    had: usize,
    asked: Asked,
    steps: u64,
    ended: Ended,
    traces: &mut Seq<ActionTrace>,
) -> Result<Asked, ApplyEnd>
    ensures closes { Closes ended (said_trace action.now job ordinal (said ended.1) steps)
        (asked_after job ordinal had asked ended.1.recipients ended.1.inlines) traces.old result traces.new }
    ensures more { IfOk result (λ a. length traces.new ≡ length traces.old + 1) }
    ensures fine { IfOk result (λ a. ended.0 ≡ None) }
    ensures uncut { (at : ℕ) → result ≡ Err (ends.Cut at) → ⊥ }
{
    let (failure, context) = ended;
    let RunContext {
        recipients,
        inlines,
        console,
        return_value,
        ..
    } = context;
    let trace = trace_of(alloc, action, job, ordinal, console, return_value, steps)?;
    traces.push(alloc, trace)?;
    match failure {
        Some(failure) => Err(ApplyEnd::Failed(failure)),
        None => Ok(asked_by(alloc, job, ordinal, asked, had, recipients, inlines)?),
    }
}

/// One run of the action, for the job's receiver.
pub(crate) fn run_one<T: Tables, P: Stop>(
    alloc: Global,
    scene: &Scene<'_>,
    action: &Action,
    job: Job,
    asked: Asked,
    tables: &mut T,
    stop: &mut P,
    left: &mut u64,
    traces: &mut Seq<ActionTrace>,
) -> Result<Asked, ApplyEnd>
    requires small { length traces.old + left.old ≤ 100000000 }
    requires ready { ReadyFor scene.now.mode (T.stack tables.old) (T.writing tables.old) }
    requires packed { IsPacked scene.now.packed.now }
    ensures follows { (accepts : List ℕ → Bool) → Accepts accepts → (k : ℕ) →
        Follows (λ a n. (a, going (T.stack tables.new).top left.new traces.new n)) k (P.looks stop.old) (P.looks stop.new)
        (run_one (codes_with accepts) (scene_of scene.now) action.now job asked (going (T.stack tables.old).top left.old traces.old k)) result left.new traces.new }
    ensures small { IfOk result (λ a. length traces.new + left.new ≤ length traces.old + left.old) }
    ensures pays { IfOk result (λ a. left.new < left.old) }
    ensures base { base_of (T.stack tables.new) (T.writing tables.new) (T.lent tables.new) ≡
        base_of (T.stack tables.old) (T.writing tables.old) (T.lent tables.old) }
    ensures reaches { Reaches P.may stop.old stop.new }
    ensures cut { (at : ℕ) → result ≡ Err (ends.Cut at) → AskedAt P.may stop.old at stop.new }
{
    let mut asked = asked;
    let had = asked.recipients.len();
    let recipients = mem::replace(&mut asked.recipients, Seq::new(alloc));
    let context = context_of(alloc, scene, action, job, recipients)?;
    let before = *left;
    let ordinal = traces.len() as u32 + 1;
    let ended = run(
        alloc,
        scene.modules,
        scene.packed,
        tables,
        context,
        stop,
        left,
    );
    let ended = match ended {
        Ok(ended) => ended,
        Err(end) => return Err(end),
    };
    let steps = before - *left;
    close(
        alloc, action, job, ordinal, had, asked, steps, ended, traces,
    )
}
