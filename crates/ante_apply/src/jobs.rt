// What a run begins with, and what its runs have asked for.
ghost use Rattle.std.specs.Prelude.{◌≡◌, ◌++◌, length, replicate, IfOk, OnOk};
ghost use Rattle.ante_apply.specs.Scenes.{asked_after, scene_of};
ghost use Rattle.ante_execution.specs.Actions.{context_of, nothing_asked};

use crate::scene::Scene;
use ante_execution::{Asked, Job, Sender};
use ante_pack::{Bytes, Name, Seq};
use ante_types::{Action, RunContext};
use std::alloc::{AllocError, Global};

pub(crate) fn nothing_asked(alloc: Global) -> Asked
    ensures { result ≡ nothing_asked }
{
    Asked {
        recipients: Seq::new(alloc),
        namers: Seq::new(alloc),
        inlines: Seq::new(alloc),
        senders: Seq::new(alloc),
    }
}

fn copy_of(alloc: Global, action: &Action) -> Result<Action, AllocError>
    ensures { IfOk result (λ copy. copy ≡ action.now) }
{
    Ok(Action {
        account: action.account,
        name: action.name,
        authorization: action.authorization.try_clone(alloc)?,
        bytes: action.bytes.try_clone(alloc)?,
    })
}

/// The context that the run of a job begins with.
pub(crate) fn context_of(
    alloc: Global,
    scene: &Scene<'_>,
    action: &Action,
    job: Job,
    recipients: Seq<Name>,
) -> Result<RunContext, AllocError>
    ensures { IfOk result (λ run. run ≡ context_of (scene_of scene.now) action.now job recipients) }
{
    Ok(RunContext {
        receiver: job.receiver,
        action: copy_of(alloc, action)?,
        notified: job.notified,
        depth: job.depth,
        sender: job.sender,
        slot: scene.slot,
        mode: scene.mode,
        recipients,
        inlines: Seq::new(alloc),
        console: Bytes::new(alloc),
        return_value: Bytes::new(alloc),
    })
}

// Adds so many copies of the item.
fn push_copies<X: Copy + Drop>(
    alloc: Global,
    list: &mut Seq<X>,
    item: X,
    count: usize,
) -> Result<(), AllocError>
    ensures { OnOk result (list.new ≡ list.old ++ replicate count item) }
{
    for _ in 0..count {
        list.push(alloc, item)?;
    }
    Ok(())
}

/// What was asked for, after a run that was begun with the first `had` of these recipients.
pub(crate) fn asked_by(
    alloc: Global,
    job: Job,
    ordinal: u32,
    asked: Asked,
    had: usize,
    recipients: Seq<Name>,
    inlines: Seq<Action>,
) -> Result<Asked, AllocError>
    ensures { IfOk result (λ after. after ≡ asked_after job ordinal had asked recipients inlines) }
{
    let Asked {
        recipients: _,
        namers,
        inlines: sent,
        senders,
    } = asked;
    let mut namers = namers;
    let mut sent = sent;
    let mut senders = senders;
    let named = recipients.len().saturating_sub(had);
    push_copies(alloc, &mut namers, job.receiver, named)?;
    let by = Sender {
        receiver: job.receiver,
        ordinal,
    };
    push_copies(alloc, &mut senders, by, inlines.len())?;
    let mut inlines = inlines;
    sent.append(alloc, &mut inlines)?;
    Ok(Asked {
        recipients,
        namers,
        inlines: sent,
        senders,
    })
}
