//! The runs of whom the runs of an action notify.
ghost use Rattle.std.specs.Prelude.{◌≡◌, ◌≤◌, ◌<◌, ◌+◌, ℕ, Bool, List, Err, IfOk, length, slice_get, slice_index_or};
ghost use Rattle.ante_apply.specs.Going.{going, Follows};
ghost use Rattle.ante_apply.specs.Scenes.{scene_of};
ghost use Rattle.ante_calls.specs.Accounts.{no_name};
ghost use Rattle.ante_calls.specs.ActionData.{IsPacked};
ghost use Rattle.ante_calls.specs.Views.{base_of, ReadyFor};
ghost use Rattle.ante_execution.specs.Actions.{notify, recipient_of};
ghost use Rattle.ante_execution.specs.Codes.{Accepts, codes_with};
ghost use Rattle.ante_execution.specs.declared.ends.ApplyEnd.TheVariants as ends;
ghost use Rattle.ante_execution.specs.Stopping.{Reaches, AskedAt};

use crate::one::run_one;
use crate::scene::Scene;
use ante_base::Stop;
use ante_execution::{ApplyEnd, Asked, Job};
use ante_pack::{Name, Seq};
use ante_store::Tables;
use ante_types::{Action, ActionTrace};
use std::alloc::Global;

fn namer_at(namers: &[Name], place: usize) -> Name
    ensures { result ≡ slice_index_or namers.now place no_name }
{
    match namers.get(place) {
        Some(namer) => *namer,
        None => Name(0),
    }
}

// The recipient at a place, and who named it.
fn recipient_at(asked: &Asked, place: usize) -> Option<(Name, Name)>
    ensures { result ≡ recipient_of (slice_get asked.now.recipients place) (slice_index_or asked.now.namers place no_name) }
{
    let name = *asked.recipients.get(place)?;
    Some((name, namer_at(asked.namers.as_slice(), place)))
}

/// The runs of the recipients, in the order in which they were first named.
pub(crate) fn notify<T: Tables, P: Stop>(
    alloc: Global,
    scene: &Scene<'_>,
    action: &Action,
    depth: u8,
    creator: u32,
    asked: Asked,
    tables: &mut T,
    stop: &mut P,
    left: &mut u64,
    traces: &mut Seq<ActionTrace>,
) -> Result<Asked, ApplyEnd>
    requires small { length traces.old + left.old ≤ 100000000 }
    requires ready { ReadyFor scene.now.mode (T.stack tables.old) (T.writing tables.old) }
    requires packed { IsPacked scene.now.packed.now }
    ensures follows { (accepts : List ℕ → Bool) → Accepts accepts → (k most : ℕ) → left.old < most →
        Follows (λ a n. (a, going (T.stack tables.new).top left.new traces.new n)) k (P.looks stop.old) (P.looks stop.new)
        (notify (codes_with accepts) (scene_of scene.now) action.now depth creator most 0
        (asked, going (T.stack tables.old).top left.old traces.old k)) result left.new traces.new }
    ensures small { IfOk result (λ a. length traces.new + left.new ≤ length traces.old + left.old) }
    ensures base { base_of (T.stack tables.new) (T.writing tables.new) (T.lent tables.new) ≡
        base_of (T.stack tables.old) (T.writing tables.old) (T.lent tables.old) }
    ensures reaches { Reaches P.may stop.old stop.new }
    ensures cut { (at : ℕ) → result ≡ Err (ends.Cut at) → AskedAt P.may stop.old at stop.new }
{
    let mut so_far = asked;
    let mut place = 0;
    'each: while let Some((receiver, sender)) = recipient_at(&so_far, place) {
        let job = Job {
            receiver,
            notified: true,
            depth,
            sender,
            creator,
        };
        so_far = match run_one(
            alloc, scene, action, job, so_far, tables, stop, left, traces,
        ) {
            Ok(asked) => asked,
            Err(end) => return Err(end),
        };
        place += 1;
    }
    Ok(so_far)
}
