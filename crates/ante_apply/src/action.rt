//! An action with all that it causes.
ghost use Rattle.std.specs.Prelude.{◌≡◌, ◌≤◌, ◌<◌, ◌+◌, ℕ, Bool, List, Err, IfOk, length, true};
ghost use Rattle.ante_apply.specs.Going.{all_runs, going, Follows};
ghost use Rattle.ante_apply.specs.Scenes.{mode_of, scene_of, scene_with};
ghost use Rattle.ante_calls.specs.ActionData.{IsPacked};
ghost use Rattle.ante_calls.specs.Views.{base_of, ReadyFor};
ghost use Rattle.ante_execution.specs.Actions.{act, apply};
ghost use Rattle.ante_execution.specs.Codes.{Accepts, codes_with};
ghost use Rattle.ante_execution.specs.declared.ends.ApplyEnd.TheVariants as ends;
ghost use Rattle.ante_execution.specs.Stopping.{Reaches, AskedAt};
ghost use Rattle.ante_undo.specs.Stack.{IsAbove};

use crate::jobs::nothing_asked;
use crate::notices::notify;
use crate::one::run_one;
use crate::scene::Scene;
use ante_base::Stop;
use ante_execution::{ApplyEnd, Asked, Job, Sender};
use ante_modcache::ModuleCache;
use ante_pack::{Bytes, Name, Seq};
use ante_store::Tables;
use ante_types::{Action, ActionTrace, Failure, Mode};
use std::alloc::Global;

// All runs of the action, and what they asked for.
fn run_all<T: Tables, P: Stop>(
    alloc: Global,
    scene: &Scene<'_>,
    depth: u8,
    action: &Action,
    by: Sender,
    tables: &mut T,
    stop: &mut P,
    left: &mut u64,
    traces: &mut Seq<ActionTrace>,
) -> Result<Asked, ApplyEnd>
    requires small { length traces.old + left.old ≤ 100000000 }
    requires ready { ReadyFor scene.now.mode (T.stack tables.old) (T.writing tables.old) }
    requires packed { IsPacked scene.now.packed.now }
    ensures follows { (accepts : List ℕ → Bool) → Accepts accepts → (k : ℕ) →
        Follows (λ a n. (a, going (T.stack tables.new).top left.new traces.new n)) k (P.looks stop.old) (P.looks stop.new)
        (all_runs (codes_with accepts) (scene_of scene.now) depth action.now by
        (going (T.stack tables.old).top left.old traces.old k)) result left.new traces.new }
    ensures small { IfOk result (λ a. length traces.new + left.new ≤ length traces.old + left.old) }
    ensures base { base_of (T.stack tables.new) (T.writing tables.new) (T.lent tables.new) ≡
        base_of (T.stack tables.old) (T.writing tables.old) (T.lent tables.old) }
    ensures reaches { Reaches P.may stop.old stop.new }
    ensures cut { (at : ℕ) → result ≡ Err (ends.Cut at) → AskedAt P.may stop.old at stop.new }
{
    let job = Job {
        receiver: action.account,
        notified: false,
        depth,
        sender: by.receiver,
        creator: by.ordinal,
    };
    let first = traces.len() as u32 + 1;
    let asked = nothing_asked(alloc);
    let asked = match run_one(alloc, scene, action, job, asked, tables, stop, left, traces) {
        Ok(asked) => asked,
        Err(end) => return Err(end),
    };
    notify(
        alloc, scene, action, depth, first, asked, tables, stop, left, traces,
    )
}

/// The action at this depth, with all that it causes: its runs, and then what they sent, each whole before the next.
fn act<T: Tables, P: Stop>(
    alloc: Global,
    scene: &Scene<'_>,
    free: u8,
    depth: u8,
    action: &Action,
    by: Sender,
    tables: &mut T,
    stop: &mut P,
    left: &mut u64,
    traces: &mut Seq<ActionTrace>,
) -> Result<(), ApplyEnd>
    requires free { free + depth ≤ 5 }
    requires small { length traces.old + left.old ≤ 100000000 }
    requires ready { ReadyFor scene.now.mode (T.stack tables.old) (T.writing tables.old) }
    requires packed { IsPacked scene.now.packed.now }
    ensures follows { (accepts : List ℕ → Bool) → Accepts accepts → (k : ℕ) →
        Follows (λ done n. going (T.stack tables.new).top left.new traces.new n) k (P.looks stop.old) (P.looks stop.new)
        (act (codes_with accepts) (scene_of scene.now) free depth action.now by
        (going (T.stack tables.old).top left.old traces.old k)) result left.new traces.new }
    ensures small { IfOk result (λ done. length traces.new + left.new ≤ length traces.old + left.old) }
    ensures base { base_of (T.stack tables.new) (T.writing tables.new) (T.lent tables.new) ≡
        base_of (T.stack tables.old) (T.writing tables.old) (T.lent tables.old) }
    ensures reaches { Reaches P.may stop.old stop.new }
    ensures cut { (at : ℕ) → result ≡ Err (ends.Cut at) → AskedAt P.may stop.old at stop.new }
{
    if free == 0 {
        return Err(ApplyEnd::Failed(Failure::InlineDepth));
    }
    let asked = match run_all(alloc, scene, depth, action, by, tables, stop, left, traces) {
        Ok(asked) => asked,
        Err(end) => return Err(end),
    };
    let mut actions = asked.inlines.as_slice();
    let mut senders = asked.senders.as_slice();
    'each: while let Some((inline, more)) = actions.split_first() {
        let Some((sender, others)) = senders.split_first() else {
            return Ok(());
        };
        if let Err(end) = act(
            alloc,
            scene,
            free - 1,
            depth + 1,
            inline,
            *sender,
            tables,
            stop,
            left,
            traces,
        ) {
            return Err(end);
        }
        actions = more;
        senders = others;
    }
    Ok(())
}

fn mode_of<T: Tables>(tables: &T) -> Mode
    ensures { result ≡ mode_of (T.writing tables.now) }
{
    if tables.writes() {
        Mode::Writing
    } else {
        Mode::Reading
    }
}

/// An action of a transaction, with all that it causes. `slot` is the time, and `packed` the packed transaction. After a failure `traces` has the
/// runs begun, the last of them up to its end; the newest state is to be taken back then, and after want of memory and a cut too.
pub fn apply_action<T: Tables, P: Stop>(
    alloc: Global,
    tables: &mut T,
    modules: &ModuleCache,
    slot: u32,
    packed: &Bytes,
    action: &Action,
    stop: &mut P,
    left: &mut u64,
    traces: &mut Seq<ActionTrace>,
) -> Result<(), ApplyEnd>
    requires small { length traces.old + left.old ≤ 100000000 }
    requires session { T.writing tables.old ≡ true → 0 < length (T.stack tables.old).under }
    requires above { T.writing tables.old ≡ true → IsAbove 1 (T.stack tables.old) }
    requires packed { IsPacked packed.now }
    ensures follows { (accepts : List ℕ → Bool) → Accepts accepts → (k : ℕ) →
        Follows (λ done n. going (T.stack tables.new).top left.new traces.new n) k (P.looks stop.old) (P.looks stop.new)
        (apply (codes_with accepts) (scene_with (mode_of (T.writing tables.old)) slot packed.now) action.now
        (going (T.stack tables.old).top left.old traces.old k)) result left.new traces.new }
    ensures small { IfOk result (λ done. length traces.new + left.new ≤ length traces.old + left.old) }
    ensures base { base_of (T.stack tables.new) (T.writing tables.new) (T.lent tables.new) ≡
        base_of (T.stack tables.old) (T.writing tables.old) (T.lent tables.old) }
    ensures reaches { Reaches P.may stop.old stop.new }
    ensures cut { (at : ℕ) → result ≡ Err (ends.Cut at) → AskedAt P.may stop.old at stop.new }
{
    let scene = Scene {
        modules,
        mode: mode_of(tables),
        slot,
        packed: packed.as_slice(),
    };
    let nobody = Sender {
        receiver: Name(0),
        ordinal: 0,
    };
    act(
        alloc, &scene, 5, 0, action, nobody, tables, stop, left, traces,
    )
}
