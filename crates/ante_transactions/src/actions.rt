//! The actions of a transaction in order.
ghost use Rattle.std.specs.Prelude.{◌≡◌, ◌≤◌, ◌<◌, ◌+◌, ℕ, Bool, List, Err, IfOk, length, true};
ghost use Rattle.ante_apply.specs.Going.{going, Follows};
ghost use Rattle.ante_apply.specs.Scenes.{mode_of, scene_with};
ghost use Rattle.ante_calls.specs.ActionData.{IsPacked};
ghost use Rattle.ante_calls.specs.Views.{base_of};
ghost use Rattle.ante_execution.specs.Actions.{apply_all};
ghost use Rattle.ante_execution.specs.Codes.{Accepts, codes_with};
ghost use Rattle.ante_execution.specs.declared.ends.ApplyEnd.TheVariants as ends;
ghost use Rattle.ante_execution.specs.Stopping.{Reaches, AskedAt};
ghost use Rattle.ante_undo.specs.Stack.{IsAbove};

use ante_apply::{ApplyEnd, apply_action};
use ante_base::Stop;
use ante_modcache::ModuleCache;
use ante_pack::{Bytes, Seq};
use ante_store::Tables;
use ante_types::{Action, ActionTrace};
use std::alloc::Global;

/// All actions, one after another, up to the first that fails.
pub(crate) fn apply_all<T: Tables, P: Stop>(
    alloc: Global,
    tables: &mut T,
    modules: &ModuleCache,
    slot: u32,
    packed: &Bytes,
    actions: &[Action],
    stop: &mut P,
    left: &mut u64,
    traces: &mut Seq<ActionTrace>,
) -> Result<(), ApplyEnd>
    requires small { length traces.old + left.old ≤ 100000000 }
    requires session { T.writing tables.old ≡ true → 0 < length (T.stack tables.old).under }
    requires above { T.writing tables.old ≡ true → IsAbove 1 (T.stack tables.old) }
    requires packed { IsPacked packed.now }
    ensures follows { (accepts : List ℕ → Bool) → Accepts accepts → (k : ℕ) →
        Follows (λ done n. going (T.stack tables.new).top left.new traces.new n) k (P.looks stop.old) (P.looks stop.new)
        (apply_all (codes_with accepts) (scene_with (mode_of (T.writing tables.old)) slot packed.now) actions.now
        (going (T.stack tables.old).top left.old traces.old k)) result left.new traces.new }
    ensures small { IfOk result (λ done. length traces.new + left.new ≤ length traces.old + left.old) }
    ensures base { base_of (T.stack tables.new) (T.writing tables.new) (T.lent tables.new) ≡
        base_of (T.stack tables.old) (T.writing tables.old) (T.lent tables.old) }
    ensures reaches { Reaches P.may stop.old stop.new }
    ensures cut { (at : ℕ) → result ≡ Err (ends.Cut at) → AskedAt P.may stop.old at stop.new }
{
    let mut rest = actions;
    'each: while let Some((action, more)) = rest.split_first() {
        if let Err(end) = apply_action(
            alloc, tables, modules, slot, packed, action, stop, left, traces,
        ) {
            return Err(end);
        }
        rest = more;
    }
    Ok(())
}
