//! What is true of every run of the machine, over any actor and every list of events.
//!
//! An event is given with whether it wanted memory. Each law is the contract of a function that does nothing: to
//! call it is to learn it.

ghost use Rattle.std.specs.Prelude.{◌≡◌, Bool, List};
ghost use Rattle.ante_core.specs.declared.Event.{Event};
ghost use Rattle.ante_core.specs.Machine.{meaning, start};
ghost use Rattle.ante_core.specs.Runs.{run, Alone};
ghost use Rattle.ante_core.specs.Sound.{IsSound};
ghost use Rattle.ante_core.specs.Law.{EveryJobIsServed};

use crate::Actor;

/// Each done job's reply is what the job gives alone on the world after the first `position` writes; no write
/// stands between its last claim and its finish; and its position is at least the number of writes that were made
/// before it was taken.
pub fn every_job_is_served<A: Actor>()
    ensures { (world : A.World) (events : List (Event A A.World A.Write A.Job A.Frame A.Reply × Bool)) →
        EveryJobIsServed (meaning A.applied A.begun A.advanced) world events }
{}

/// Every state that a run reaches is sound.
pub fn every_state_is_sound<A: Actor>()
    ensures { let m = meaning A.applied A.begun A.advanced in (world : A.World) (events : List (Event A A.World A.Write A.Job A.Frame A.Reply × Bool)) →
        IsSound m (run m (start world) events) }
{}

/// A job gives at most one reply alone on a world.
pub fn alone_is_one<A: Actor>()
    ensures { let m = meaning A.applied A.begun A.advanced in (world : A.World) (job : A.Job) (one other : A.Reply) →
        Alone m world job one → Alone m world job other → one ≡ other }
{}
