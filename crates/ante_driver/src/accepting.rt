//! Links are given.

ghost use Rattle.std.specs.Prelude.{◌≡◌, true, Ok, IfOk, OnErr};
ghost use Rattle.ante_journal.specs.Desk.{Stage, accepting, taking};
ghost use Rattle.ante_driver.specs.Shown.{HasCalmLast, IsPairedFront, StaysPaired, Went, desk_of};
ghost use Rattle.ante_driver.specs.Fronts.{AddsSlot, stage_with};

use crate::closing::close;
use crate::front::{Front, Stop, note};
use crate::slots::{new_slot, open_count};
use ante_journal::NodeEvent;
use ante_links::{Accept, Links};
use std::alloc::Global;

/// The most links that are served at once.
const MOST_OPEN: usize = 64;

/// A slot for a new link. Whether links are too many.
fn add_slot(alloc: Global, front: &mut Front) -> Result<bool, Stop>
    ensures ok { IfOk result (λ many. AddsSlot front.old many front.new) }
    ensures err { OnErr result (front.new.journal.items ≡ front.old.journal.items) }
{
    let is_crowded = open_count(front.slots.as_slice()) >= MOST_OPEN;
    front.slots.push(new_slot(alloc))?;
    note(&mut front.journal, NodeEvent::Link { turn: front.turn })?;
    Ok(is_crowded)
}

/// Takes a new link, where one comes. Whether links are too many.
fn admit<L: Links>(alloc: Global, links: &mut L, front: &mut Front) -> Result<bool, Stop>
    requires { IsPairedFront front.old (L.links links.old) }
    ensures paired { StaysPaired front.new (L.links links.new) result }
    ensures last { result ≡ Ok true → HasCalmLast front.new.slots.items front.new.queue.items }
    ensures went { Went L.tells (desk_of (L.to_come links.old) (L.links links.old) front.old accepting) front.old.journal.items (desk_of (L.to_come links.new) (L.links links.new) front.new (stage_with result)) front.new.journal.items (L.links links.new) result }
{
    match links.accept() {
        Accept::New(_id) => add_slot(alloc, front),
        Accept::NotReady => Ok(false),
        Accept::Failed => Ok(false),
    }
}

/// Takes a new link, where one comes. One that is too many is closed at once.
pub fn accept_one<L: Links>(alloc: Global, links: &mut L, front: &mut Front) -> Result<(), Stop>
    requires { IsPairedFront front.old (L.links links.old) }
    ensures paired { StaysPaired front.new (L.links links.new) result }
    ensures went { Went L.tells (desk_of (L.to_come links.old) (L.links links.old) front.old accepting) front.old.journal.items (desk_of (L.to_come links.new) (L.links links.new) front.new taking) front.new.journal.items (L.links links.new) result }
{
    if admit::<L>(alloc, links, front)? {
        let last = front.slots.as_slice().len() - 1;
        return close::<L>(links, front, last as u32);
    }
    Ok(())
}
