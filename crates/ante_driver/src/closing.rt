//! Links close.

ghost use Rattle.std.specs.Prelude.{◌≡◌, ◌<◌, length, OnOk, OnErr};
ghost use Rattle.ante_journal.specs.Desk.{Stage, Closes};
ghost use Rattle.ante_driver.specs.Shown.{IsCalm, IsPairedFront, StaysPaired, Went, desk_of};
ghost use Rattle.ante_driver.specs.Fronts.{ShutsSlot};

use crate::front::{Front, Stop, note};
use crate::slots::shut;
use ante_journal::NodeEvent;
use ante_links::{LinkId, Links};

/// The slot of a link that closes.
fn shut_slot(front: &mut Front, link: u32) -> Result<(), Stop>
    requires { link < length front.old.slots.items }
    ensures ok { OnOk result (ShutsSlot front.old link front.new) }
    ensures err { OnErr result (front.new.journal.items ≡ front.old.journal.items) }
{
    shut(&mut front.slots, link as usize);
    note(&mut front.journal, NodeEvent::Gone { link })
}

/// Closes a link on which nothing waits.
pub fn close<L: Links>(links: &mut L, front: &mut Front, link: u32) -> Result<(), Stop>
    requires paired { IsPairedFront front.old (L.links links.old) }
    requires calm { IsCalm link front.old.slots.items front.old.queue.items }
    ensures paired { StaysPaired front.new (L.links links.new) result }
    ensures went { (stage after : Stage) → Closes stage link (length front.old.slots.items) after → Went L.tells (desk_of (L.to_come links.old) (L.links links.old) front.old stage) front.old.journal.items (desk_of (L.to_come links.new) (L.links links.new) front.new after) front.new.journal.items (L.links links.new) result }
{
    links.close(LinkId(link));
    shut_slot(front, link)
}
