//! The links that are idle are gone through, in order.

ghost use Rattle.std.specs.Prelude.{◌≡◌, length};
ghost use Rattle.ante_links.specs.Links.{read_room};
ghost use Rattle.ante_journal.specs.Desk.{taking};
ghost use Rattle.ante_driver.specs.Shown.{IsIdle, IsPairedFront, StaysPaired, Went, desk_of};

use crate::closing::close;
use crate::front::{Front, Stop};
use crate::reading::read_once;
use crate::slots::is_idle;
use crate::taking::take_one;
use ante_links::Links;
use std::alloc::Global;

/// One link's part of a turn: what its bytes begin with is taken, after one read where it isn't there yet.
fn serve_link<L: Links>(
    alloc: Global,
    links: &mut L,
    front: &mut Front,
    link: u32,
    buffer: &mut [u8],
) -> Result<(), Stop>
    requires paired { IsPairedFront front.old (L.links links.old) }
    requires idle { IsIdle link front.old.slots.items front.old.queue.items }
    requires room { length buffer.old ≡ read_room }
    ensures room { length buffer.new ≡ read_room }
    ensures paired { StaysPaired front.new (L.links links.new) result }
    ensures went { Went L.tells (desk_of (L.to_come links.old) (L.links links.old) front.old taking) front.old.journal.items (desk_of (L.to_come links.new) (L.links links.new) front.new taking) front.new.journal.items (L.links links.new) result }
{
    if take_one::<L>(alloc, links, front, link)? {
        return Ok(());
    }
    if read_once::<L>(links, front, link, buffer)? {
        take_one::<L>(alloc, links, front, link)?;
        return Ok(());
    }
    close::<L>(links, front, link)
}

/// The same, where the link is idle.
fn serve_idle<L: Links>(
    alloc: Global,
    links: &mut L,
    front: &mut Front,
    link: u32,
    buffer: &mut [u8],
) -> Result<(), Stop>
    requires paired { IsPairedFront front.old (L.links links.old) }
    requires room { length buffer.old ≡ read_room }
    ensures room { length buffer.new ≡ read_room }
    ensures paired { StaysPaired front.new (L.links links.new) result }
    ensures went { Went L.tells (desk_of (L.to_come links.old) (L.links links.old) front.old taking) front.old.journal.items (desk_of (L.to_come links.new) (L.links links.new) front.new taking) front.new.journal.items (L.links links.new) result }
{
    if (link as usize) < front.slots.as_slice().len() {
        if is_idle(front.slots.as_slice(), front.queue.as_slice(), link) {
            return serve_link::<L>(alloc, links, front, link, buffer);
        }
        return Ok(());
    }
    Ok(())
}

/// Idle links are read once, in order of number, and what they sent is taken. A link closes where it failed, or its input is over.
pub fn serve_links<L: Links>(
    alloc: Global,
    links: &mut L,
    front: &mut Front,
    buffer: &mut [u8],
) -> Result<(), Stop>
    requires paired { IsPairedFront front.old (L.links links.old) }
    requires room { length buffer.old ≡ read_room }
    ensures room { length buffer.new ≡ read_room }
    ensures paired { StaysPaired front.new (L.links links.new) result }
    ensures went { Went L.tells (desk_of (L.to_come links.old) (L.links links.old) front.old taking) front.old.journal.items (desk_of (L.to_come links.new) (L.links links.new) front.new taking) front.new.journal.items (L.links links.new) result }
{
    let count = front.slots.as_slice().len() as u32;
    for link in 0..count {
        serve_idle::<L>(alloc, links, front, link, buffer)?;
    }
    Ok(())
}
