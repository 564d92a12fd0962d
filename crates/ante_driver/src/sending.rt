//! Replies are written to the links.

ghost use Rattle.std.specs.Prelude.{◌≡◌, ◌<◌, ◌≤◌, length, slice_index_or, OnOk, OnErr};
ghost use Rattle.ante_journal.specs.Desk.{sending};
ghost use Rattle.ante_driver.specs.declared.front.Slot.{Slot as SlotRecord};
ghost use Rattle.ante_driver.specs.Shown.{IsCalm, IsPairedFront, StaysPaired, Went, desk_of};
ghost use Rattle.ante_driver.specs.Fronts.{SendsFront};

use crate::closing::close;
use crate::front::{Front, Slot, Stop};
use crate::slots::{is_calm, output_of, sent, slot_at};
use ante_links::{LinkId, LinkWrite, Links};
use std::alloc::Global;

/// What one write came to.
#[derive(Clone, Copy, Debug, PartialEq, Eq)]
enum Sending {
    /// The link may take more.
    More,
    /// Nothing is to be written, or the link takes no more now.
    Rests,
    Failed,
}

fn sent_front(alloc: Global, front: &mut Front, link: u32, count: usize) -> Result<Sending, Stop>
    requires within { link < length front.old.slots.items }
    requires count { (s : SlotRecord) → count ≤ length (slice_index_or front.old.slots.items link s).output.items }
    ensures ok { OnOk result (SendsFront front.old link count front.new) }
    ensures err { OnErr result (front.new.journal.items ≡ front.old.journal.items) }
{
    sent(alloc, &mut front.slots, link as usize, count)?;
    Ok(Sending::More)
}

/// Writes once what the link's slot is to write.
fn send_once<L: Links>(
    alloc: Global,
    links: &mut L,
    front: &mut Front,
    link: u32,
) -> Result<Sending, Stop>
    requires paired { IsPairedFront front.old (L.links links.old) }
    requires calm { IsCalm link front.old.slots.items front.old.queue.items }
    ensures paired { StaysPaired front.new (L.links links.new) result }
    ensures calm { OnOk result (IsCalm link front.new.slots.items front.new.queue.items) }
    ensures went { Went L.tells (desk_of (L.to_come links.old) (L.links links.old) front.old sending) front.old.journal.items (desk_of (L.to_come links.new) (L.links links.new) front.new sending) front.new.journal.items (L.links links.new) result }
{
    let output = output_of(front.slots.as_slice(), link);
    if output.is_empty() {
        return Ok(Sending::Rests);
    }
    match links.write(LinkId(link), output) {
        LinkWrite::Wrote(count) => sent_front(alloc, front, link, count),
        LinkWrite::NotReady => Ok(Sending::Rests),
        LinkWrite::Failed => Ok(Sending::Failed),
    }
}

/// Writes until all is written, or the link takes no more. Whether a write failed.
fn send_all<L: Links>(
    alloc: Global,
    links: &mut L,
    front: &mut Front,
    link: u32,
) -> Result<bool, Stop>
    requires paired { IsPairedFront front.old (L.links links.old) }
    requires calm { IsCalm link front.old.slots.items front.old.queue.items }
    ensures paired { StaysPaired front.new (L.links links.new) result }
    ensures calm { OnOk result (IsCalm link front.new.slots.items front.new.queue.items) }
    ensures went { Went L.tells (desk_of (L.to_come links.old) (L.links links.old) front.old sending) front.old.journal.items (desk_of (L.to_come links.new) (L.links links.new) front.new sending) front.new.journal.items (L.links links.new) result }
{
    // Each write takes a byte at least.
    let most = output_of(front.slots.as_slice(), link).len();
    for _write in 0..most {
        match send_once::<L>(alloc, links, front, link)? {
            Sending::More => {}
            Sending::Rests => return Ok(false),
            Sending::Failed => return Ok(true),
        }
    }
    Ok(false)
}

/// Whether all is written to the link, and its last reply closes it.
fn is_over(slot: &Slot) -> bool {
    slot.is_last && slot.output.as_slice().is_empty()
}

/// What waits to be written to the link is written. A link that failed, or whose last reply closes it, closes.
fn send_link<L: Links>(
    alloc: Global,
    links: &mut L,
    front: &mut Front,
    link: u32,
) -> Result<(), Stop>
    requires paired { IsPairedFront front.old (L.links links.old) }
    requires calm { IsCalm link front.old.slots.items front.old.queue.items }
    ensures paired { StaysPaired front.new (L.links links.new) result }
    ensures went { Went L.tells (desk_of (L.to_come links.old) (L.links links.old) front.old sending) front.old.journal.items (desk_of (L.to_come links.new) (L.links links.new) front.new sending) front.new.journal.items (L.links links.new) result }
{
    if send_all::<L>(alloc, links, front, link)? {
        return close::<L>(links, front, link);
    }
    if is_over(slot_at(front.slots.as_slice(), link)) {
        return close::<L>(links, front, link);
    }
    Ok(())
}

/// The same, where the link is open and nothing waits on it.
fn send_calm<L: Links>(
    alloc: Global,
    links: &mut L,
    front: &mut Front,
    link: u32,
) -> Result<(), Stop>
    requires { IsPairedFront front.old (L.links links.old) }
    ensures paired { StaysPaired front.new (L.links links.new) result }
    ensures went { Went L.tells (desk_of (L.to_come links.old) (L.links links.old) front.old sending) front.old.journal.items (desk_of (L.to_come links.new) (L.links links.new) front.new sending) front.new.journal.items (L.links links.new) result }
{
    if (link as usize) < front.slots.as_slice().len() {
        if is_calm(front.slots.as_slice(), front.queue.as_slice(), link) {
            return send_link::<L>(alloc, links, front, link);
        }
        return Ok(());
    }
    Ok(())
}

/// Replies are written, in the order of the links.
pub fn send_replies<L: Links>(alloc: Global, links: &mut L, front: &mut Front) -> Result<(), Stop>
    requires { IsPairedFront front.old (L.links links.old) }
    ensures paired { StaysPaired front.new (L.links links.new) result }
    ensures went { Went L.tells (desk_of (L.to_come links.old) (L.links links.old) front.old sending) front.old.journal.items (desk_of (L.to_come links.new) (L.links links.new) front.new sending) front.new.journal.items (L.links links.new) result }
{
    let count = front.slots.as_slice().len() as u32;
    for link in 0..count {
        send_calm::<L>(alloc, links, front, link)?;
    }
    Ok(())
}
