//! One slot of the list.

ghost use Rattle.std.specs.Prelude.{◌≡◌, ◌<◌, ◌≤◌, [], true, false, length, slice_index_or, slice_get, Some, OnOk, IfOk, IsTrue};
ghost use Rattle.ante_links.specs.Links.{Changes};
ghost use Rattle.ante_journal.specs.Desk.{waits};
ghost use Rattle.ante_driver.specs.declared.front.Slot.{Slot as SlotRecord};
ghost use Rattle.ante_driver.specs.Shown.{IsCalm, IsIdle};
ghost use Rattle.ante_driver.specs.Slots.{Holds, Says, SaysLast, Splits, Shuts, Sends, open_slots};

use crate::front::Slot;
use ante_journal::Waiting;
use std::alloc::{AllocError, Global};

pub fn new_slot(alloc: Global) -> Slot
    ensures held { result.held.items ≡ [] }
    ensures output { result.output.items ≡ [] }
    ensures is_open { result.is_open ≡ true }
    ensures is_last { result.is_last ≡ false }
{
    Slot {
        held: Vec::new(alloc),
        output: Vec::new(alloc),
        is_open: true,
        is_last: false,
    }
}

/// How many links are open.
pub fn open_count(slots: &[Slot]) -> usize
    ensures { result ≡ open_slots slots.now }
{
    let mut count = 0;
    for slot in slots {
        if slot.is_open {
            count += 1;
        }
    }
    count
}

/// Adds what was read to what the slot holds.
pub fn hold(slots: &mut Vec<Slot>, at: usize, bytes: &[u8]) -> Result<(), AllocError>
    requires { at < length slots.old.items }
    ensures { OnOk result (Changes at slots.old.items slots.new.items (Holds bytes.now)) }
{
    let slot = &mut slots[at];
    slot.held.extend_from_slice(bytes)
}

/// What the slot is to write.
pub fn output_of(slots: &[Slot], link: u32) -> &[u8]
    requires { link < length slots.now }
    ensures { (s : SlotRecord) → slice_get slots.now link ≡ Some s → result.now ≡ s.output.items }
{
    let slot = &slots[link as usize];
    slot.output.as_slice()
}

/// Takes the bytes that were written from the front of what the slot is to write.
pub fn sent(alloc: Global, slots: &mut Vec<Slot>, at: usize, count: usize) -> Result<(), AllocError>
    requires within { at < length slots.old.items }
    requires count { (s : SlotRecord) → count ≤ length (slice_index_or slots.old.items at s).output.items }
    ensures { OnOk result (Changes at slots.old.items slots.new.items (Sends count)) }
{
    let slot = &mut slots[at];
    let (_, rest) = slot.output.split_at(count);
    let mut left = Vec::new(alloc);
    left.extend_from_slice(rest)?;
    slot.output = left;
    Ok(())
}

pub fn shut(slots: &mut Vec<Slot>, at: usize)
    requires { at < length slots.old.items }
    ensures { Changes at slots.old.items slots.new.items Shuts }
{
    let slot = &mut slots[at];
    slot.is_open = false;
}

/// Whether a request waits on the link.
pub fn waits(queue: &[Waiting], link: u32) -> bool
    ensures { result ≡ waits link queue.now }
{
    for waiting in queue {
        if waiting.link == link {
            return true;
        }
    }
    false
}

/// The slot of a link.
pub fn slot_at(slots: &[Slot], link: u32) -> &Slot
    requires { link < length slots.now }
    ensures { slice_get slots.now link ≡ Some result.now }
{
    &slots[link as usize]
}

/// Whether the link is open and nothing waits on it.
pub fn is_calm(slots: &[Slot], queue: &[Waiting], link: u32) -> bool
    requires { link < length slots.now }
    ensures { IsTrue result → IsCalm link slots.now queue.now }
{
    let slot = slot_at(slots, link);
    if !slot.is_open {
        return false;
    }
    if waits(queue, link) {
        return false;
    }
    true
}

/// What the slot holds.
pub fn held_of(slots: &[Slot], link: u32) -> &[u8]
    requires { link < length slots.now }
    ensures { (s : SlotRecord) → slice_get slots.now link ≡ Some s → result.now ≡ s.held.items }
{
    let slot = &slots[link as usize];
    slot.held.as_slice()
}

/// Adds a reply to what the slot is to write.
pub fn say(slots: &mut Vec<Slot>, at: usize, reply: &[u8]) -> Result<(), AllocError>
    requires { at < length slots.old.items }
    ensures { OnOk result (Changes at slots.old.items slots.new.items (Says reply.now)) }
{
    let slot = &mut slots[at];
    slot.output.extend_from_slice(reply)
}

/// The same, and the link closes after it.
pub fn say_last(slots: &mut Vec<Slot>, at: usize, reply: &[u8]) -> Result<(), AllocError>
    requires { at < length slots.old.items }
    ensures { OnOk result (Changes at slots.old.items slots.new.items (SaysLast reply.now)) }
{
    let slot = &mut slots[at];
    slot.is_last = true;
    slot.output.extend_from_slice(reply)
}

/// Takes the first bytes out of what the slot holds, and keeps whether the link closes after the reply.
pub fn split(
    alloc: Global,
    slots: &mut Vec<Slot>,
    at: usize,
    count: usize,
    close: bool,
) -> Result<Vec<u8>, AllocError>
    requires within { at < length slots.old.items }
    requires count { (s : SlotRecord) → count ≤ length (slice_index_or slots.old.items at s).held.items }
    ensures { IfOk result (λ front. Changes at slots.old.items slots.new.items (Splits front.items count close)) }
{
    let slot = &mut slots[at];
    let (front, rest) = slot.held.split_at(count);
    let mut taken = Vec::new(alloc);
    taken.extend_from_slice(front)?;
    let mut left = Vec::new(alloc);
    left.extend_from_slice(rest)?;
    slot.held = left;
    slot.is_last = close;
    Ok(taken)
}

/// Whether nothing waits on the open link, and its last reply is written and doesn't close it.
pub fn is_idle(slots: &[Slot], queue: &[Waiting], link: u32) -> bool
    requires { link < length slots.now }
    ensures { IsTrue result → IsIdle link slots.now queue.now }
{
    let slot = slot_at(slots, link);
    if !slot.is_open {
        return false;
    }
    if slot.is_last {
        return false;
    }
    if !slot.output.as_slice().is_empty() {
        return false;
    }
    if waits(queue, link) {
        return false;
    }
    true
}
