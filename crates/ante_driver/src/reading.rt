//! What links send is read.

ghost use Rattle.std.specs.Prelude.{◌≡◌, ◌<◌, length, OnOk, OnErr};
ghost use Rattle.ante_links.specs.Links.{read_room};
ghost use Rattle.ante_journal.specs.Desk.{taking};
ghost use Rattle.ante_driver.specs.Shown.{IsIdle, IsPairedFront, StaysPaired, Went, desk_of};
ghost use Rattle.ante_driver.specs.Fronts.{HoldsBytes};

use crate::front::{Front, Stop};
use crate::slots::hold;
use ante_links::{LinkId, LinkRead, Links};

/// Holds the bytes that were read.
fn hold_bytes(front: &mut Front, link: u32, bytes: &[u8]) -> Result<bool, Stop>
    requires { link < length front.old.slots.items }
    ensures ok { OnOk result (HoldsBytes front.old link bytes.now front.new) }
    ensures err { OnErr result (front.new.journal.items ≡ front.old.journal.items) }
{
    hold(&mut front.slots, link as usize, bytes)?;
    Ok(true)
}

/// Reads once. Whether the link goes on.
pub fn read_once<L: Links>(
    links: &mut L,
    front: &mut Front,
    link: u32,
    buffer: &mut [u8],
) -> Result<bool, Stop>
    requires paired { IsPairedFront front.old (L.links links.old) }
    requires idle { IsIdle link front.old.slots.items front.old.queue.items }
    requires room { length buffer.old ≡ read_room }
    ensures paired { StaysPaired front.new (L.links links.new) result }
    ensures idle { OnOk result (IsIdle link front.new.slots.items front.new.queue.items) }
    ensures room { length buffer.new ≡ read_room }
    ensures went { Went L.tells (desk_of (L.to_come links.old) (L.links links.old) front.old taking) front.old.journal.items (desk_of (L.to_come links.new) (L.links links.new) front.new taking) front.new.journal.items (L.links links.new) result }
{
    match links.read(LinkId(link), buffer) {
        LinkRead::Bytes(count) => {
            let (bytes, _) = buffer.split_at(count);
            hold_bytes(front, link, bytes)
        }
        LinkRead::NotReady => Ok(true),
        LinkRead::End => Ok(false),
        LinkRead::Failed => Ok(false),
    }
}
