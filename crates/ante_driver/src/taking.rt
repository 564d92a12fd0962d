//! Requests are taken.

ghost use Rattle.std.specs.Prelude.{◌≡◌, ◌≢◌, ◌<◌, ◌^◌, Ok, false, length, OnOk, OnErr};
ghost use Rattle.ante_journal.specs.Desk.{taking, wants_memory};
ghost use Rattle.ante_driver.specs.Shown.{IsIdle, IsPairedFront, StaysPaired, Went, desk_of};
ghost use Rattle.ante_driver.specs.Fronts.{AnswersBad, BeginsWith, IsBadAt, QueuesUp, Refuses};

use crate::front::{Front, Stop, note};
use crate::slots::{held_of, say, say_last, split};
use ante_api::{ApiFault, ApiReply, ApiRequest, head_fault, render, route};
use ante_http::{CutAnswer, HeadKind, RequestSpan, cut};
use ante_journal::{NodeEvent, Waiting};
use ante_links::Links;
use std::alloc::Global;

/// The request that was taken waits.
fn queue_up(
    front: &mut Front,
    link: u32,
    count: u32,
    close: bool,
    request: ApiRequest,
) -> Result<bool, Stop>
    ensures took { result ≢ Ok false }
    ensures ok { OnOk result (QueuesUp front.old link count close request front.new) }
    ensures err { OnErr result (front.new.journal.items ≡ front.old.journal.items) }
{
    front.queue.push(Waiting {
        link,
        close,
        asked: Some(request),
    })?;
    front.took = true;
    note(
        &mut front.journal,
        NodeEvent::Taken {
            link,
            length: count,
        },
    )?;
    Ok(true)
}

/// Whether memory was wanted.
fn wants_memory(fault: &ApiFault) -> bool
    ensures { result ≡ wants_memory fault.now }
{
    match fault {
        ApiFault::OutOfMemory => true,
        _ => false,
    }
}

/// The fault of a request that was taken is answered at once.
fn refuse(
    alloc: Global,
    front: &mut Front,
    link: u32,
    count: u32,
    close: bool,
    fault: ApiFault,
) -> Result<bool, Stop>
    requires { link < length front.old.slots.items }
    ensures took { result ≢ Ok false }
    ensures ok { OnOk result (Refuses front.old link count close fault front.new) }
    ensures err { OnErr result (front.new.journal.items ≡ front.old.journal.items) }
{
    if wants_memory(&fault) {
        return Err(Stop::OutOfMemory);
    }
    let reply = render(alloc, &ApiReply::Fault(fault), close)?;
    say(&mut front.slots, link as usize, reply.as_slice())?;
    front.took = true;
    note(
        &mut front.journal,
        NodeEvent::Taken {
            link,
            length: count,
        },
    )?;
    Ok(true)
}

/// Takes the request that the bytes of a link begin with.
fn take_whole<L: Links>(
    alloc: Global,
    links: &L,
    front: &mut Front,
    link: u32,
    span: &RequestSpan,
    count: usize,
) -> Result<bool, Stop>
    requires paired { IsPairedFront front.old (L.links links.now) }
    requires idle { IsIdle link front.old.slots.items front.old.queue.items }
    requires whole { BeginsWith link front.old.slots.items span.now count }
    ensures took { result ≢ Ok false }
    ensures paired { StaysPaired front.new (L.links links.now) result }
    ensures went { Went L.tells (desk_of (L.to_come links.now) (L.links links.now) front.old taking) front.old.journal.items (desk_of (L.to_come links.now) (L.links links.now) front.new taking) front.new.journal.items (L.links links.now) result }
{
    let bytes = split(alloc, &mut front.slots, link as usize, count, span.close)?;
    match route(alloc, span, bytes.as_slice()) {
        Ok(request) => queue_up(front, link, count as u32, span.close, request),
        Err(fault) => refuse(alloc, front, link, count as u32, span.close, fault),
    }
}

/// Bad bytes are answered, and the link closes after the reply.
fn answer_bad(
    alloc: Global,
    front: &mut Front,
    link: u32,
    kind: HeadKind,
    count: u32,
) -> Result<bool, Stop>
    requires { link < length front.old.slots.items }
    ensures took { result ≢ Ok false }
    ensures ok { OnOk result (AnswersBad front.old link count kind front.new) }
    ensures err { OnErr result (front.new.journal.items ≡ front.old.journal.items) }
{
    let reply = render(alloc, &ApiReply::Fault(head_fault(kind)), true)?;
    say_last(&mut front.slots, link as usize, reply.as_slice())?;
    note(
        &mut front.journal,
        NodeEvent::Bad {
            link,
            length: count,
        },
    )?;
    Ok(true)
}

/// The bytes of a link are Bad.
fn take_bad<L: Links>(
    alloc: Global,
    links: &L,
    front: &mut Front,
    link: u32,
    kind: HeadKind,
    count: usize,
) -> Result<bool, Stop>
    requires paired { IsPairedFront front.old (L.links links.now) }
    requires idle { IsIdle link front.old.slots.items front.old.queue.items }
    requires bad { IsBadAt link front.old.slots.items kind count }
    ensures took { result ≢ Ok false }
    ensures paired { StaysPaired front.new (L.links links.now) result }
    ensures went { Went L.tells (desk_of (L.to_come links.now) (L.links links.now) front.old taking) front.old.journal.items (desk_of (L.to_come links.now) (L.links links.now) front.new taking) front.new.journal.items (L.links links.now) result }
{
    answer_bad(alloc, front, link, kind, count as u32)
}

/// What the bytes of an idle link begin with is taken. Whether it was a request, or Bad.
pub fn take_one<L: Links>(
    alloc: Global,
    links: &L,
    front: &mut Front,
    link: u32,
) -> Result<bool, Stop>
    requires paired { IsPairedFront front.old (L.links links.now) }
    requires idle { IsIdle link front.old.slots.items front.old.queue.items }
    ensures paired { StaysPaired front.new (L.links links.now) result }
    ensures idle { result ≡ Ok false → IsIdle link front.new.slots.items front.new.queue.items }
    ensures went { Went L.tells (desk_of (L.to_come links.now) (L.links links.now) front.old taking) front.old.journal.items (desk_of (L.to_come links.now) (L.links links.now) front.new taking) front.new.journal.items (L.links links.now) result }
{
    match cut(held_of(front.slots.as_slice(), link)) {
        CutAnswer::Need => Ok(false),
        CutAnswer::Request { request, length } => {
            take_whole::<L>(alloc, links, front, link, &request, length)
        }
        CutAnswer::Bad { kind, length } => {
            take_bad::<L>(alloc, links, front, link, kind, length)
        }
    }
}
