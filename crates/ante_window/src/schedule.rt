//! The events of a window in their order.

ghost use Rattle.std.specs.Prelude.{◌≡◌, ◌≤◌, ◌++◌, [], length, OnOk, IfOk, None};
ghost use Rattle.std.specs.List.{flat_map};
ghost use Rattle.ante_window.specs.Schedule.{left_by, turn_of, turns_from, last_from, ended, cut, has_turn, ended_of, ended_unless, last_ended, claims, ring, schedule};

use crate::outcome::{Bell, NOBODY, Outcome};
use std::alloc::{AllocError, Global};

/// What happens in a window.
#[derive(Clone, Copy, Debug, PartialEq, Eq)]
pub enum WindowEvent {
    /// A reader claims a job.
    Claim { reader: u32, job: u32 },
    /// It finishes the job with a reply.
    Finish { reader: u32, job: u32 },
    /// The job lacks memory.
    Starve { reader: u32, job: u32 },
    /// A reader that saw the deadline pass rings the bell.
    Ring { reader: u32, moment: u64 },
    /// A job is given up unfinished, since the bell was rung.
    Cut { reader: u32, job: u32 },
    /// The window closes.
    Close,
}

/// How a claimed job left its reader's hands.
#[derive(Clone, Copy, Debug, PartialEq, Eq)]
pub enum Left {
    Finished,
    Starved,
    Cut,
}

/// A claimed job.
#[derive(Clone, Copy, Debug, PartialEq, Eq)]
pub struct Turn {
    pub reader: u32,
    pub job: u32,
    pub left: Left,
}

fn left_by<R>(outcome: &Outcome<R>) -> Left
    ensures { result ≡ left_by outcome.now }
{
    match outcome {
        Outcome::Done(_) => Left::Finished,
        Outcome::Back { at: _ } => Left::Cut,
        Outcome::OutOfMemory => Left::Starved,
    }
}

/// Adds the job's turn, where it was claimed.
fn put_turn<R>(
    turns: &mut Vec<Turn>,
    job: u32,
    owner: u32,
    outcome: &Outcome<R>,
) -> Result<(), AllocError>
    ensures { OnOk result (turns.new.items ≡ turns.old.items ++ turn_of job owner outcome.now) }
{
    if owner != NOBODY {
        turns.push(Turn {
            reader: owner,
            job,
            left: left_by(outcome),
        })?;
    }
    Ok(())
}

/// The claimed jobs, in their order.
pub fn turns<R>(
    alloc: Global,
    owners: &[u32],
    outcomes: &[Outcome<R>],
) -> Result<Vec<Turn>, AllocError>
    requires same { length owners.now ≡ length outcomes.now }
    requires few { length owners.now ≤ 64 }
    ensures { IfOk result (λ turns. turns.items ≡ turns_from 0 owners.now outcomes.now) }
{
    let mut turns = Vec::new(alloc);
    for at in 0..owners.len() {
        put_turn(&mut turns, at as u32, owners[at], &outcomes[at])?;
    }
    Ok(turns)
}

/// The reader's last turn among these.
fn last_of(turns: &[Turn], reader: u32) -> Option<Turn>
    ensures { result ≡ last_from None reader turns.now }
{
    let mut last = None;
    for turn in turns {
        if turn.reader == reader {
            last = Some(*turn);
        }
    }
    last
}

/// Whether the reader has one of these turns.
fn has_turn(turns: &[Turn], reader: u32) -> bool
    ensures { result ≡ has_turn reader turns.now }
{
    for turn in turns {
        if turn.reader == reader {
            return true;
        }
    }
    false
}

/// Writes what ends a turn before the bell.
fn put_end(events: &mut Vec<WindowEvent>, turn: Turn) -> Result<(), AllocError>
    ensures { OnOk result (events.new.items ≡ events.old.items ++ ended turn) }
{
    let Turn { reader, job, left } = turn;
    match left {
        Left::Finished => events.push(WindowEvent::Finish { reader, job })?,
        Left::Starved => events.push(WindowEvent::Starve { reader, job })?,
        Left::Cut => {}
    }
    Ok(())
}

/// Writes what ends the reader's last turn among these.
fn put_last(events: &mut Vec<WindowEvent>, before: &[Turn], reader: u32) -> Result<(), AllocError>
    ensures { OnOk result (events.new.items ≡ events.old.items ++ ended_of reader before.now) }
{
    match last_of(before, reader) {
        Some(last) => put_end(events, last),
        None => Ok(()),
    }
}

/// Writes the claims, each after what ends its reader's turn before it.
fn put_claims(events: &mut Vec<WindowEvent>, turns: &[Turn]) -> Result<(), AllocError>
    ensures { OnOk result (events.new.items ≡ events.old.items ++ claims [] turns.now) }
{
    for at in 0..turns.len() {
        let (before, _) = turns.split_at(at);
        let Turn {
            reader,
            job,
            left: _,
        } = turns[at];
        put_last(events, before, reader)?;
        events.push(WindowEvent::Claim { reader, job })?;
    }
    Ok(())
}

/// Writes what ends the turn, unless its reader has another.
fn put_unless(events: &mut Vec<WindowEvent>, more: bool, turn: Turn) -> Result<(), AllocError>
    ensures { OnOk result (events.new.items ≡ events.old.items ++ ended_unless more turn) }
{
    if more {
        return Ok(());
    }
    put_end(events, turn)
}

/// Writes what ends the last turn of each reader.
fn put_last_ends(events: &mut Vec<WindowEvent>, turns: &[Turn]) -> Result<(), AllocError>
    ensures { OnOk result (events.new.items ≡ events.old.items ++ last_ended turns.now) }
{
    for at in 0..turns.len() {
        let turn = turns[at];
        let (_, rest) = turns.split_at(at + 1);
        let more = has_turn(rest, turn.reader);
        put_unless(events, more, turn)?;
    }
    Ok(())
}

/// Writes the ring.
fn put_ring(events: &mut Vec<WindowEvent>, bell: Option<Bell>) -> Result<(), AllocError>
    ensures { OnOk result (events.new.items ≡ events.old.items ++ ring bell) }
{
    if let Some(Bell { reader, moment }) = bell {
        events.push(WindowEvent::Ring { reader, moment })?;
    }
    Ok(())
}

/// Writes the cut of a turn that the bell cut.
fn put_cut(events: &mut Vec<WindowEvent>, turn: Turn) -> Result<(), AllocError>
    ensures { OnOk result (events.new.items ≡ events.old.items ++ cut turn) }
{
    if turn.left == Left::Cut {
        events.push(WindowEvent::Cut {
            reader: turn.reader,
            job: turn.job,
        })?;
    }
    Ok(())
}

/// Writes the cuts, in the order of the jobs.
fn put_cuts(events: &mut Vec<WindowEvent>, turns: &[Turn]) -> Result<(), AllocError>
    ensures { OnOk result (events.new.items ≡ events.old.items ++ flat_map cut turns.now) }
{
    for turn in turns {
        put_cut(events, *turn)?;
    }
    Ok(())
}

/// The events of a window in which readers had these turns.
pub fn schedule(
    alloc: Global,
    turns: &[Turn],
    bell: Option<Bell>,
) -> Result<Vec<WindowEvent>, AllocError>
    ensures { IfOk result (λ events. events.items ≡ schedule turns.now bell) }
{
    let mut events = Vec::new(alloc);
    put_claims(&mut events, turns)?;
    put_last_ends(&mut events, turns)?;
    put_ring(&mut events, bell)?;
    put_cuts(&mut events, turns)?;
    events.push(WindowEvent::Close)?;
    Ok(events)
}
