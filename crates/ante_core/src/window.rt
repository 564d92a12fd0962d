//! One window as the code keeps it, and what readers do in it.

ghost use Rattle.std.specs.Prelude.{◌≡◌, IfSome, IfNone, is_some};
ghost use Rattle.ante_core.specs.Answers.{Answers, AnswersNoMemory};
ghost use Rattle.ante_core.specs.Machine.{meaning, held_by, claim_row, ring_row, piece_row, taken_from, cut_row};
ghost use Rattle.ante_core.specs.Shown.{shown_window};
ghost use Rattle.ante_core.specs.Place.{IsAt};

use crate::{Actor, DoneJob, Piece, StepError};
use std::alloc::Global;

/// A job in a reader's hands, and the frame that it has come to.
#[derive(Drop)]
pub struct Held<F> {
    pub reader: u32,
    pub job: u32,
    pub frame: F,
}

/// A window that is open.
#[derive(Drop)]
pub struct Window<F> {
    pub deadline: u64,
    /// The jobs that waited when the window opened, ascending.
    pub listed: Vec<u32>,
    /// How many of them were handed out.
    pub drawn: usize,
    /// The moment at which the window was rung.
    pub rung: Option<u64>,
    /// The jobs in readers' hands, in the order of their claims.
    pub held: Vec<Held<F>>,
}

impl<F: Drop> Window<F> {
    /// Keeps the first moment that is rung.
    pub fn ring(&mut self, moment: u64) -> Result<(), StepError>
        ensures { AnswersNoMemory (ring_row moment (shown_window self.old)) (shown_window self.old) (shown_window self.new) result }
    {
        if moment < self.deadline {
            return Err(StepError::NotNow);
        }
        if self.rung.is_none() {
            self.rung = Some(moment);
        }
        Ok(())
    }

    /// Takes the reader's job away, and drops its frame.
    pub fn cut(&mut self, reader: u32) -> Result<(), StepError>
        ensures { AnswersNoMemory (cut_row reader (shown_window self.old)) (shown_window self.old) (shown_window self.new) result }
    {
        if self.rung.is_none() {
            return Err(StepError::NotNow);
        }
        match place_of(&self.held, reader) {
            Some(place) => {
                let _cut = self.held.remove(place);
                Ok(())
            }
            None => Err(StepError::NotNow),
        }
    }
}

/// Hands the reader the next job of the window's list, with the frame from which it begins.
#[tactic(auto, using(std::proofs::lemmas::Option::gets))]
pub fn claim<A: Actor>(
    alloc: Global,
    window: &mut Window<A::Frame>,
    world: &A::World,
    jobs: &[A::Job],
    reader: u32,
) -> Result<(), StepError>
    ensures { let old = shown_window window.old in
        Answers (claim_row (meaning A.applied A.begun A.advanced) world.now jobs.now reader old) old old (shown_window window.new) result }
{
    if place_of(&window.held, reader).is_some() {
        return Err(StepError::NotNow);
    }
    if window.drawn >= window.listed.len() {
        return Ok(());
    }
    let job = window.listed[window.drawn];
    let Some(value) = jobs.get(job as usize) else {
        return Ok(());
    };
    let frame = A::begin(alloc, world, value)?;
    window.held.push(Held { reader, job, frame })?;
    window.drawn += 1;
    Ok(())
}

/// Runs one piece of the reader's job. Where memory is refused, the reader has lost the job.
pub fn advance<A: Actor>(
    alloc: Global,
    window: &mut Window<A::Frame>,
    done: &mut Vec<DoneJob<A::Reply>>,
    world: &A::World,
    position: u64,
    reader: u32,
) -> Result<(), StepError>
    ensures { let old = shown_window window.old in
        Answers (piece_row (meaning A.applied A.begun A.advanced) world.now position reader (old, done.old.items))
        (taken_from reader old, done.old.items) (old, done.old.items) (shown_window window.new, done.new.items) result }
{
    let Some(place) = place_of(&window.held, reader) else {
        return Err(StepError::NotNow);
    };
    let Held { reader, job, frame } = window.held.remove(place);
    match A::advance(alloc, world, frame)? {
        Piece::More(frame) => window.held.insert(place, Held { reader, job, frame })?,
        Piece::Ready(reply) => done.push(DoneJob {
            job,
            position,
            reply,
        })?,
    }
    Ok(())
}

/// Where the reader's job stands among those in readers' hands.
pub fn place_of<F>(held: &[Held<F>], reader: u32) -> Option<usize>
    ensures here { IfSome result (IsAt reader held.now) }
    ensures nowhere { IfNone result (held_by reader held.now ≡ None) }
    ensures same { is_some result ≡ is_some (held_by reader held.now) }
{
    for (place, job) in held.iter().enumerate() {
        if job.reader == reader {
            return Some(place);
        }
    }
    None
}
