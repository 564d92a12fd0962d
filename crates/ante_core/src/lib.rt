//! The window machine: a state, the events that change it, and what it answers.
//!
//! Writes change a world, and only outside a window. Inside a window readers claim the jobs that wait, run each
//! in pieces on the world as it stands, and finish it with a reply, or lose it to the window's end, after which
//! the job waits again and begins anew. What a write, a job's beginning and one piece of it do is an [`Actor`]'s.
//!
//! `specs/Machine.antt` is the table of the machine, `specs/Runs.antt` says what whole runs are, and [`laws`] what
//! is true of each of them.
#![tactic(auto)]

ghost use Rattle.std.specs.Prelude.{◌≡◌, IfOk, OnOk, OnErr, length};
ghost use Rattle.ante_core.specs.Answers.{Answers, wants_memory};
ghost use Rattle.ante_core.specs.declared.StepError.TheVariants.{OutOfMemory};
ghost use Rattle.ante_core.specs.Machine.{meaning, start, core_step, core_starved, waiting_jobs};
ghost use Rattle.ante_core.specs.Runs.{after_event};
ghost use Rattle.ante_core.specs.Sound.{IsSound};

pub mod laws;
mod machine;
mod window;

use machine::Machine;
use std::alloc::{AllocError, AllocFailed, Global};
use std::marker::Model;

/// What one piece of a job's work ends in.
#[derive(Clone, Debug, Drop, PartialEq, Eq)]
pub enum Piece<F, R> {
    /// More is to do: the frame to go on from.
    More(F),
    /// The job's reply.
    Ready(R),
}

/// What the machine runs: a world, the writes that change it, and the jobs that read it.
///
/// Each call has one meaning, the ghost function above it, and answers the value of that meaning, or want of
/// memory. So a job's reply depends on the world and the job alone.
pub trait Actor {
    type World: Drop;

    type Write: Drop;

    type Job: Drop;

    type Frame: Drop;

    type Reply: Drop;

    ghost use Rattle.ante_core.specs.declared.Piece.{Piece};

    ghost applied: { Self.World → Self.Write → Self.World };

    ghost begun: { Self.World → Self.Job → Self.Frame };

    ghost advanced: { Self.World → Self.Frame → Piece Self.Frame Self.Reply };

    /// Changes the world by the write, or leaves it as it was for want of memory.
    fn apply(alloc: Global, world: &mut Self::World, write: &Self::Write) -> Result<(), AllocError>
        ensures ok { OnOk result (world.new ≡ applied world.old write.now) }
        ensures err { OnErr result (world.new ≡ world.old) };

    /// The frame from which the job begins on this world.
    fn begin(alloc: Global, world: &Self::World, job: &Self::Job) -> Result<Self::Frame, AllocError>
        ensures { IfOk result (λ frame. frame ≡ begun world.now job.now) };

    /// Runs one piece of a job from the frame that it has come to. After want of memory the frame is gone.
    fn advance(
        alloc: Global,
        world: &Self::World,
        frame: Self::Frame,
    ) -> Result<Piece<Self::Frame, Self::Reply>, AllocError>
        ensures { IfOk result (λ piece. piece ≡ advanced world.now frame) };
}

/// What may happen to the machine. Readers have numbers of the caller's choice, and deadlines and moments are in
/// the caller's unit of time.
#[derive(Drop)]
pub enum Event<A: Actor> {
    /// A job comes, and gets the next number, from 0.
    Take(A::Job),
    /// A write changes the world.
    Apply(A::Write),
    /// A window opens over the jobs that wait.
    Begin { deadline: u64 },
    /// A reader asks for the next job of the window's list.
    Claim { reader: u32 },
    /// A reader looks whether the window is rung.
    Look { reader: u32 },
    /// A reader that saw the deadline pass ends the window's time.
    Ring { reader: u32, moment: u64 },
    /// A reader runs one piece of its job.
    Advance { reader: u32 },
    /// A reader gives its job up unfinished, since the window is rung.
    Cut { reader: u32 },
    /// The window closes.
    Close,
}

/// Why a step was refused.
#[derive(Clone, Copy, Debug, Drop, PartialEq, Eq)]
pub enum StepError {
    /// Memory was refused. In an `Advance` the reader's job counts as cut and waits again, and elsewhere nothing
    /// has changed.
    OutOfMemory,
    /// The machine's table has no row for this event in this state. Nothing has changed.
    NotNow,
}

impl From<AllocError> for StepError {
    ghost from_gives = { λ _ e. e ≡ OutOfMemory };

    fn from(_refused: AllocError) -> StepError {
        StepError::OutOfMemory
    }
}

impl<T: Drop> From<AllocFailed<T>> for StepError {
    ghost from_gives = { λ _ e. e ≡ OutOfMemory };

    fn from(_refused: AllocFailed<T>) -> StepError {
        StepError::OutOfMemory
    }
}

/// A job that is done.
#[derive(Clone, Debug, Drop, PartialEq, Eq)]
pub struct DoneJob<R> {
    /// The job's number.
    pub job: u32,
    /// How many writes had been made when it finished.
    pub position: u64,
    pub reply: R,
}

/// The window machine over an actor. Contracts see it as the `State` of `specs/Machine.antt`, and it is sound at
/// all times (`specs/Sound.antt`).
#[derive(Drop)]
pub struct Core<A: Actor> {
    machine: Machine<A>,
}

impl<A: Actor> Model for Core<A> {
    ghost use Rattle.ante_core.specs.Machine.{State, meaning};
    ghost use Rattle.ante_core.specs.Sound.{IsSound};

    ghost Value = { State A.World A.Job A.Frame A.Reply };

    ghost view = { λ c. c.machine };

    ghost invariant = { λ c. IsSound (meaning A.applied A.begun A.advanced) c.machine };
}

impl<A: Actor> Core<A> {
    /// The machine over this world, with no job taken and no write made. It takes no memory yet.
    pub fn new(alloc: Global, world: A::World) -> Core<A>
        ensures { result ≡ start world }
    {
        Core {
            machine: Machine::new(alloc, world),
        }
    }

    /// Makes the event happen, if the table has a row for it.
    pub fn step(&mut self, alloc: Global, event: Event<A>) -> Result<(), StepError>
        ensures answer { Answers (core_step (meaning A.applied A.begun A.advanced) self.old event) (core_starved self.old event) self.old self.new result }
        ensures event { self.new ≡ after_event (meaning A.applied A.begun A.advanced) self.old (event, wants_memory result) }
        ensures sound { IsSound (meaning A.applied A.begun A.advanced) self.new }
    {
        self.machine.step(alloc, event)
    }

    /// The jobs that are done, in the order in which they finished.
    pub fn done(&self) -> &[DoneJob<A::Reply>]
        ensures { result.now ≡ self.now.done }
    {
        self.machine.done()
    }

    /// How many writes were made.
    pub fn position(&self) -> u64
        ensures { result ≡ self.now.position }
    {
        self.machine.position()
    }

    /// How many jobs were taken and aren't done, those in readers' hands among them.
    pub fn waiting(&self) -> usize
        ensures { result ≡ length (waiting_jobs self.now) }
    {
        self.machine.waiting()
    }
}

#[cfg(test)]
mod tests;
