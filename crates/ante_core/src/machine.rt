//! The machine's state as the code keeps it, with a method for each row of the table.

ghost use Rattle.std.specs.Prelude.{◌≡◌, length, IfOk};
ghost use Rattle.ante_core.specs.Answers.{Answers};
ghost use Rattle.ante_core.specs.Machine.{meaning, start, core_step, core_starved, starved_advance, waiting_jobs, waiting_below, is_done};
ghost use Rattle.ante_core.specs.Machine.{take_row, apply_row, begin_row, claim_row, look_row, ring_row, advance_row, cut_row, close_row, in_window, of_window};

use crate::window::{Window, advance, claim};
use crate::{Actor, DoneJob, Event, StepError};
use std::alloc::{AllocError, Global};
use std::marker::Model;

/// The machine. Contracts see it as the `State` of `specs/Machine.antt`.
#[derive(Drop)]
pub struct Machine<A: Actor> {
    world: A::World,
    /// How many writes were made.
    position: u64,
    /// The jobs taken: a job's number is its place.
    jobs: Vec<A::Job>,
    done: Vec<DoneJob<A::Reply>>,
    window: Option<Window<A::Frame>>,
}

impl<A: Actor> Model for Machine<A> {
    ghost use Rattle.ante_core.specs.Machine.{State};

    ghost Value = { State A.World A.Job A.Frame A.Reply };

    ghost use Rattle.ante_core.specs.Shown.{shown_machine, HasFewJobs};

    ghost view = { shown_machine };

    ghost invariant = { HasFewJobs };
}

impl<A: Actor> Machine<A> {
    /// A core at this world, with no jobs and outside of a window.
    pub fn new(alloc: Global, world: A::World) -> Machine<A>
        ensures { result ≡ start world }
    {
        Machine {
            world,
            position: 0,
            jobs: Vec::new(alloc),
            done: Vec::new(alloc),
            window: None,
        }
    }

    /// The jobs that were answered, each with its position and reply, in the order of their ends.
    pub fn done(&self) -> &[DoneJob<A::Reply>]
        ensures { result.now ≡ self.now.done }
    {
        &self.done
    }

    /// The number of writes that were applied.
    pub fn position(&self) -> u64
        ensures { result ≡ self.now.position }
    {
        self.position
    }

    /// The number of jobs that no reader has.
    pub fn waiting(&self) -> usize
        ensures { result ≡ length (waiting_jobs self.now) }
    {
        count_waiting(&self.done, self.jobs.len() as u32)
    }

    /// The step of `Core`.
    pub fn step(&mut self, alloc: Global, event: Event<A>) -> Result<(), StepError>
        ensures { Answers (core_step (meaning A.applied A.begun A.advanced) self.old event) (core_starved self.old event) self.old self.new result }
    {
        match event {
            Event::Take(job) => self.take(job),
            Event::Apply(write) => self.apply(alloc, &write),
            Event::Begin { deadline } => self.begin(alloc, deadline),
            Event::Claim { reader } => self.claim(alloc, reader),
            Event::Look { reader: _ } => self.look(),
            Event::Ring { reader: _, moment } => self.ring(moment),
            Event::Advance { reader } => self.advance(alloc, reader),
            Event::Cut { reader } => self.cut(reader),
            Event::Close => self.close(),
        }
    }

    fn take(&mut self, job: A::Job) -> Result<(), StepError>
        ensures { Answers (take_row self.old job) self.old self.old self.new result }
    {
        if self.window.is_some() || self.jobs.len() >= u32::MAX as usize {
            return Err(StepError::NotNow);
        }
        self.jobs.push(job)?;
        Ok(())
    }

    fn apply(&mut self, alloc: Global, write: &A::Write) -> Result<(), StepError>
        ensures { Answers (apply_row (meaning A.applied A.begun A.advanced) self.old write.now) self.old self.old self.new result }
    {
        if self.window.is_some() || self.position >= 1 << 63 {
            return Err(StepError::NotNow);
        }
        A::apply(alloc, &mut self.world, write)?;
        self.position += 1;
        Ok(())
    }

    fn begin(&mut self, alloc: Global, deadline: u64) -> Result<(), StepError>
        ensures { Answers (begin_row self.old deadline) self.old self.old self.new result }
    {
        if self.window.is_some() {
            return Err(StepError::NotNow);
        }
        let listed = list_waiting(alloc, &self.done, self.jobs.len() as u32)?;
        self.window = Some(Window {
            deadline,
            listed,
            drawn: 0,
            rung: None,
            held: Vec::new(alloc),
        });
        Ok(())
    }

    fn claim(&mut self, alloc: Global, reader: u32) -> Result<(), StepError>
        ensures { Answers (in_window self.old (claim_row (meaning A.applied A.begun A.advanced) self.old.world self.old.jobs reader))
            self.old self.old self.new result }
    {
        match &mut self.window {
            Some(window) => claim::<A>(alloc, window, &self.world, &self.jobs, reader),
            None => Err(StepError::NotNow),
        }
    }

    fn look(&self) -> Result<(), StepError>
        ensures { Answers (in_window self.now look_row) self.now self.now self.now result }
    {
        match self.window {
            Some(_) => Ok(()),
            None => Err(StepError::NotNow),
        }
    }

    fn ring(&mut self, moment: u64) -> Result<(), StepError>
        ensures { Answers (in_window self.old (ring_row moment)) self.old self.old self.new result }
    {
        match &mut self.window {
            Some(window) => window.ring(moment),
            None => Err(StepError::NotNow),
        }
    }

    fn advance(&mut self, alloc: Global, reader: u32) -> Result<(), StepError>
        ensures { Answers (advance_row (meaning A.applied A.begun A.advanced) self.old reader) (starved_advance self.old reader) self.old self.new result }
    {
        match &mut self.window {
            Some(window) => advance::<A>(
                alloc,
                window,
                &mut self.done,
                &self.world,
                self.position,
                reader,
            ),
            None => Err(StepError::NotNow),
        }
    }

    fn cut(&mut self, reader: u32) -> Result<(), StepError>
        ensures { Answers (in_window self.old (cut_row reader)) self.old self.old self.new result }
    {
        match &mut self.window {
            Some(window) => window.cut(reader),
            None => Err(StepError::NotNow),
        }
    }

    fn close(&mut self) -> Result<(), StepError>
        ensures { Answers (of_window self.old (close_row self.old)) self.old self.old self.new result }
    {
        let Some(window) = &self.window else {
            return Err(StepError::NotNow);
        };
        if !window.held.is_empty() {
            return Err(StepError::NotNow);
        }
        self.window = None;
        Ok(())
    }
}

/// Whether the job is on the done list.
fn is_done<R>(done: &[DoneJob<R>], job: u32) -> bool
    ensures { result ≡ is_done done.now job }
{
    for entry in done {
        if entry.job == job {
            return true;
        }
    }
    false
}

/// The jobs below `taken` that aren't done, ascending.
#[tactic(auto, using(crate::proofs::Lists::waiting_below_more))]
fn list_waiting<R>(alloc: Global, done: &[DoneJob<R>], taken: u32) -> Result<Vec<u32>, AllocError>
    ensures { IfOk result (λ listed. listed.items ≡ waiting_below done.now taken) }
{
    let mut listed = Vec::new(alloc);
    for job in 0..taken {
        if !is_done(done, job) {
            listed.push(job)?;
        }
    }
    Ok(listed)
}

/// How many jobs below `taken` aren't done.
#[tactic(auto, using(crate::proofs::Lists::waiting_count_more))]
fn count_waiting<R>(done: &[DoneJob<R>], taken: u32) -> usize
    ensures { result ≡ length (waiting_below done.now taken) }
{
    let mut waiting = 0;
    for job in 0..taken {
        if !is_done(done, job) {
            waiting += 1;
        }
    }
    waiting
}
