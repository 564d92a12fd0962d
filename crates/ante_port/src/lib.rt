//! What the chain and the windows of readers ask of the machine that runs jobs.
//!
//! `specs/Reading.antt` says what a read comes to.
#![tactic(auto)]

mod block;

use ante_base::Stop;
pub use block::BlockRunError;
use std::alloc::{AllocError, Global};

/// What a read came to.
#[derive(Clone, Debug, Drop, PartialEq, Eq)]
pub enum ReadEnd<R> {
    /// The reply.
    Done(R),
    /// The stop asked it to end, at this moment.
    Cut { at: u64 },
}

/// A state that is read and not changed, by many readers at once.
pub trait ReadState {
    type Job: Drop + Sync;

    type Reply: Drop + Send;

    ghost use Rattle.ante_port.specs.Reading.{ReadsTo};

    /// What the job gives on this state.
    ghost answer: { Self → Self.Job → Self.Reply };

    /// Runs the job, and looks at the stop now and then.
    fn read<P: Stop>(
        &self,
        alloc: Global,
        job: &Self::Job,
        stop: &mut P,
    ) -> Result<ReadEnd<Self::Reply>, AllocError>
        ensures { ReadsTo (answer self.now job.now) P.may stop.old stop.new result };
}
