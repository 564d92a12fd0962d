ghost use Rattle.ante_port.specs.Reading.{ReadsTo};
ghost use Rattle.ante_base.specs.Stops.{Rises};
ghost use Rattle.ante_heads.specs.Reads.{OnDone};

use ante_base::Stop;
use ante_port::{ReadEnd, ReadState};
use ante_types::Head;
use std::alloc::{AllocError, Global};

/// An engine that runs jobs on its newest state and doesn't change it, for many readers at once. Replies name the head that they
/// were given at.
pub trait Reads {
    type Job: Drop + Sync;

    type Reply: Drop + Send;

    ghost use Rattle.std.specs.Prelude.{ℕ};
    ghost use Rattle.ante_types.specs.declared.chain.Head.{Head};

    /// What the job gives at a position, a head and a slot.
    ghost answer: { Self → (position : ℕ) → Head → (slot : ℕ) → Self.Job → Self.Reply };

    /// How often the stop is looked at until it does, where no look asks for an end.
    ghost looks: { Self → (position : ℕ) → Head → (slot : ℕ) → Self.Job → ℕ };

    /// Runs the job, and looks at the stop now and then.
    fn read_at<P: Stop>(
        &self,
        alloc: Global,
        position: u64,
        head: Head,
        slot: u32,
        job: &Self::Job,
        stop: &mut P,
    ) -> Result<ReadEnd<Self::Reply>, AllocError>
        ensures reads { ReadsTo (answer self.now position head slot job.now) P.may stop.old stop.new result }
        ensures count { OnDone result (Rises (looks self.now position head slot job.now) (P.looks stop.old) (P.looks stop.new)) };
}

/// An engine's newest state as the state at one head, which a window is lent.
#[derive(Drop)]
pub struct HeadView<'a, M: Reads> {
    pub machine: &'a M,
    pub position: u64,
    pub head: Head,
    pub slot: u32,
}

impl<'a, M: Reads> ReadState for HeadView<'a, M> {
    type Job = M::Job;

    type Reply = M::Reply;

    ghost answer = { λ view job. M.answer view.machine.now view.position view.head view.slot job };

    fn read<P: Stop>(
        &self,
        alloc: Global,
        job: &M::Job,
        stop: &mut P,
    ) -> Result<ReadEnd<M::Reply>, AllocError>
        ensures reads { ReadsTo (M.answer self.now.machine.now self.now.position self.now.head self.now.slot job.now) P.may stop.old stop.new result }
        ensures count { OnDone result (Rises (M.looks self.now.machine.now self.now.position self.now.head self.now.slot job.now) (P.looks stop.old) (P.looks stop.new)) }
    {
        self.machine
            .read_at(alloc, self.position, self.head, self.slot, job, stop)
    }
}
