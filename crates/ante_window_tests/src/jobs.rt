//! Jobs that take steps, and a state that runs them.

ghost use Rattle.std.specs.Prelude.{◌≡◌, ◌+◌, ◌%◌, ◌^◌};

use ante_base::Stop;
use ante_port::{ReadEnd, ReadState};
use std::alloc::{AllocError, Global};

/// Some steps, with a look before each hundred, and then a reply; or a lack of memory after half of them.
#[derive(Clone, Copy, Debug, PartialEq, Eq)]
pub struct Work {
    pub steps: u64,
    pub reply: u64,
    pub starves: bool,
}

/// Runs jobs of work. The position is added to each reply.
#[derive(Drop)]
pub struct Bench {
    pub position: u64,
}

pub const FIRST: Bench = Bench { position: 0 };

impl ReadState for Bench {
    type Job = Work;

    type Reply = u64;

    ghost answer = { λ state job. (job.reply + state.position) % 2 ^ 64 };

    fn read<P: Stop>(
        &self,
        _alloc: Global,
        job: &Work,
        stop: &mut P,
    ) -> Result<ReadEnd<u64>, AllocError> {
        for step in 0..job.steps {
            if job.starves && step >= job.steps / 2 {
                return Err(AllocError);
            }
            if step % 100 == 0 {
                if let Some(at) = stop.look() {
                    return Ok(ReadEnd::Cut { at });
                }
            }
        }
        Ok(ReadEnd::Done(job.reply.wrapping_add(self.position)))
    }
}
