//! Two runs of the machine over an actor that counts: its world is a number, and a job of `k` adds the world up in
//! `k` pieces of work.

use crate::{Actor, Core, DoneJob, Event, Piece, StepError, laws};
use std::alloc::{AllocError, Global};
use std::test::Fail;

#[derive(Drop)]
struct Counting;

impl Actor for Counting {
    type World = u64;

    type Write = u64;

    type Job = u64;

    type Frame = (u64, u64);

    type Reply = u64;

    ghost use Rattle.std.specs.Prelude.{◌+◌, ◌-◌, ◌==◌, if◌then◌else◌};
    ghost use Rattle.ante_core.specs.declared.Piece.TheVariants.{More, Ready};

    ghost applied = { λ world write. world + write };

    ghost begun = { λ world job. (job, 0) };

    ghost advanced = { λ world frame. if frame.0 == 0 then Ready frame.1 else More (frame.0 - 1, frame.1 + world) };

    // A sum that doesn't fit is answered as want of memory, the one other answer that a call has.
    fn apply(_alloc: Global, world: &mut u64, write: &u64) -> Result<(), AllocError> {
        match world.checked_add(*write) {
            Some(sum) => {
                *world = sum;
                Ok(())
            }
            None => Err(AllocError),
        }
    }

    fn begin(_alloc: Global, _world: &u64, job: &u64) -> Result<(u64, u64), AllocError> {
        Ok((*job, 0))
    }

    fn advance(
        _alloc: Global,
        world: &u64,
        frame: (u64, u64),
    ) -> Result<Piece<(u64, u64), u64>, AllocError> {
        let (pieces, sum) = frame;
        if pieces == 0 {
            return Ok(Piece::Ready(sum));
        }
        match sum.checked_add(*world) {
            Some(sum) => Ok(Piece::More((pieces - 1, sum))),
            None => Err(AllocError),
        }
    }
}

// A job that keeps its frame over the cut would reply 11.
#[test]
fn a_cut_job_begins_anew(rt: HostRuntime) -> Result<(), Fail> {
    let alloc = rt.alloc();
    let mut core: Core<Counting> = Core::new(alloc, 3);
    let events = [
        Event::Take(2),
        Event::Take(1),
        Event::Begin { deadline: 10 },
        Event::Claim { reader: 0 },
        Event::Claim { reader: 1 },
        Event::Advance { reader: 0 },
        Event::Advance { reader: 1 },
        Event::Advance { reader: 1 },
        Event::Ring {
            reader: 0,
            moment: 10,
        },
        Event::Cut { reader: 0 },
        Event::Close,
        Event::Apply(5),
        Event::Begin { deadline: 20 },
        Event::Claim { reader: 0 },
        Event::Advance { reader: 0 },
        Event::Advance { reader: 0 },
        Event::Advance { reader: 0 },
        Event::Close,
    ];
    for event in events {
        assert_eq!(rt; core.step(alloc, event), Ok(()));
    }
    let done = [
        DoneJob {
            job: 1,
            position: 0,
            reply: 3,
        },
        DoneJob {
            job: 0,
            position: 1,
            reply: 16,
        },
    ];
    assert_eq!(rt; core.done(), done.as_slice());
    assert_eq!(rt; core.position(), 1);
    assert_eq!(rt; core.waiting(), 0);
    laws::every_job_is_served::<Counting>();
    Ok(())
}

#[test]
fn an_event_without_a_row_changes_nothing(rt: HostRuntime) -> Result<(), Fail> {
    let alloc = rt.alloc();
    let mut core: Core<Counting> = Core::new(alloc, 3);
    for event in [
        Event::Take(1),
        Event::Begin { deadline: 10 },
        Event::Claim { reader: 0 },
    ] {
        assert_eq!(rt; core.step(alloc, event), Ok(()));
    }
    let refused = [
        Event::Apply(5),
        Event::Ring {
            reader: 0,
            moment: 9,
        },
        Event::Close,
        Event::Cut { reader: 0 },
    ];
    for event in refused {
        assert_eq!(rt; core.step(alloc, event), Err(StepError::NotNow));
        assert_eq!(rt; (core.position(), core.waiting()), (0, 1));
    }
    for event in [
        Event::Advance { reader: 0 },
        Event::Advance { reader: 0 },
        Event::Close,
    ] {
        assert_eq!(rt; core.step(alloc, event), Ok(()));
    }
    assert_eq!(rt;
        core.done(),
        [DoneJob {
            job: 0,
            position: 0,
            reply: 3
        }]
        .as_slice()
    );
    Ok(())
}
