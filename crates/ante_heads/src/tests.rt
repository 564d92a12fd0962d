ghost use Rattle.std.specs.Prelude.{◌≡◌};

use crate::{HeadView, Reads};
use ante_base::{NeverStop, Stop};
use ante_port::{ReadEnd, ReadState};
use ante_types::Head;
use std::alloc::{AllocError, Global};
use std::test::Fail;

/// Gives the position with each job's own number.
#[derive(Drop)]
struct Echo;

impl Reads for Echo {
    type Job = u64;

    type Reply = (u64, u64);

    ghost answer = { λ machine position head slot job. (position, job) };

    ghost looks = { λ machine position head slot job. 0 };

    fn read_at<P: Stop>(
        &self,
        _alloc: Global,
        position: u64,
        _head: Head,
        _slot: u32,
        job: &u64,
        _stop: &mut P,
    ) -> Result<ReadEnd<(u64, u64)>, AllocError> {
        Ok(ReadEnd::Done((position, *job)))
    }
}

/// Reads as each reader of a window does.
fn read_shared<S: ReadState + Sync>(
    alloc: Global,
    state: &S,
    job: &S::Job,
) -> Result<ReadEnd<S::Reply>, AllocError> {
    state.read(alloc, job, &mut NeverStop)
}

#[test]
fn a_view_reads_at_its_head(rt: HostRuntime) -> Result<(), Fail> {
    let view = HeadView {
        machine: &Echo,
        position: 7,
        head: Head {
            num: 8,
            id: [1; 32],
        },
        slot: 9,
    };
    let end = read_shared(rt.alloc(), &view, &5)?;
    assert!(rt; end == ReadEnd::Done((7, 5)));
    Ok(())
}
