//! Jobs whose reads go as deep into the stack as those of nested blocks.

use crate::bench::Turnstile;
use ante_base::Stop;
use ante_port::{ReadEnd, ReadState};
use ante_window::{Outcome, run_window};
use std::alloc::{AllocError, Global};
use std::test::Fail;

/// As many levels as a module has nested blocks at most.
const DEEPEST: u32 = 1_024;

/// A level keeps so many words, 704 bytes of them: more than a nested block takes of the stack.
const WORDS: usize = 176;

/// Goes down so many levels, and says whether each found in the memory of the one above what that had put there.
fn reaches(levels: u32, place: usize, above: &[u32; WORDS]) -> bool {
    let Some(mark) = above.get(place) else {
        return false;
    };
    if *mark != levels {
        return false;
    }
    if levels == 0 {
        return true;
    }
    let below = levels - 1;
    let level = [below; WORDS];
    reaches(below, place, &level) && level.get(place) == Some(&below)
}

/// The number of levels is what a job gives, and lacks memory where one of them has lost its own.
#[derive(Drop)]
struct Shaft;

impl ReadState for Shaft {
    type Job = u32;

    type Reply = u32;

    ghost answer = { λ state job. job };

    fn read<P: Stop>(
        &self,
        _alloc: Global,
        job: &u32,
        stop: &mut P,
    ) -> Result<ReadEnd<u32>, AllocError> {
        if let Some(at) = stop.look() {
            return Ok(ReadEnd::Cut { at });
        }
        if !reaches(*job, *job as usize % WORDS, &[*job; WORDS]) {
            return Err(AllocError);
        }
        Ok(ReadEnd::Done(*job))
    }
}

#[test]
fn four_readers_go_down_at_once(rt: HostRuntime) -> Result<(), Fail> {
    let jobs = [DEEPEST; 4];
    let gate = Turnstile::new(4);
    let report = run_window(&rt, rt.alloc(), &Shaft, &jobs, 4, &gate, 10, &gate)?;
    assert!(rt; !gate.has_failed());
    let deepest = [
        Outcome::Done(DEEPEST),
        Outcome::Done(DEEPEST),
        Outcome::Done(DEEPEST),
        Outcome::Done(DEEPEST),
    ];
    assert!(rt; report.outcomes.as_slice() == deepest.as_slice());
    Ok(())
}
