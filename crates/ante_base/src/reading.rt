ghost use Rattle.std.specs.Prelude.{◌≡◌, ◌+◌, ◌^◌, ◌<◌, ◌≤◌, ℕ, OnErr, IfOk};
ghost use Rattle.ante_base.specs.Faults.{Rose};
ghost use Rattle.ante_base.specs.Source.{TakesAtMost};
ghost use Rattle.ante_base.specs.Exact.{ReadsExactly, taken};

use crate::failure::ReadFailure;
use crate::source::Source;
use crate::transfer::read_front;
use std::alloc::Global;

/// What an input had of a count of bytes.
#[derive(Debug, Drop)]
pub enum Exact {
    /// All of them.
    Whole(Vec<u8>),
    /// The input ended after this many, which are lost: 0 where it was over already.
    Ended(usize),
}

/// Reads an input of any length in exact counts, and holds no more of it than the bytes of one count.
#[derive(Drop)]
pub struct Reading<'a, R> {
    source: &'a mut R,
    place: u64,
}

impl<'a, R: Source> Reading<'a, R> {
    /// Places count from what the source has left now.
    pub fn new(source: &'a mut R) -> Reading<'a, R>
        ensures same_source { result.source.ghost_name ≡ source.entry.ghost_name }
        ensures source { result.source.now ≡ source.old }
        ensures place { result.place ≡ 0 }
    {
        Reading { source, place: 0 }
    }

    /// The place of the next byte.
    pub fn place(&self) -> u64
        ensures { result ≡ self.now.place }
    {
        self.place
    }

    /// The next `count` bytes. After an error what was read of them is lost, and the place is where they began.
    pub fn read_exact(&mut self, alloc: Global, count: usize) -> Result<Exact, ReadFailure>
        requires { self.old.place + count < 2 ^ 64 }
        ensures same_source { self.new.source.ghost_name ≡ self.old.source.ghost_name }
        ensures exact { IfOk result (ReadsExactly count (R.left self.old.source.now) (R.left self.new.source.now)) }
        ensures place { IfOk result (λ exact. self.new.place ≡ self.old.place + taken exact) }
        ensures stays { OnErr result (self.new.place ≡ self.old.place) }
        ensures failed { result ≡ Err ReadFailure.Failed → Rose (R.faults self.old.source.now) (R.faults self.new.source.now) }
        ensures bounded { TakesAtMost count (R.left self.old.source.now) (R.left self.new.source.now) }
        ensures later { R.faults self.old.source.now ≤ R.faults self.new.source.now }
    {
        let front = read_front(alloc, self.source, count)?;
        let found = front.bytes.as_slice().len();
        self.place += found as u64;
        if found < count {
            return Ok(Exact::Ended(found));
        }
        Ok(Exact::Whole(front.bytes))
    }
}
