//! Links whose bytes are in memory.

ghost use Rattle.std.specs.Prelude.{◌≡◌, ◌<◌, ◌≤◌, [], length, map, true, Some, None};
ghost use Rattle.std.specs.List.{AllByRecursion};
ghost use Rattle.ante_links.specs.LinkStates.{LinkState, Door, fresh_link};
ghost use Rattle.ante_links.specs.Links.{Accepts, Admits, Changes, OneRead, OneWrite};
ghost use Rattle.ante_links.specs.Memory.{LinkSet, IsFresh, inputs_of};

use crate::counts::{read_once, risen};
use crate::links::{Accept, Begun, LinkId, LinkRead, LinkWrite, Links};
use std::alloc::Global;
use std::cmp::min;
use std::collections::VecDeque;
use std::marker::Model;

/// A link in memory. Its reads and writes are numbered together from 0 for those that fail, and each kind from 0 for those that wait.
#[derive(Debug, Drop)]
pub struct MemLink {
    input: Vec<u8>,
    at: usize,
    /// At most so many bytes come at a read.
    piece: usize,
    written: Vec<u8>,
    failing: Vec<u64>,
    waiting_reads: Vec<u64>,
    waiting_writes: Vec<u64>,
    calls: u64,
    read_calls: u64,
    write_calls: u64,
    faults: u64,
    read_waits: u64,
    write_waits: u64,
    reads: u64,
    is_over: bool,
    last: Option<LinkWrite>,
}

impl Model for MemLink {
    ghost use Rattle.std.specs.Prelude.{◌≡◌, ◌≤◌, length, drop, true, []};
    ghost use Rattle.ante_links.specs.LinkStates.{LinkState};

    ghost Value = { LinkState };

    ghost view = { λ s. record {
      left = drop s.at s.input.items;
      written = s.written.items;
      faults = s.faults;
      read_waits = s.read_waits;
      write_waits = s.write_waits;
      reads = s.reads;
      is_over = s.is_over;
      last = s.last;
    } };

    ghost invariant = { λ s. (s.at ≤ length s.input.items) × (1 ≤ s.piece) × (s.is_over ≡ true → drop s.at s.input.items ≡ []) };
}

impl MemLink {
    /// A link with this input, of which each read gives at most a piece. The calls of these numbers fail, and the reads and the writes of
    /// these numbers wait.
    pub fn new(
        alloc: Global,
        input: Vec<u8>,
        piece: usize,
        failing: Vec<u64>,
        waiting_reads: Vec<u64>,
        waiting_writes: Vec<u64>,
    ) -> MemLink
        requires { 1 ≤ piece }
        ensures { result ≡ fresh_link input.items }
    {
        MemLink {
            input,
            at: 0,
            piece,
            written: Vec::new(alloc),
            failing,
            waiting_reads,
            waiting_writes,
            calls: 0,
            read_calls: 0,
            write_calls: 0,
            faults: 0,
            read_waits: 0,
            write_waits: 0,
            reads: 0,
            is_over: false,
            last: None,
        }
    }

    /// What was written to the link.
    pub fn written(&self) -> &[u8]
        ensures { result.now ≡ self.now.written }
    {
        self.written.as_slice()
    }

    fn read(&mut self, into: &mut [u8]) -> LinkRead
        requires { 1 ≤ length into.old }
        ensures { OneRead true self.old self.new into.new result }
    {
        let call = self.calls;
        self.calls = self.calls.saturating_add(1);
        let read_call = self.read_calls;
        self.read_calls = self.read_calls.saturating_add(1);
        if self.failing.contains(&call) {
            self.faults = risen(self.faults);
            return LinkRead::Failed;
        }
        let (_, left) = self.input.split_at(self.at);
        if left.is_empty() {
            self.is_over = true;
            return LinkRead::End;
        }
        if self.is_over {
            return LinkRead::End;
        }
        self.reads = read_once(self.reads);
        if self.waiting_reads.contains(&read_call) {
            self.read_waits = risen(self.read_waits);
            return LinkRead::NotReady;
        }
        let count = min(self.piece, min(left.len(), into.len()));
        let (front, _) = left.split_at(count);
        into[..count].copy_from_slice(front);
        self.at += count;
        LinkRead::Bytes(count)
    }

    fn write(&mut self, bytes: &[u8]) -> LinkWrite
        requires { 1 ≤ length bytes.now }
        ensures { OneWrite true self.old self.new bytes.now result }
    {
        let call = self.calls;
        self.calls = self.calls.saturating_add(1);
        let write_call = self.write_calls;
        self.write_calls = self.write_calls.saturating_add(1);
        let answer = if self.failing.contains(&call) {
            self.faults = risen(self.faults);
            LinkWrite::Failed
        } else if self.waiting_writes.contains(&write_call) {
            self.write_waits = risen(self.write_waits);
            LinkWrite::NotReady
        } else if self.written.extend_from_slice(bytes).is_err() {
            self.faults = risen(self.faults);
            LinkWrite::Failed
        } else {
            LinkWrite::Wrote(bytes.len())
        };
        self.last = Some(answer);
        answer
    }
}

/// Links in memory, given in their order. The calls of `accept` are numbered from 0, and those of these numbers fail.
#[derive(Debug, Drop)]
pub struct MemLinks {
    given: Vec<MemLink>,
    coming: VecDeque<Option<MemLink>>,
    failing: Vec<u64>,
    calls: u64,
    faults: u64,
    waits: u64,
}

impl Model for MemLinks {
    ghost use Rattle.std.specs.Prelude.{◌≤◌, length};
    ghost use Rattle.std.specs.List.{AllByRecursion};
    ghost use Rattle.ante_links.specs.Memory.{LinkSet, IsFresh};

    ghost Value = { LinkSet };

    ghost view = { λ s. record { given = s.given.items; coming = s.coming.items; door = record { faults = s.faults; waits = s.waits } } };

    ghost invariant = { λ s. AllByRecursion IsFresh s.coming.items };
}

impl MemLinks {
    /// What the calls of `accept` give that don't fail: a link, or none where it waits.
    pub fn new(alloc: Global, coming: VecDeque<Option<MemLink>>, failing: Vec<u64>) -> MemLinks
        requires { AllByRecursion IsFresh coming.items }
        ensures { result ≡ record { given = []; coming = coming.items; door = record { faults = 0; waits = 0 } } }
    {
        MemLinks {
            given: Vec::new(alloc),
            coming,
            failing,
            calls: 0,
            faults: 0,
            waits: 0,
        }
    }

    /// The links given so far.
    pub fn given(&self) -> &[MemLink]
        ensures { result.now ≡ self.now.given }
    {
        self.given.as_slice()
    }
}

impl Links for MemLinks {
    ghost tells = { true };

    ghost to_come = { λ s. inputs_of s.coming };

    ghost links = { λ s. s.given };

    ghost door = { λ s. s.door };

    fn listen(&mut self, _port: u16) -> Begun {
        Begun::Listening
    }

    fn accept(&mut self) -> Accept {
        let call = self.calls;
        self.calls = self.calls.saturating_add(1);
        let number = self.given.as_slice().len();
        if number >= u32::MAX as usize
            || self.failing.contains(&call)
            || self.given.reserve(1).is_err()
        {
            self.faults = risen(self.faults);
            return Accept::Failed;
        }
        let Some(Some(link)) = self.coming.pop_front() else {
            self.waits = risen(self.waits);
            return Accept::NotReady;
        };
        if self.given.push(link).is_err() {
            unreachable!()
        }
        Accept::New(LinkId(number as u32))
    }

    fn read(&mut self, link: LinkId, into: &mut [u8]) -> LinkRead {
        self.given[link.0 as usize].read(into)
    }

    fn write(&mut self, link: LinkId, bytes: &[u8]) -> LinkWrite {
        self.given[link.0 as usize].write(bytes)
    }

    fn close(&mut self, _link: LinkId) {}
}
