ghost use Rattle.std.specs.Prelude.{◌≡◌, ◌≢◌, ◌≤◌, [], length, Some};
ghost use Rattle.ante_base.specs.Faults.{HasCause};
ghost use Rattle.ante_base.specs.Source.{CountsWithin, Reads};
ghost use Rattle.ante_base.specs.Sink.{Writes};
ghost use Rattle.ante_base.specs.Memory.{Fills, ReadsAsListed, WritesAsListed};

use crate::sink::{Put, Sink};
use crate::source::{Got, Source};
use std::alloc::Global;
use std::cmp::min;
use std::marker::Model;

/// A source over bytes in memory, in which the reads of the given numbers fail.
#[derive(Debug, Drop)]
pub struct MemSource {
    bytes: Vec<u8>,
    at: usize,
    failing: Vec<u64>,
    calls: u64,
    faults: u64,
}

impl Model for MemSource {
    ghost use Rattle.std.specs.Prelude.{◌≤◌, length, drop};
    ghost use Rattle.ante_base.specs.Memory.{MemoryInput};

    ghost Value = { MemoryInput };

    ghost view = { λ s. record { left = drop s.at s.bytes.items; failing = s.failing.items; calls = s.calls; faults = s.faults } };

    ghost invariant = { λ s. s.at ≤ length s.bytes.items };
}

impl MemSource {
    /// Reads are numbered from 0.
    pub fn new(bytes: Vec<u8>, failing: Vec<u64>) -> MemSource
        ensures { result ≡ record { left = bytes.items; failing = failing.items; calls = 0; faults = 0 } }
    {
        MemSource {
            bytes,
            at: 0,
            failing,
            calls: 0,
            faults: 0,
        }
    }
}

impl Source for MemSource {
    ghost left = { λ s. Some s.left };

    ghost faults = { λ s. s.faults };

    fn read(&mut self, into: &mut [u8]) -> Got
        requires { 1 ≤ length into.old }
        ensures count { CountsWithin (length into.old) result }
        ensures bytes { Reads (Some self.old.left) (Some self.new.left) into.new result }
        ensures cause { HasCause self.old.faults self.new.faults (result ≡ Got.Failed) }
        ensures full { Fills (length into.old) self.old result }
        ensures listed { ReadsAsListed self.old self.new result }
    {
        let call = self.calls;
        self.calls = self.calls.saturating_add(1);
        if self.failing.contains(&call) {
            self.faults = self.faults.saturating_add(1);
            return Got::Failed;
        }
        let (_, left) = self.bytes.split_at(self.at);
        if left.is_empty() {
            return Got::End;
        }
        let count = min(left.len(), into.len());
        let (front, _) = left.split_at(count);
        into[..count].copy_from_slice(front);
        self.at += count;
        Got::Bytes(count)
    }
}

/// A sink in memory, in which the writes of the given numbers fail. A refused allocation is a fault too.
#[derive(Debug, Drop)]
pub struct MemSink {
    bytes: Vec<u8>,
    failing: Vec<u64>,
    calls: u64,
    faults: u64,
}

impl Model for MemSink {
    ghost use Rattle.ante_base.specs.Memory.{MemoryOutput};

    ghost Value = { MemoryOutput };

    ghost view = { λ s. record { written = s.bytes.items; failing = s.failing.items; calls = s.calls; faults = s.faults } };
}

impl MemSink {
    /// Writes are numbered from 0.
    pub fn new(alloc: Global, failing: Vec<u64>) -> MemSink
        ensures { result ≡ record { written = []; failing = failing.items; calls = 0; faults = 0 } }
    {
        MemSink {
            bytes: Vec::new(alloc),
            failing,
            calls: 0,
            faults: 0,
        }
    }

    /// All that was written.
    pub fn bytes(&self) -> &[u8]
        ensures { result.now ≡ self.now.written }
    {
        self.bytes.as_slice()
    }
}

impl Sink for MemSink {
    ghost written = { λ s. Some s.written };

    ghost faults = { λ s. s.faults };

    fn write(&mut self, bytes: &[u8]) -> Put
        requires { 1 ≤ length bytes.now }
        ensures bytes { Writes (Some self.old.written) (Some self.new.written) bytes.now result }
        ensures cause { HasCause self.old.faults self.new.faults (result ≡ Put.Failed) }
        ensures whole { result ≢ Put.Failed → result ≡ Put.Wrote (length bytes.now) }
        ensures listed { WritesAsListed self.old self.new result }
    {
        let call = self.calls;
        self.calls = self.calls.saturating_add(1);
        if self.failing.contains(&call) || self.bytes.extend_from_slice(bytes).is_err() {
            self.faults = self.faults.saturating_add(1);
            return Put::Failed;
        }
        Put::Wrote(bytes.len())
    }
}
