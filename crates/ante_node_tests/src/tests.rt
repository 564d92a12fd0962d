ghost use Rattle.std.specs.Prelude.{◌≡◌, ◌≤◌, length};
ghost use Rattle.ante_base.specs.Faults.{HasCause};
ghost use Rattle.ante_base.specs.Source.{CountsWithin, Reads};

use super::rows::ROWS;
use ante_base::{AtLook, Exact, Got, MemSink, MemSource, NeverStop, Reading, Sink, Source, Stop};
use ante_node::{NodeEnd, NodeFault, run_node, run_offline};
use std::alloc::Global;
use std::test::Fail;

const PING: &str = "0000000000000000000000000000010000000000ea30550000000000c0a6ab000000\n";

/// A source that hands out one byte at a time.
#[derive(Drop)]
struct ByByte<R> {
    inner: R,
}

impl<R: Source> Source for ByByte<R> {
    ghost left = { λ s. R.left s.inner };

    ghost faults = { λ s. R.faults s.inner };

    fn read(&mut self, into: &mut [u8]) -> Got {
        let first = &mut into[..1];
        self.inner.read(first)
    }
}

fn source(alloc: Global, text: &str, failing: Vec<u64>) -> Result<MemSource, Fail> {
    Ok(MemSource::new(Vec::from_slice(alloc, text.as_bytes())?, failing))
}

fn ask<R: Source, S: Sink>(
    alloc: Global,
    words: &[&str],
    files: &mut R,
    out: &mut S,
) -> Result<NodeEnd, Fail> {
    let mut owned = Vec::new(alloc);
    for word in words {
        owned.push(String::from_str(alloc, word)?)?;
    }
    Ok(run_node(alloc, &owned, files, out))
}

#[test]
fn inputs_have_their_answers(rt: HostRuntime) -> Result<(), Fail> {
    let alloc = rt.alloc();
    for row in &ROWS {
        let mut files = source(alloc, row.input, Vec::new(alloc))?;
        let mut out = MemSink::new(alloc, Vec::new(alloc));
        let end = ask(alloc, &["ask"], &mut files, &mut out)?;
        assert_eq!(rt; end.status, row.status);
        assert_eq!(rt; out.bytes(), row.output.as_bytes());
    }
    Ok(())
}

#[test]
fn a_byte_at_a_time_gives_the_same(rt: HostRuntime) -> Result<(), Fail> {
    let alloc = rt.alloc();
    for row in &ROWS {
        let inner = source(alloc, row.input, Vec::new(alloc))?;
        let mut out = MemSink::new(alloc, Vec::new(alloc));
        let end = ask(alloc, &["ask"], &mut ByByte { inner }, &mut out)?;
        assert_eq!(rt; end.status, row.status);
        assert_eq!(rt; out.bytes(), row.output.as_bytes());
    }
    Ok(())
}

#[test]
fn words_are_named(rt: HostRuntime) -> Result<(), Fail> {
    let alloc = rt.alloc();
    let rows: [(&[&str], &[u8]); 4] = [
        (&[], b"words 0\n"),
        (&["serve"], b"words 0\n"),
        (&["asks"], b"words 0\n"),
        (&["ask", "ask"], b"words 1\n"),
    ];
    for (words, line) in rows {
        let mut files = source(alloc, PING, Vec::new(alloc))?;
        let mut out = MemSink::new(alloc, Vec::new(alloc));
        let end = ask(alloc, words, &mut files, &mut out)?;
        assert_eq!(rt; end.status, 2);
        assert_eq!(rt; out.bytes(), line);
    }
    Ok(())
}

#[test]
fn failing_calls_are_named(rt: HostRuntime) -> Result<(), Fail> {
    let alloc = rt.alloc();
    for (call, status) in [(0, 4), (1, 4), (2, 0)] {
        let mut files = source(alloc, PING, vec![in alloc; call]?)?;
        let mut out = MemSink::new(alloc, Vec::new(alloc));
        assert_eq!(rt; ask(alloc, &["ask"], &mut files, &mut out)?.status, status);
        assert_eq!(rt; out.bytes().is_empty(), status != 0);
    }
    for (call, status) in [(0, 5), (1, 0)] {
        let mut files = source(alloc, PING, Vec::new(alloc))?;
        let mut out = MemSink::new(alloc, vec![in alloc; call]?);
        assert_eq!(rt; ask(alloc, &["ask"], &mut files, &mut out)?.status, status);
    }
    let mut files = source(alloc, "0", Vec::new(alloc))?;
    let mut out = MemSink::new(alloc, vec![in alloc; 0]?);
    assert_eq!(rt; ask(alloc, &["ask"], &mut files, &mut out)?.status, 3);
    Ok(())
}

#[test]
fn no_block_is_applied_offline(rt: HostRuntime) -> Result<(), Fail> {
    let alloc = rt.alloc();
    let mut files = source(alloc, PING, Vec::new(alloc))?;
    let mut out = MemSink::new(alloc, Vec::new(alloc));
    let words = vec![in alloc; String::from_str(alloc, "ask")?]?;
    let end = run_offline(alloc, &words, &mut files, &mut out);
    assert_eq!(rt; end.fault, NodeFault::Nothing);
    assert_eq!(rt; end.applied.len(), 0);
    Ok(())
}

/// How many bytes the next exact read has, and whether these are all that were wanted.
fn next<R: Source>(
    alloc: Global,
    reading: &mut Reading<'_, R>,
    count: usize,
) -> Result<(usize, bool), Fail> {
    if count > 8 || reading.place() > 8 {
        return Ok((0, false));
    }
    match reading.read_exact(alloc, count)? {
        Exact::Whole(bytes) => Ok((bytes.as_slice().len(), true)),
        Exact::Ended(found) => Ok((found, false)),
    }
}

#[test]
fn exact_counts_have_their_places(rt: HostRuntime) -> Result<(), Fail> {
    let alloc = rt.alloc();
    let mut files = source(alloc, "abcdefg", Vec::new(alloc))?;
    let mut reading = Reading::new(&mut files);
    for (count, found, whole, place) in [
        (4, 4, true, 4),
        (0, 0, true, 4),
        (5, 3, false, 7),
        (1, 0, false, 7),
    ] {
        assert_eq!(rt; next(alloc, &mut reading, count)?, (found, whole));
        assert_eq!(rt; reading.place(), place);
    }
    Ok(())
}

#[test]
fn a_stop_asks_at_one_look(rt: HostRuntime) -> Result<(), Fail> {
    let mut stop = AtLook::new(2, 9);
    for answer in [None, None, Some(9), None] {
        assert_eq!(rt; stop.look(), answer);
    }
    assert_eq!(rt; stop.looks(), 4);
    assert_eq!(rt; NeverStop.look(), None);
    Ok(())
}
