//! Links over TCP, from this machine alone. No call waits for a peer; `accept` waits one millisecond where none has come.

ghost use Rattle.std.specs.Prelude.{◌≡◌, ◌<◌, ◌≤◌, [], length, false, map, Some, None};
ghost use Rattle.ante_links.specs.LinkStates.{LinkState, Door};
ghost use Rattle.ante_links.specs.Links.{Accepts, Admits, Changes, OneRead, OneWrite};
ghost use Rattle.ante_links.specs.Tcp.{Came, Took};

use crate::counts::{read_once, risen};
use crate::links::{Accept, Begun, LinkId, LinkRead, LinkWrite, Links};
use std::alloc::Global;
use std::io::{ErrorKind, Read, Write};
use std::marker::Model;
use std::net::{Ipv4Addr, Net, OpenListener, OpenStream, SocketAddr};
use std::thread::sleep;
use std::time::{Clock, Duration};

/// A link over TCP.
#[derive(Drop)]
struct TcpLink<T> {
    /// None once it is closed.
    stream: Option<T>,
    faults: u64,
    read_waits: u64,
    write_waits: u64,
    reads: u64,
    is_over: bool,
    last: Option<LinkWrite>,
}

impl<T> Model for TcpLink<T> {
    ghost use Rattle.std.specs.Prelude.{[]};
    ghost use Rattle.ante_links.specs.LinkStates.{LinkState};

    ghost Value = { LinkState };

    ghost view = { λ s. record {
      left = [];
      written = [];
      faults = s.faults;
      read_waits = s.read_waits;
      write_waits = s.write_waits;
      reads = s.reads;
      is_over = s.is_over;
      last = s.last;
    } };
}

/// One read of the stream.
fn receive<T: Read>(stream: &mut Option<T>, into: &mut [u8]) -> LinkRead
    requires { 1 ≤ length into.old }
    ensures { Came (length into.new) result }
{
    let Some(stream) = stream else {
        return LinkRead::Failed;
    };
    match stream.read(into) {
        Ok(0) => LinkRead::End,
        Ok(count) => LinkRead::Bytes(count),
        Err(error) if error.kind() == ErrorKind::WouldBlock => LinkRead::NotReady,
        Err(_) => LinkRead::Failed,
    }
}

/// One write to the stream.
fn send<T: Write>(stream: &mut Option<T>, bytes: &[u8]) -> LinkWrite
    requires { 1 ≤ length bytes.now }
    ensures { Took (length bytes.now) result }
{
    let Some(stream) = stream else {
        return LinkWrite::Failed;
    };
    match stream.write(bytes) {
        Ok(0) => LinkWrite::NotReady,
        Ok(count) => LinkWrite::Wrote(count),
        Err(error) if error.kind() == ErrorKind::WouldBlock => LinkWrite::NotReady,
        Err(_) => LinkWrite::Failed,
    }
}

impl<T: Read + Write + Drop> TcpLink<T> {
    fn new(stream: T) -> TcpLink<T>
        ensures { result ≡ record { left = []; written = []; faults = 0; read_waits = 0; write_waits = 0; reads = 0; is_over = false; last = None } }
    {
        TcpLink {
            stream: Some(stream),
            faults: 0,
            read_waits: 0,
            write_waits: 0,
            reads: 0,
            is_over: false,
            last: None,
        }
    }

    fn read(&mut self, into: &mut [u8]) -> LinkRead
        requires { 1 ≤ length into.old }
        ensures { OneRead false self.old self.new into.new result }
    {
        if self.is_over {
            return LinkRead::End;
        }
        let answer = receive(&mut self.stream, into);
        match answer {
            LinkRead::Bytes(_) => {
                self.reads = read_once(self.reads);
                answer
            }
            LinkRead::NotReady => {
                self.reads = read_once(self.reads);
                self.read_waits = risen(self.read_waits);
                answer
            }
            LinkRead::End => {
                self.is_over = true;
                answer
            }
            LinkRead::Failed => {
                self.faults = risen(self.faults);
                answer
            }
        }
    }

    fn write(&mut self, bytes: &[u8]) -> LinkWrite
        requires { 1 ≤ length bytes.now }
        ensures { OneWrite false self.old self.new bytes.now result }
    {
        let answer = send(&mut self.stream, bytes);
        self.last = Some(answer);
        match answer {
            LinkWrite::Wrote(_) => answer,
            LinkWrite::NotReady => {
                self.write_waits = risen(self.write_waits);
                answer
            }
            LinkWrite::Failed => {
                self.faults = risen(self.faults);
                answer
            }
        }
    }

    fn close(&mut self)
        ensures { self.new ≡ self.old }
    {
        self.stream = None;
    }
}

/// Links that peers on this machine open to a port.
#[derive(Drop)]
pub struct TcpLinks<'a, R: Net> {
    rt: &'a R,
    listener: Option<R::Listener>,
    given: Vec<TcpLink<R::Stream>>,
    faults: u64,
    waits: u64,
}

impl<'a, R: Net> Model for TcpLinks<'a, R> {
    ghost use Rattle.std.specs.Prelude.{[]};
    ghost use Rattle.ante_links.specs.Memory.{LinkSet};

    ghost Value = { LinkSet };

    ghost view = { λ s. record { given = s.given.items; coming = []; door = record { faults = s.faults; waits = s.waits } } };
}

/// What came through the listener.
#[derive(Drop)]
enum Coming<T> {
    Stream(T),
    Nobody,
    Failed,
}

/// Takes in the next peer, if one has come.
fn take_in<R: Net + Clock>(rt: &R, listener: &Option<R::Listener>) -> Coming<R::Stream> {
    let Some(listener) = listener else {
        return Coming::Failed;
    };
    match listener.accept() {
        Ok((stream, _)) => match stream.set_nonblocking(true) {
            Ok(()) => Coming::Stream(stream),
            Err(_) => Coming::Failed,
        },
        Err(error) if error.kind() == ErrorKind::WouldBlock => {
            sleep(rt, Duration::from_millis(1));
            Coming::Nobody
        }
        Err(_) => Coming::Failed,
    }
}

/// A listener at this port of the machine, whose `accept` doesn't wait.
fn open<R: Net>(rt: &R, port: u16) -> Option<R::Listener> {
    let address = SocketAddr::from((Ipv4Addr::LOCALHOST, port));
    let listener = rt.bind(address).ok()?;
    listener.set_nonblocking(true).ok()?;
    Some(listener)
}

impl<'a, R: Net> TcpLinks<'a, R> {
    /// No links, and no port that is listened at.
    pub fn new(rt: &'a R, alloc: Global) -> TcpLinks<'a, R>
        ensures { result ≡ record { given = []; coming = []; door = record { faults = 0; waits = 0 } } }
    {
        TcpLinks {
            rt,
            listener: None,
            given: Vec::new(alloc),
            faults: 0,
            waits: 0,
        }
    }
}

impl<'a, R: Net + Clock> Links for TcpLinks<'a, R> {
    ghost tells = { false };

    ghost to_come = { λ s. [] };

    ghost links = { λ s. s.given };

    ghost door = { λ s. s.door };

    fn listen(&mut self, port: u16) -> Begun {
        match open(self.rt, port) {
            Some(listener) => {
                self.listener = Some(listener);
                Begun::Listening
            }
            None => {
                self.faults = risen(self.faults);
                Begun::Failed
            }
        }
    }

    fn accept(&mut self) -> Accept {
        let number = self.given.as_slice().len();
        if number >= u32::MAX as usize || self.given.reserve(1).is_err() {
            self.faults = risen(self.faults);
            return Accept::Failed;
        }
        match take_in(self.rt, &self.listener) {
            Coming::Stream(stream) => {
                if self.given.push(TcpLink::new(stream)).is_err() {
                    unreachable!()
                }
                Accept::New(LinkId(number as u32))
            }
            Coming::Nobody => {
                self.waits = risen(self.waits);
                Accept::NotReady
            }
            Coming::Failed => {
                self.faults = risen(self.faults);
                Accept::Failed
            }
        }
    }

    fn read(&mut self, link: LinkId, into: &mut [u8]) -> LinkRead {
        self.given[link.0 as usize].read(into)
    }

    fn write(&mut self, link: LinkId, bytes: &[u8]) -> LinkWrite {
        self.given[link.0 as usize].write(bytes)
    }

    fn close(&mut self, link: LinkId) {
        self.given[link.0 as usize].close()
    }
}
