//! A table's lines: blocks and transactions, and chains onto which blocks are pushed and upon which they are made.
use crate::pushes::{Pushes, Ran};
use ante_control::{PushError, Pushed};
use ante_pack::{Bytes, Digest, Name, name_from_text, name_text};
use ante_types::{block_id, block_num, read_block};
use std::alloc::Global;
use std::io;
use std::io::ErrorKind;

/// A block of the table.
#[derive(Drop)]
struct Entry {
    name: Name,
    id: Digest,
    packed: Bytes,
}

/// A transaction of the table.
#[derive(Drop)]
struct Job {
    name: Name,
    packed: Bytes,
}

/// The blocks and transactions so far.
#[derive(Drop)]
pub struct Table {
    genesis: Bytes,
    entries: Vec<Entry>,
    jobs: Vec<Job>,
}

fn invalid<T>() -> io::Result<T> {
    Err(ErrorKind::InvalidData.into())
}

fn name_of(text: &str) -> io::Result<Name> {
    Ok(name_from_text(text).map_err(|_| ErrorKind::InvalidData)?)
}

fn bytes_of(alloc: Global, text: &str) -> io::Result<Bytes> {
    let bytes = hex::decode(alloc, text).map_err(|_| ErrorKind::InvalidData)?;
    Ok(Bytes::from_vec(bytes))
}

/// The id of a packed block. One upon the last number has none.
fn id_of(alloc: Global, packed: &[u8]) -> io::Result<Digest> {
    let block = read_block(alloc, packed).map_err(|_| ErrorKind::InvalidData)?;
    if block_num(&block.header.previous) == u32::MAX {
        return Ok([0; 32]);
    }
    Ok(block_id(&block.header))
}

fn print_name(rt: &impl Print, name: Name) -> io::Result<()> {
    let (text, length) = name_text(name);
    for byte in text.iter().take(length) {
        print!(rt; "{}", *byte as char)?;
    }
    Ok(())
}

fn print_ran(rt: &impl Print, ran: Ran) -> io::Result<()> {
    match ran {
        Ran::Fine { position } => print!(rt; "Fine({position})"),
        Ran::Failed { position } => print!(rt; "Failed({position})"),
        Ran::NoRoom => print!(rt; "NoRoom"),
    }
}

/// The slot, and what stands behind the colon after it.
fn slot_of(text: &str) -> io::Result<(u32, &str)> {
    let Some((slot, rest)) = text.split_once(':') else {
        return invalid();
    };
    let slot = slot.parse().map_err(|_| ErrorKind::InvalidData)?;
    Ok((slot, rest))
}

impl Table {
    pub fn new(alloc: Global) -> Table {
        Table {
            genesis: Bytes::new(alloc),
            entries: Vec::new(alloc),
            jobs: Vec::new(alloc),
        }
    }

    fn entry(&self, text: &str) -> io::Result<&Entry> {
        let name = name_of(text)?;
        for entry in self.entries.iter() {
            if entry.name == name {
                return Ok(entry);
            }
        }
        invalid()
    }

    fn print_id(&self, rt: &impl Print, id: &Digest) -> io::Result<()> {
        for entry in self.entries.iter() {
            if entry.id == *id {
                return print_name(rt, entry.name);
            }
        }
        print!(rt; "genesis")
    }

    fn add_block(&mut self, alloc: Global, text: &str) -> io::Result<()> {
        let mut words = text.split_whitespace();
        let name = name_of(words.next().ok_or(ErrorKind::InvalidData)?)?;
        let packed = bytes_of(alloc, words.next().ok_or(ErrorKind::InvalidData)?)?;
        let id = id_of(alloc, packed.as_slice())?;
        Ok(self.entries.push(Entry { name, id, packed })?)
    }

    /// A block that is made in the table, and isn't pushed by its name.
    fn add_id(&mut self, alloc: Global, text: &str) -> io::Result<()> {
        let mut words = text.split_whitespace();
        let name = name_of(words.next().ok_or(ErrorKind::InvalidData)?)?;
        let mut id = [0; 32];
        let digits = words.next().ok_or(ErrorKind::InvalidData)?;
        hex::decode_to_slice(digits, id.as_mut_slice()).map_err(|_| ErrorKind::InvalidData)?;
        let packed = Bytes::new(alloc);
        Ok(self.entries.push(Entry { name, id, packed })?)
    }

    fn add_job(&mut self, alloc: Global, text: &str) -> io::Result<()> {
        let mut words = text.split_whitespace();
        let name = name_of(words.next().ok_or(ErrorKind::InvalidData)?)?;
        let packed = bytes_of(alloc, words.next().ok_or(ErrorKind::InvalidData)?)?;
        Ok(self.jobs.push(Job { name, packed })?)
    }

    fn job(&self, alloc: Global, text: &str) -> io::Result<Bytes> {
        let name = name_of(text)?;
        for job in self.jobs.iter() {
            if job.name == name {
                return Ok(job.packed.try_clone(alloc)?);
            }
        }
        invalid()
    }

    fn jobs(&self, alloc: Global, text: &str) -> io::Result<Vec<Bytes>> {
        let mut jobs = Vec::new(alloc);
        for name in text.split(',') {
            if !name.is_empty() {
                let job = self.job(alloc, name)?;
                jobs.push(job)?;
            }
        }
        Ok(jobs)
    }

    fn print_outcome(&self, rt: &impl Print, pushed: Result<Pushed, PushError>) -> io::Result<()> {
        match pushed {
            Ok(Pushed::Head { position }) => print!(rt; "Head({position})"),
            Ok(Pushed::Kept) => print!(rt; "Kept"),
            Err(PushError::OutOfMemory) => print!(rt; "OutOfMemory"),
            Err(PushError::Known) => print!(rt; "Known"),
            Err(PushError::Unlinkable { .. }) => print!(rt; "Unlinkable"),
            Err(PushError::BadRoot) => print!(rt; "BadRoot"),
            Err(PushError::BadSlot) => print!(rt; "BadSlot"),
            Err(PushError::BadProducer) => print!(rt; "BadProducer"),
            Err(PushError::BadSeal) => print!(rt; "BadSeal"),
            Err(PushError::Invalid { block, code }) => {
                print!(rt; "Invalid(")?;
                self.print_id(rt, &block)?;
                print!(rt; ",{code})")
            }
        }
    }

    fn print_head(&self, rt: &impl Print, pushes: &Pushes) -> io::Result<()> {
        print!(rt; "/")?;
        self.print_id(rt, &pushes.head())?;
        print!(rt; "/{}", pushes.irreversible())
    }

    fn make(
        &self,
        rt: &impl Print,
        alloc: Global,
        pushes: &mut Pushes,
        text: &str,
        sealed: bool,
    ) -> io::Result<()> {
        let (slot, names) = slot_of(text)?;
        let jobs = self.jobs(alloc, names)?;
        let outcomes = pushes.make(alloc, slot, jobs.as_slice(), sealed)?;
        for ran in outcomes.iter() {
            print_ran(rt, *ran)?;
        }
        self.print_head(rt, pushes)
    }

    fn fill(
        &self,
        rt: &impl Print,
        alloc: Global,
        pushes: &mut Pushes,
        text: &str,
    ) -> io::Result<()> {
        let (slot, name) = slot_of(text)?;
        let job = self.job(alloc, name)?;
        let count = pushes.make_full(alloc, slot, job.as_slice())?;
        print!(rt; "Fine*{count}")?;
        self.print_head(rt, pushes)
    }

    /// A word names a block to push, or says which block to make.
    fn step(
        &self,
        rt: &impl Print,
        alloc: Global,
        pushes: &mut Pushes,
        word: &str,
    ) -> io::Result<()> {
        print!(rt; " {word}:")?;
        if let Some(text) = word.strip_prefix("make:") {
            return self.make(rt, alloc, pushes, text, true);
        }
        if let Some(text) = word.strip_prefix("drop:") {
            return self.make(rt, alloc, pushes, text, false);
        }
        if let Some(text) = word.strip_prefix("fill:") {
            return self.fill(rt, alloc, pushes, text);
        }
        self.push(rt, alloc, pushes, word)
    }

    fn push(
        &self,
        rt: &impl Print,
        alloc: Global,
        pushes: &mut Pushes,
        name: &str,
    ) -> io::Result<()> {
        let entry = self.entry(name)?;
        let pushed = pushes.push(alloc, entry.packed.as_slice())?;
        self.print_outcome(rt, pushed)?;
        self.print_head(rt, pushes)
    }

    fn print_end(&self, rt: &impl Print, pushes: &Pushes) -> io::Result<()> {
        print!(rt; " applied")?;
        for head in pushes.applied() {
            print!(rt; " ")?;
            self.print_id(rt, &head.id)?;
        }
        print!(rt; " kept")?;
        for entry in self.entries.iter() {
            if pushes.is_kept(&entry.id) {
                print!(rt; " ")?;
                print_name(rt, entry.name)?;
            }
        }
        print!(rt; " world")?;
        for key in 0..10 {
            if let Some(number) = pushes.number(key) {
                print!(rt; " {key}:{number}")?;
            }
        }
        println!(rt; "")
    }

    fn push_all(&self, rt: &impl Print, alloc: Global, text: &str) -> io::Result<()> {
        let mut pushes = Pushes::start(alloc, self.genesis.as_slice())?;
        for word in text.split_whitespace() {
            self.step(rt, alloc, &mut pushes, word)?;
        }
        self.print_end(rt, &pushes)
    }

    /// Does what the line says and prints what comes of it.
    pub fn print(&mut self, rt: &impl Print, alloc: Global, line: &str) -> io::Result<()> {
        if let Some(text) = line.strip_prefix("genesis ") {
            self.genesis = bytes_of(alloc, text)?;
            return Ok(());
        }
        if let Some(text) = line.strip_prefix("block ") {
            return self.add_block(alloc, text);
        }
        if let Some(text) = line.strip_prefix("id ") {
            return self.add_id(alloc, text);
        }
        if let Some(text) = line.strip_prefix("trx ") {
            return self.add_job(alloc, text);
        }
        if let Some(text) = line.strip_prefix("push ") {
            print!(rt; "{text} =>")?;
            return self.push_all(rt, alloc, text);
        }
        println!(rt; "{line}")
    }
}
