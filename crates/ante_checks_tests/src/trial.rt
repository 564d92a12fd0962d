//! A state that is built line by line, and what is asked of transactions on it.
ghost use Rattle.std.specs.Prelude.{◌≡◌, ◌<◌, length, None};

use crate::answers::print_refusal;
use crate::words::{Line, Sending, empty_transaction, read_line, wrong, zeros};
use ante_builtin::builtin_store;
use ante_checks::{check_memory, check_reading, check_transaction};
use ante_pack::Digest;
use ante_sessions::Sessions;
use ante_store::{Change, Store, Tables, Writing};
use ante_types::{Failure, Transaction};
use ante_verdicts::NamedVerdicts;
use std::alloc::Global;
use std::io;
use std::io::ErrorKind;

/// A store with an open session, and the transaction in hand.
#[derive(Drop)]
pub struct Trial {
    store: Store,
    trx: Transaction,
    ghost open: { 0 < length store.under },
    ghost unshelved: { store.shelf ≡ None },
}

// More sessions than any table begins.
const MOST_SESSIONS: u64 = 1 << 62;

const CHAIN: Digest = [0; 32];

fn make(alloc: Global, store: &mut Store, change: Change) -> io::Result<()>
    requires open { 0 < length store.old.under }
    requires unshelved { store.old.shelf ≡ None }
    ensures under { store.new.under ≡ store.old.under }
    ensures shelf { store.new.shelf ≡ store.old.shelf }
{
    let mut tables = Writing(store);
    match tables.write(alloc, change) {
        Ok(()) => Ok(()),
        Err(_) => Err(io::Error::from(ErrorKind::OutOfMemory)),
    }
}

fn read(
    alloc: Global,
    store: &Store,
    trx: &Transaction,
    size: usize,
) -> io::Result<Option<Failure>> {
    let packed = zeros(alloc, size)?;
    if trx.actions.len() > u32::MAX as usize {
        return Err(wrong());
    }
    Ok(check_reading(alloc, store, trx, packed.as_slice())?)
}

fn check(
    alloc: Global,
    store: &Store,
    trx: &Transaction,
    sending: &Sending,
) -> io::Result<Option<Failure>> {
    let packed = zeros(alloc, sending.size)?;
    let refusal = check_transaction(
        alloc,
        store,
        &NamedVerdicts,
        &CHAIN,
        sending.slot,
        trx,
        packed.as_slice(),
        &sending.signatures,
    )?;
    Ok(refusal)
}

impl Trial {
    pub fn new(alloc: Global) -> io::Result<Trial> {
        let mut store = builtin_store(alloc)?;
        store.begin(alloc)?;
        let trx = empty_transaction(alloc);
        Ok(Trial { store, trx })
    }

    fn begin(&mut self, alloc: Global) -> io::Result<()> {
        if self.store.revision() >= MOST_SESSIONS {
            return Err(wrong());
        }
        self.store.begin(alloc)?;
        Ok(())
    }

    fn check(&self, rt: &impl Print, alloc: Global, sending: &Sending) -> io::Result<()> {
        let refusal = check(alloc, &self.store, &self.trx, sending)?;
        print_refusal(rt, &refusal)
    }

    fn read(&self, rt: &impl Print, alloc: Global, size: usize) -> io::Result<()> {
        let refusal = read(alloc, &self.store, &self.trx, size)?;
        print_refusal(rt, &refusal)
    }

    /// Does what the line says, and prints it with what comes of it.
    pub fn print(&mut self, rt: &impl Print, alloc: Global, line: &str) -> io::Result<()> {
        if line.is_empty() || line.starts_with('#') {
            return println!(rt; "{line}");
        }
        print!(rt; "{line} => ")?;
        match read_line(alloc, line)? {
            Line::State => {
                *self = Trial::new(alloc)?;
                println!(rt; "done")
            }
            Line::Begin => {
                self.begin(alloc)?;
                println!(rt; "done")
            }
            Line::Change(change) => {
                make(alloc, &mut self.store, change)?;
                println!(rt; "done")
            }
            Line::Transaction(trx) => {
                self.trx = trx;
                println!(rt; "done")
            }
            Line::Action(action) => {
                self.trx.actions.push(alloc, action)?;
                println!(rt; "done")
            }
            Line::Check(sending) => self.check(rt, alloc, &sending),
            Line::Read(size) => self.read(rt, alloc, size),
            Line::Memory => print_refusal(rt, &check_memory(&self.store)),
        }
    }
}
