//! Chains of genesis alone over a machine of numbers, and blocks that are pushed onto them.
ghost use Rattle.std.specs.Prelude.{◌≡◌, IsSome, IsNone, IsOk, IfOk, OnOk, OnErr};
ghost use Rattle.ante_pack.specs.Forms.{list_of, whole};
ghost use Rattle.ante_types.specs.Chain.{receipt, transaction};

use crate::numbers::Numbers;
use ante_control::{Chain, PushError, Pushed};
use ante_pack::{Bytes, Digest, Seq};
use ante_session_machine::SessionMachine;
use ante_types::{Block, Head, Trace, read_block, read_genesis, read_trx};
use ante_undo::Layered;
use ante_verdicts::NamedVerdicts;
use sha2::{Digest as _, Sha256};
use std::alloc::Global;
use std::io;
use std::io::ErrorKind;
use std::marker::Model;

type NumberMachine = SessionMachine<Layered<u32, u32>, Numbers>;

/// A chain on which no block is being made.
#[derive(Drop)]
pub struct Pushes {
    chain: Chain<NumberMachine>,
}

impl Model for Pushes {
    ghost use Rattle.std.specs.Prelude.{IsNone};

    ghost Value = { Unit {0} };

    ghost view = { λ s. tt };

    ghost invariant = { λ s. IsNone s.chain.pending };
}

#[tactic(auto, unfolding(ante_types::specs::Chain::block))]
fn block_from(alloc: Global, packed: &[u8]) -> io::Result<Block>
    ensures { IfOk result (λ block. (list_of receipt).Fits block.receipts) }
{
    match read_block(alloc, packed) {
        Ok(block) => Ok(block),
        Err(_) => Err(ErrorKind::InvalidData.into()),
    }
}

/// What becomes of a transaction in a block that is being made.
#[derive(Clone, Copy)]
pub enum Ran {
    Fine { position: u64 },
    Failed { position: u64 },
    NoRoom,
}

/// Begins a block of the slot, whose producer makes it.
fn begin(alloc: Global, chain: &mut Chain<NumberMachine>, slot: u32) -> io::Result<()>
    requires { IsNone chain.old.pending }
    ensures ok { OnOk result (IsSome chain.new.pending) }
    ensures err { OnErr result (IsNone chain.new.pending) }
{
    let head = chain.head();
    if head.num == u32::MAX {
        return Err(ErrorKind::InvalidData.into());
    }
    let Some(block) = chain.block(&head.id) else {
        return Err(ErrorKind::InvalidData.into());
    };
    if slot <= block.header.slot {
        return Err(ErrorKind::InvalidData.into());
    }
    let producer = chain.producer_at(slot);
    match chain.begin_block(alloc, slot, producer) {
        Ok(()) => Ok(()),
        Err(_) => Err(ErrorKind::OutOfMemory.into()),
    }
}

fn check(alloc: Global, packed: &[u8]) -> io::Result<()>
    ensures { OnOk result (IsOk (whole transaction packed.now)) }
{
    match read_trx(alloc, packed) {
        Ok(_) => Ok(()),
        Err(_) => Err(ErrorKind::InvalidData.into()),
    }
}

fn ran_of(trace: &Trace) -> Ran {
    let position = trace.position;
    if trace.failure.is_some() {
        return Ran::Failed { position };
    }
    Ran::Fine { position }
}

/// Runs an unsigned transaction in the block, where there is room.
fn run(alloc: Global, chain: &mut Chain<NumberMachine>, packed: &[u8]) -> io::Result<Ran>
    requires { IsSome chain.old.pending }
    ensures { IsSome chain.new.pending }
{
    check(alloc, packed)?;
    let signatures = Seq::new(alloc);
    if !chain.room(packed, &signatures) {
        return Ok(Ran::NoRoom);
    }
    match chain.push_trx(alloc, packed, &signatures, &NamedVerdicts) {
        Ok(trace) => Ok(ran_of(&trace)),
        Err(_) => Err(ErrorKind::OutOfMemory.into()),
    }
}

/// Seals the block, or abandons it.
fn end(alloc: Global, chain: &mut Chain<NumberMachine>, sealed: bool) -> io::Result<()>
    requires { IsSome chain.old.pending }
    ensures { IsNone chain.new.pending }
{
    if !sealed {
        chain.abandon();
        return Ok(());
    }
    match chain.seal(alloc, &NamedVerdicts) {
        Ok(_) => Ok(()),
        Err(_) => {
            chain.abandon();
            Err(ErrorKind::OutOfMemory.into())
        }
    }
}

/// Runs each transaction once.
fn run_all(
    alloc: Global,
    chain: &mut Chain<NumberMachine>,
    transactions: &[Bytes],
    outcomes: &mut Vec<Ran>,
) -> io::Result<()>
    requires { IsSome chain.old.pending }
    ensures { IsSome chain.new.pending }
{
    for packed in transactions {
        let ran = run(alloc, chain, packed.as_slice())?;
        outcomes.push(ran)?;
    }
    Ok(())
}

/// Runs a transaction until it has no room, at most 10,000 times, and answers how often it ran.
fn fill(alloc: Global, chain: &mut Chain<NumberMachine>, packed: &[u8]) -> io::Result<u32>
    requires { IsSome chain.old.pending }
    ensures { IsSome chain.new.pending }
{
    for count in 0..10_000 {
        if let Ran::NoRoom = run(alloc, chain, packed)? {
            return Ok(count);
        }
    }
    Ok(10_000)
}

impl Pushes {
    /// Makes a block of the slot and seals it, or abandons it, and answers what became of each transaction.
    pub fn make(
        &mut self,
        alloc: Global,
        slot: u32,
        transactions: &[Bytes],
        sealed: bool,
    ) -> io::Result<Vec<Ran>> {
        let mut outcomes = Vec::new(alloc);
        begin(alloc, &mut self.chain, slot)?;
        let all = run_all(alloc, &mut self.chain, transactions, &mut outcomes);
        end(alloc, &mut self.chain, sealed && all.is_ok())?;
        all?;
        Ok(outcomes)
    }

    /// Seals a block of as many receipts of a transaction as have room.
    pub fn make_full(&mut self, alloc: Global, slot: u32, packed: &[u8]) -> io::Result<u32> {
        begin(alloc, &mut self.chain, slot)?;
        let count = fill(alloc, &mut self.chain, packed);
        end(alloc, &mut self.chain, count.is_ok())?;
        count
    }

    /// The chain of genesis alone.
    pub fn start(alloc: Global, packed: &[u8]) -> io::Result<Pushes> {
        let genesis = read_genesis(alloc, packed).map_err(|_| ErrorKind::InvalidData)?;
        let count = genesis.producers.len();
        if count == 0 || count > 21 {
            return Err(ErrorKind::InvalidData.into());
        }
        let state = Layered::new(alloc, 1);
        let machine = SessionMachine::new(Sha256::digest(packed), state, Numbers);
        let chain = Chain::new(alloc, machine, &genesis, packed)?;
        Ok(Pushes { chain })
    }

    pub fn push(&mut self, alloc: Global, packed: &[u8]) -> io::Result<Result<Pushed, PushError>> {
        let block = block_from(alloc, packed)?;
        Ok(self.chain.push_block(alloc, block, &NamedVerdicts))
    }

    pub fn head(&self) -> Digest {
        self.chain.head().id
    }

    pub fn irreversible(&self) -> u32 {
        self.chain.irreversible()
    }

    pub fn applied(&self) -> &[Head] {
        self.chain.applied()
    }

    /// The number at a key of the head's world.
    pub fn number(&self, key: u32) -> Option<u32> {
        self.chain.machine().state().get(&key).copied()
    }

    pub fn is_kept(&self, id: &Digest) -> bool {
        self.chain.block(id).is_some()
    }
}
