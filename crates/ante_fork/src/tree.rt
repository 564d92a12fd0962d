ghost use Rattle.std.specs.Prelude.{◌≡◌, ℕ, ◌+◌, ◌-◌, ◌≤◌, ◌<◌, ◌^◌, is_some, true, false, IsSome, None, IfOk, OnOk, OnErr, length, bytes_eq, nat_lt};
ghost use Rattle.std.specs.Option.{option_copied};
ghost use Rattle.ante_pack.specs.Forms.{list_of};
ghost use Rattle.ante_types.specs.Chain.{receipt};
ghost use Rattle.ante_types.specs.Chain as forms;
ghost use Rattle.ante_types.specs.Genesis.{genesis_head};
ghost use Rattle.ante_types.specs.Ids as ids;
ghost use Rattle.ante_fork.specs.Tree.{id_of, num_of, block_at, best_of, branch, meeting, tip, with_block, with_head, dropped, find_block, root, genesis_block, IsTree};
ghost use Rattle.ante_fork.specs.Rules.{refusal, misfit, IsAnswer};
ghost use Rattle.ante_fork.specs.Rules as rules;
ghost use Rattle.ante_fork.specs.Finality.{agreed, settled, settled_at};
ghost use Rattle.ante_fork.specs.Paths.{path_of, above_fork};
ghost use Rattle.ante_fork.specs.Paths as paths;

use crate::AddError;
use crate::agreement::agreed_on;
use crate::genesis::block_of;
use crate::kept::KeptBlocks;
use crate::node::Node;
use crate::settling::{keep_open, link};
use crate::walks::{best_in, meet, nth_down, num_down, prune};
use ante_pack::{Digest, Name, Seq};
use ante_types::{Block, Genesis, Head, block_id, block_num, trx_root};
use std::alloc::{AllocError, Global};
use std::marker::Model;
use std::rc::Rc;

/// Where a branch leaves the head's, and how many blocks it has above that.
#[derive(Clone, Copy, Debug, PartialEq, Eq)]
pub struct ForkPath {
    pub fork: Head,
    pub above: u32,
}

/// The kept blocks, of which one is the head.
#[derive(Drop)]
pub struct ForkTree {
    producers: Seq<Name>,
    genesis: Node,
    kept: KeptBlocks,
    head: Digest,
    irreversible: u32,
}

impl Model for ForkTree {
    ghost use Rattle.ante_fork.specs.Tree.{Tree};

    ghost Value = { Tree };

    ghost use Rattle.ante_fork.specs.Held.{tree_shown, IsHeld};

    ghost view = { tree_shown };

    ghost invariant = { IsHeld };
}

impl ForkTree {
    /// The tree of genesis alone. The head is genesis's number and id.
    pub fn new(alloc: Global, genesis: &Genesis, head: Head) -> Result<ForkTree, AllocError>
        requires fits { forms.genesis.Fits genesis.now }
        requires some { 1 ≤ length genesis.now.producers }
        requires few { length genesis.now.producers ≤ 21 }
        requires head { head ≡ genesis_head genesis.now }
        ensures { IfOk result (λ tree. tree ≡ root genesis.now.producers (genesis_block genesis.now)) }
    {
        let producers = genesis.producers.try_clone(alloc)?;
        let block = block_of(alloc, genesis)?;
        let block = Rc::new(alloc, block)?;
        let id = head.id;
        Ok(ForkTree {
            producers,
            genesis: Node { id, block },
            kept: KeptBlocks::new(alloc),
            head: id,
            irreversible: 1,
        })
    }

    /// The id of the head.
    pub fn head(&self) -> Digest
        ensures head { result ≡ self.now.head }
        ensures sound { IsTree self.now }
    {
        self.head
    }

    /// The number below which no block of the head's branch is taken back.
    pub fn irreversible(&self) -> u32
        ensures { result ≡ self.now.irreversible }
    {
        self.irreversible
    }

    /// The kept block of an id.
    pub fn block(&self, id: &Digest) -> Option<&Block>
        ensures { option_copied result ≡ block_at id.now self.now }
    {
        if *id == self.genesis.id {
            return Some(&self.genesis.block);
        }
        self.kept.find(id)
    }

    /// The head's id where no kept block has a greater number, else the id of the one of greatest number, among several
    /// the one added first.
    pub fn best(&self) -> Digest
        ensures { result ≡ best_of self.now.head self.now.kept }
    {
        best_in(self.kept.as_slice(), &self.genesis.id, &self.head)
    }

    /// Where the branch of an id leaves the head's.
    pub fn path(&self, id: &Digest) -> Option<ForkPath>
        ensures { result ≡ path_of id.now self.now }
    {
        if self.block(id).is_none() {
            return None;
        }
        Some(self.path_to(id))
    }

    fn path_to(&self, id: &Digest) -> ForkPath
        requires { is_some (block_at id.now self.now) ≡ true }
        ensures fork { result.fork.id ≡ tip self.now.genesis (meeting id.now self.now.head self.now.kept) }
        ensures num { result.fork.num ≡ ids.block_num (tip self.now.genesis (meeting id.now self.now.head self.now.kept)) }
        ensures above { result.above ≡ length (branch id.now self.now.kept) - length (meeting id.now self.now.head self.now.kept) }
    {
        let fork = meet(self.kept.as_slice(), &self.genesis, id, &self.head);
        let num = block_num(&fork);
        ForkPath {
            fork: Head { num, id: fork },
            above: block_num(id) - num,
        }
    }

    /// The k-th block, from 0, above the fork point on the way to an id.
    pub fn block_above(&self, id: &Digest, k: u32) -> Option<&Block>
        ensures { option_copied result ≡ above_fork id.now k self.now }
    {
        let path = self.path(id)?;
        if k >= path.above {
            return None;
        }
        nth_down(self.kept.as_slice(), id, path.above - 1 - k)
    }

    /// The block of a number on the head's branch. Genesis is number 1.
    pub fn by_num(&self, num: u32) -> Option<&Block>
        ensures { option_copied result ≡ paths.by_num num self.now }
    {
        num_down(self.kept.as_slice(), &self.genesis, &self.head, num)
    }

    /// Whose turn a slot is.
    pub fn producer_at(&self, slot: u32) -> Name
        ensures { result ≡ rules.producer_at self.now.producers slot }
    {
        producer_at(&self.producers, slot)
    }

    /// Makes a kept block the head.
    pub fn set_head(&mut self, id: &Digest)
        requires kept { is_some (block_at id.now self.old) ≡ true }
        ensures { self.new ≡ with_head id.now self.old }
    {
        self.head = *id;
    }

    /// Keeps a block. Each refusal comes by its cause, and changes nothing.
    pub fn add(&mut self, alloc: Global, block: Block) -> Result<(), AddError>
        requires { (list_of receipt).Fits block.receipts }
        ensures answer { IsAnswer (refusal self.old block) result }
        ensures ok { OnOk result (self.new ≡ with_block block self.old) }
        ensures err { OnErr result (self.new ≡ self.old) }
    {
        self.test(alloc, &block)?;
        let id = block_id(&block.header);
        self.kept.push(alloc, id, block)?;
        Ok(())
    }

    fn test(&self, alloc: Global, block: &Block) -> Result<(), AddError>
        requires { (list_of receipt).Fits block.now.receipts }
        ensures answer { IsAnswer (refusal self.now block.now) result }
        ensures small { OnOk result (ids.block_num block.now.header.previous < 4294967295) }
    {
        let previous = block.header.previous;
        if block_num(&previous) == 4294967295 {
            return Err(AddError::Unlinkable { previous });
        }
        if self.block(&block_id(&block.header)).is_some() {
            return Err(AddError::Known);
        }
        let Some(parent) = self.block(&previous) else {
            return Err(AddError::Unlinkable { previous });
        };
        fit(alloc, &self.producers, parent, block)
    }

    /// Raises the irreversible number to what the producers of the head's branch agree on, and drops what can't be chosen any more.
    pub fn settle(&mut self)
        ensures { self.new ≡ settled self.old }
    {
        let agreed = self.agreed();
        if agreed > self.irreversible {
            self.settle_at(agreed);
            return;
        }
        self.settle_at(self.irreversible);
    }

    fn agreed(&self) -> u32
        ensures { result ≡ agreed self.now }
    {
        agreed_on(
            self.kept.as_slice(),
            &self.genesis,
            &self.producers,
            &self.head,
        )
    }

    /// Makes the number the irreversible one: what stands beside the head's branch up to it is dropped, with all above that.
    pub fn settle_at(&mut self, num: u32)
        ensures { self.new ≡ settled_at num self.old }
    {
        self.irreversible = num;
        let from = keep_open(&mut self.kept, &self.genesis.id, &self.head, num);
        link(&mut self.kept, &self.genesis.id, from);
    }

    /// Drops a block and all above it. None of them is on the head's branch.
    pub fn drop_block(&mut self, id: &Digest)
        requires { find_block id.now (branch self.old.head self.old.kept) ≡ None }
        ensures { self.new ≡ dropped id.now self.old }
    {
        prune(&mut self.kept, &self.genesis.id, id);
    }
}

fn fit(alloc: Global, producers: &Seq<Name>, parent: &Block, block: &Block) -> Result<(), AddError>
    requires fits { (list_of receipt).Fits block.now.receipts }
    requires some { 1 ≤ length producers.now }
    ensures { IsAnswer (misfit producers.now parent.now block.now) result }
{
    let root = trx_root(alloc, &block.receipts)?;
    if block.header.trx_root != root {
        return Err(AddError::BadRoot);
    }
    if block.header.slot <= parent.header.slot {
        return Err(AddError::BadSlot);
    }
    if block.header.producer != producer_at(producers, block.header.slot) {
        return Err(AddError::BadProducer);
    }
    Ok(())
}

/// Whose turn a slot is.
fn producer_at(producers: &Seq<Name>, slot: u32) -> Name
    requires { 1 ≤ length producers.now }
    ensures { result ≡ rules.producer_at producers.now slot }
{
    let turn = (slot / 12) as usize % producers.len();
    producers.as_slice()[turn]
}
