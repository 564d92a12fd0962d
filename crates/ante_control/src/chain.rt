ghost use Rattle.std.specs.Prelude.{◌≡◌, ◌+◌, ◌-◌, ◌≤◌, ◌∷◌, length, true, Some, None, IsSome, IsNone, IsOk, Ok, IfOk, IfErr, IfSome, OnOk, OnErr};
ghost use Rattle.std.specs.Option.{option_copied};
ghost use Rattle.ante_pack.specs.Forms.{list_of, whole};
ghost use Rattle.ante_types.specs.Chain.{receipt, transaction};
ghost use Rattle.ante_types.specs.Chain as forms;
ghost use Rattle.ante_undo.specs.Stack.{opened};
ghost use Rattle.ante_fork.specs.Paths as paths;
ghost use Rattle.ante_fork.specs.Rules as rules;
ghost use Rattle.ante_fork.specs.Tree.{id_of, block_at, branch, meeting};
ghost use Rattle.ante_verdicts.specs.Judge.{Judge};
ghost use Rattle.ante_control.specs.Chosen.{Play, play_of, started, head_at, head_of};
ghost use Rattle.ante_control.specs.Tabled.{IsTabled, IsMade, with_pending};
ghost use Rattle.ante_control.specs.Making.{IsTurn, begun_block, begun_with, run_in, with_trx, sealed_block};
ghost use Rattle.ante_control.specs.Making as making;
ghost use Rattle.ante_control.specs.Sealed.{IsCrowned};
ghost use Rattle.ante_control.specs.Pushing.{IsPushed, IsRefused, barrier};
ghost use Rattle.ante_control.specs.Errors as errors;
ghost use Rattle.ante_control.specs.declared.error.Pushed.TheVariants as pushed;

use crate::branches::BranchError;
use crate::enter::enter;
use crate::error::{PushError, Pushed};
use crate::make::{block_from, crown, placed_at, run_made};
use crate::sizes::has_room;
use crate::take::{enlist, settle, take_head};
use ante_fork::{ForkTree, genesis_head};
use ante_machine::BlockMachine;
use ante_pack::{Bytes, Digest, Name, Seq};
use ante_types::{Block, BlockInfo, Genesis, Head, Receipt, Trace, block_num};
use ante_verdicts::Verdicts;
use std::alloc::{AllocError, Global};
use std::marker::Model;

/// Kept blocks, the chosen one of their branches, and a machine that stands at its end.
#[derive(Drop)]
pub struct Chain<M: BlockMachine> {
    machine: M,
    tree: ForkTree,
    applied: Vec<Head>,
    pending: Option<BlockInfo>,
    receipts: Vec<Receipt>,
    size: u128,
}

impl<M: BlockMachine> Model for Chain<M> {
    ghost use Rattle.ante_control.specs.Tabled.{Standing, IsStanding};
    ghost use Rattle.ante_control.specs.Shown.{standing, making};
    ghost use Rattle.ante_control.specs.Held.{IsHeld};

    ghost Value = { Standing M.World };

    ghost view = { λ s. standing s.tree s.applied.items (M.chain_id s.machine) (M.stack s.machine) (making s.receipts.items (M.pending s.machine)) (M.counted s.machine) };

    ghost invariant = { λ s. IsStanding (standing s.tree s.applied.items (M.chain_id s.machine) (M.stack s.machine) (making s.receipts.items (M.pending s.machine)) (M.counted s.machine)) × IsHeld s.tree s.pending s.receipts.items s.size (M.pending s.machine) };
}

impl<M: BlockMachine> Chain<M> {
    /// The chain of genesis alone, over a machine that stands for genesis's world alone. The bytes are the packed genesis.
    pub fn new(
        alloc: Global,
        machine: M,
        genesis: &Genesis,
        packed: &[u8],
    ) -> Result<Chain<M>, AllocError>
        requires fits { forms.genesis.Fits genesis.now }
        requires packed { packed.now ≡ forms.genesis.spell genesis.now }
        requires some { 1 ≤ length genesis.now.producers }
        requires few { length genesis.now.producers ≤ 21 }
        requires idle { IsNone (M.pending machine) }
        requires alone { M.stack machine ≡ opened (M.stack machine).top 1 }
        ensures choice { IfOk result (λ chain. chain.choice ≡ started genesis.now) }
        ensures stack { IfOk result (λ chain. chain.stack ≡ M.stack machine) }
        ensures chain { IfOk result (λ chain. chain.chain ≡ M.chain_id machine) }
        ensures idle { IfOk result (λ chain. IsNone chain.pending) }
        ensures count { IfOk result (λ chain. chain.counted ≡ M.counted machine) }
        ensures tables { IfOk result (λ chain. (p : Play M.World) → p.first ≡ (M.stack machine).top → IsTabled p chain) }
    {
        let head = genesis_head(genesis, packed);
        let mut applied = Vec::new(alloc);
        enlist(&mut applied, head)?;
        let tree = ForkTree::new(alloc, genesis, head)?;
        Ok(Chain {
            machine,
            tree,
            applied,
            pending: None,
            receipts: Vec::new(alloc),
            size: 0,
        })
    }

    /// The engine, at the head.
    pub fn machine(&self) -> &M
        ensures stack { M.stack result.now ≡ self.now.stack }
        ensures chain { M.chain_id result.now ≡ self.now.chain }
        ensures count { M.counted result.now ≡ self.now.counted }
    {
        &self.machine
    }

    /// The head's number and id.
    pub fn head(&self) -> Head
        ensures { result ≡ head_at self.now.choice.tree }
    {
        let id = self.tree.head();
        let num = block_num(&id);
        Head { num, id }
    }

    /// All heads so far, genesis first. A position is a place in this list.
    pub fn applied(&self) -> &[Head]
        ensures { result.now ≡ self.now.choice.applied }
    {
        self.applied.as_slice()
    }

    /// The number below which no block of the head's branch is taken back.
    pub fn irreversible(&self) -> u32
        ensures { result ≡ self.now.choice.tree.irreversible }
    {
        self.tree.irreversible()
    }

    /// The kept block of an id.
    pub fn block(&self, id: &Digest) -> Option<&Block>
        ensures { option_copied result ≡ block_at id.now self.now.choice.tree }
    {
        self.tree.block(id)
    }

    /// The block of a number on the head's branch. Genesis is number 1.
    pub fn by_num(&self, num: u32) -> Option<&Block>
        ensures { option_copied result ≡ paths.by_num num self.now.choice.tree }
    {
        self.tree.by_num(num)
    }

    /// Whose turn a slot is.
    pub fn producer_at(&self, slot: u32) -> Name
        ensures { result ≡ rules.producer_at self.now.choice.tree.producers slot }
    {
        self.tree.producer_at(slot)
    }

    /// Pushes a block. Its branch is run where it is longer than the head's.
    pub fn push_block<V: Verdicts>(
        &mut self,
        alloc: Global,
        block: Block,
        verdicts: &V,
    ) -> Result<Pushed, PushError>
        requires fits { (list_of receipt).Fits block.receipts }
        requires idle { IsNone self.old.pending }
        ensures pushed { (first : M.World) → IsTabled (play_of M.steps (V.judge verdicts.now) self.old.chain first) self.old → IsPushed (play_of M.steps (V.judge verdicts.now) self.old.chain first) block self.old self.new result }
        ensures refused { IfErr result (λ e. IsRefused (barrier (V.judge verdicts.now) self.old.choice.tree block) block e self.old self.new) }
        ensures idle { IsNone self.new.pending }
        ensures chain { self.new.chain ≡ self.old.chain }
        ensures ran { self.new.counted ≤ self.old.counted + (length (branch (id_of block) (block ∷ self.old.choice.tree.kept)) - length (meeting (id_of block) self.old.choice.tree.head (block ∷ self.old.choice.tree.kept))) }
    {
        let id = match enter(alloc, &mut self.tree, block, verdicts) {
            Ok(id) => id,
            Err(refused) => return Err(refused),
        };
        if block_num(&id) <= block_num(&self.tree.head()) {
            settle(&mut self.machine, &mut self.tree);
            return Ok(Pushed::Kept);
        }
        answered(take_head(
            alloc,
            &mut self.machine,
            &mut self.tree,
            &mut self.applied,
            &id,
            verdicts,
        ))
    }

    /// Begins a block upon the head.
    pub fn begin_block(
        &mut self,
        alloc: Global,
        slot: u32,
        producer: Name,
    ) -> Result<(), AllocError>
        requires idle { IsNone self.old.pending }
        requires turn { IsTurn self.old.choice.tree slot producer }
        ensures ok { OnOk result (self.new ≡ with_pending (Some (begun_block M.steps self.old.chain self.old.stack.top (begun_with self.old.choice.tree slot producer))) self.old) }
        ensures made { OnOk result ((judge : Judge) (first : M.World) → IsMade (play_of M.steps judge self.old.chain first) self.new) }
        ensures err { OnErr result (self.new ≡ self.old) }
    {
        let previous = self.tree.head();
        let info = BlockInfo {
            num: block_num(&previous) + 1,
            slot,
            producer,
            previous,
        };
        self.machine.begin(alloc, info)?;
        self.pending = Some(info);
        self.receipts.clear();
        self.size = 0;
        Ok(())
    }

    /// Whether the block that is being made has room for a transaction. One without a receipt has room for any.
    pub fn room(&self, packed: &[u8], signatures: &Seq<Bytes>) -> bool
        requires pending { IsSome self.now.pending }
        ensures { IfSome self.now.pending (λ m. result ≡ making.has_room m.receipts packed.now signatures.now) }
    {
        has_room(self.receipts.as_slice(), self.size, packed, signatures)
    }

    /// Runs a transaction in the block that is being made. It leaves a receipt where it succeeds.
    pub fn push_trx<V: Verdicts>(
        &mut self,
        alloc: Global,
        packed: &[u8],
        signatures: &Seq<Bytes>,
        verdicts: &V,
    ) -> Result<Trace, AllocError>
        requires pending { IsSome self.old.pending }
        requires reads { IsOk (whole transaction packed.now) }
        requires room { IfSome self.old.pending (λ m. making.has_room m.receipts packed.now signatures.now ≡ true) }
        ensures trace { IfOk result (λ trace. IfSome self.old.pending (λ m. trace ≡ making.placed_at (length self.old.choice.applied - 1) (run_in M.steps self.old.chain (V.judge verdicts.now) packed.now signatures.now m).1)) }
        ensures ok { OnOk result (IfSome self.old.pending (λ m. self.new ≡ with_pending (Some (with_trx packed.now signatures.now (run_in M.steps self.old.chain (V.judge verdicts.now) packed.now signatures.now m) m)) self.old)) }
        ensures made { (first : M.World) → IsMade (play_of M.steps (V.judge verdicts.now) self.old.chain first) self.old → IsMade (play_of M.steps (V.judge verdicts.now) self.old.chain first) self.new }
        ensures err { OnErr result (self.new ≡ self.old) }
    {
        let position = (self.applied.as_slice().len() as u64).saturating_sub(1);
        let trace = run_made(
            alloc,
            &mut self.machine,
            &mut self.receipts,
            &mut self.size,
            packed,
            signatures,
            verdicts,
        )?;
        Ok(placed_at(trace, position))
    }

    /// Ends the block that is being made, which becomes the head. Its seal is the producer's.
    pub fn seal<V: Verdicts>(&mut self, alloc: Global, verdicts: &V) -> Result<Head, AllocError>
        requires pending { IsSome self.old.pending }
        ensures head { IfOk result (λ head. IfSome self.old.pending (λ m. head ≡ head_of (sealed_block (V.judge verdicts.now) m.info m.receipts))) }
        ensures crowned { OnOk result (IfSome self.old.pending (λ m. IsCrowned (V.judge verdicts.now) (sealed_block (V.judge verdicts.now) m.info m.receipts) self.old self.new)) }
        ensures pushed { OnOk result ((first : M.World) → IsTabled (play_of M.steps (V.judge verdicts.now) self.old.chain first) self.old → IsMade (play_of M.steps (V.judge verdicts.now) self.old.chain first) self.old → IfSome self.old.pending (λ m. IsPushed (play_of M.steps (V.judge verdicts.now) self.old.chain first) (sealed_block (V.judge verdicts.now) m.info m.receipts) self.old self.new (Ok (pushed.Head (length self.old.choice.applied))))) }
        ensures err { OnErr result (self.new ≡ self.old) }
        ensures chain { self.new.chain ≡ self.old.chain }
        ensures ran { self.new.counted ≡ self.old.counted }
    {
        let Some(info) = self.pending else {
            unreachable!()
        };
        let block = block_from(alloc, info, self.receipts.as_slice(), verdicts)?;
        let head = crown(
            alloc,
            &mut self.machine,
            &mut self.tree,
            &mut self.applied,
            block,
        )?;
        self.pending = None;
        Ok(head)
    }

    /// Drops the block that is being made.
    pub fn abandon(&mut self)
        requires pending { IsSome self.old.pending }
        ensures { self.new ≡ with_pending None self.old }
    {
        self.machine.abandon();
        self.pending = None;
    }
}

fn answered(taken: Result<u64, BranchError>) -> Result<Pushed, PushError>
    ensures { result ≡ errors.answered taken }
{
    match taken {
        Ok(position) => Ok(Pushed::Head { position }),
        Err(BranchError::OutOfMemory) => Err(PushError::OutOfMemory),
        Err(BranchError::Invalid { block, code }) => Err(PushError::Invalid { block, code }),
    }
}
