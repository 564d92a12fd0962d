ghost use Rattle.std.specs.Prelude.{◌≡◌, ℕ, ◌+◌, ◌≤◌, ◌<◌, List, length, Option, Some, IsSome, IsNone, IsOk, IfOk, IfSome, OnOk, OnErr};
ghost use Rattle.ante_undo.specs.Stack.{Stack, committed, without_shelf, IsShelved, IsUnshelved};
ghost use Rattle.ante_pack.specs.Forms.{whole};
ghost use Rattle.ante_types.specs.Chain.{transaction};
ghost use Rattle.ante_types.specs.Ids.{block_num};
ghost use Rattle.ante_types.specs.declared.chain.BlockInfo.{BlockInfo};
ghost use Rattle.ante_verdicts.specs.Judge.{Judge};
ghost use Rattle.ante_machine.specs.Steps.{Steps, IsSoundTrx, block_runs};
ghost use Rattle.ante_machine.specs.Stacks.{Pending, above, RunsTo, counted_once};

use ante_pack::{Bytes, Digest, Seq};
use ante_port::BlockRunError;
use ante_types::{Block, BlockInfo, Trace};
use ante_verdicts::Verdicts;
use std::alloc::{AllocError, Global};

/// What stands for a stack of worlds, the newest on top, under a chain id. The stack's revision is the number of the newest
/// world's block.
pub trait Worlds: Drop {
    type World;

    ghost chain_id: { Self → List ℕ };

    ghost stack: { Self → Stack Self.World };
}

/// An engine, which runs blocks on the newest world, and makes one block at a time.
pub trait BlockMachine: Worlds {
    /// What it does to worlds.
    ghost steps: { Steps Self.World };

    /// The block that is being made. Its world isn't in the stack.
    ghost pending: { Self → Option (Pending Self.World) };

    ghost counted: { Self → ℕ };

    /// How many blocks were run, up to 2^63.
    fn ran(&self) -> u64
        ensures { result ≡ counted self.now };

    /// Runs a block on the newest world, which gives one world more.
    fn run_block<V: Verdicts>(
        &mut self,
        alloc: Global,
        block: &Block,
        verdicts: &V,
    ) -> Result<(), BlockRunError>
        requires idle { IsNone (pending self.old) }
        requires follows { block_num block.now.header.previous ≡ (Self.stack self.old).revision }
        requires room { (Self.stack self.old).revision < 4294967295 }
        ensures run { RunsTo (block_runs steps (Self.chain_id self.old) (V.judge verdicts.now) (Self.stack self.old).top block.now) (Self.stack self.old) (Self.stack self.new) result }
        ensures count { counted self.new ≡ counted_once (counted self.old) }
        ensures chain { Self.chain_id self.new ≡ Self.chain_id self.old }
        ensures idle { IsNone (pending self.new) };

    /// Opens the pending block.
    fn begin(&mut self, alloc: Global, info: BlockInfo) -> Result<(), AllocError>
        requires idle { IsNone (pending self.old) }
        requires number { info.num ≡ (Self.stack self.old).revision + 1 }
        requires follows { block_num info.previous ≡ (Self.stack self.old).revision }
        requires room { (Self.stack self.old).revision < 4294967295 }
        ensures ok { OnOk result (pending self.new ≡ Some (record { info = info; world = steps.begin (Self.chain_id self.old) (Self.stack self.old).top info })) }
        ensures err { OnErr result (IsNone (pending self.new)) }
        ensures stack { Self.stack self.new ≡ Self.stack self.old }
        ensures chain { Self.chain_id self.new ≡ Self.chain_id self.old }
        ensures count { counted self.new ≡ counted self.old };

    /// Runs a transaction in the pending block. Its trace is at position 0.
    fn run_trx<V: Verdicts>(
        &mut self,
        alloc: Global,
        packed: &[u8],
        signatures: &Seq<Bytes>,
        verdicts: &V,
    ) -> Result<Trace, AllocError>
        requires pending { IsSome (pending self.old) }
        requires reads { IsOk (whole transaction packed.now) }
        ensures world { OnOk result (IfSome (pending self.old) (λ p. pending self.new ≡ Some (record { info = p.info; world = (steps.trx (Self.chain_id self.old) (V.judge verdicts.now) p.world p.info packed.now signatures.now).0 }))) }
        ensures trace { IfOk result (λ trace. IfSome (pending self.old) (λ p. trace ≡ (steps.trx (Self.chain_id self.old) (V.judge verdicts.now) p.world p.info packed.now signatures.now).1)) }
        ensures err { OnErr result (pending self.new ≡ pending self.old) }
        ensures stack { Self.stack self.new ≡ Self.stack self.old }
        ensures chain { Self.chain_id self.new ≡ Self.chain_id self.old }
        ensures count { counted self.new ≡ counted self.old };

    /// Ends the pending block, whose world becomes the newest. After want of memory it stands.
    fn finish(&mut self, alloc: Global, id: &Digest) -> Result<(), AllocError>
        requires pending { IsSome (pending self.old) }
        ensures ok { OnOk result (IfSome (pending self.old) (λ p. Self.stack self.new ≡ above (steps.finish (Self.chain_id self.old) p.world p.info.num id.now) (Self.stack self.old))) }
        ensures idle { OnOk result (IsNone (pending self.new)) }
        ensures err { OnErr result (Self.stack self.new ≡ Self.stack self.old) }
        ensures same { OnErr result (pending self.new ≡ pending self.old) }
        ensures chain { Self.chain_id self.new ≡ Self.chain_id self.old }
        ensures count { counted self.new ≡ counted self.old };

    /// Drops the pending block.
    fn abandon(&mut self)
        requires pending { IsSome (pending self.old) }
        ensures idle { IsNone (pending self.new) }
        ensures stack { Self.stack self.new ≡ Self.stack self.old }
        ensures chain { Self.chain_id self.new ≡ Self.chain_id self.old }
        ensures count { counted self.new ≡ counted self.old };

    /// Forgets the worlds below the one of this number: they can't be gone back to.
    fn commit(&mut self, num: u32)
        requires idle { IsNone (pending self.old) }
        requires no_shelf { IsNone (Self.stack self.old).shelf }
        ensures stack { Self.stack self.new ≡ committed num (Self.stack self.old) }
        ensures idle { IsNone (pending self.new) }
        ensures chain { Self.chain_id self.new ≡ Self.chain_id self.old }
        ensures count { counted self.new ≡ counted self.old };

    /// Goes back to the world of this number, and puts those above it on the shelf.
    fn shelve(&mut self, num: u32)
        requires idle { IsNone (pending self.old) }
        requires no_shelf { IsNone (Self.stack self.old).shelf }
        requires from { (Self.stack self.old).revision ≤ num + length (Self.stack self.old).under }
        requires to { num ≤ (Self.stack self.old).revision }
        ensures stack { IsShelved num (Self.stack self.old) (Self.stack self.new) }
        ensures idle { IsNone (pending self.new) }
        ensures chain { Self.chain_id self.new ≡ Self.chain_id self.old }
        ensures count { counted self.new ≡ counted self.old };

    /// Drops the worlds made since the shelf was, and puts those on the shelf back.
    fn unshelve(&mut self)
        requires idle { IsNone (pending self.old) }
        requires shelf { IsSome (Self.stack self.old).shelf }
        ensures stack { IsUnshelved (Self.stack self.old) (Self.stack self.new) }
        ensures idle { IsNone (pending self.new) }
        ensures chain { Self.chain_id self.new ≡ Self.chain_id self.old }
        ensures count { counted self.new ≡ counted self.old };

    /// Forgets the worlds on the shelf.
    fn drop_shelf(&mut self)
        requires idle { IsNone (pending self.old) }
        requires shelf { IsSome (Self.stack self.old).shelf }
        ensures stack { Self.stack self.new ≡ without_shelf (Self.stack self.old) }
        ensures idle { IsNone (pending self.new) }
        ensures chain { Self.chain_id self.new ≡ Self.chain_id self.old }
        ensures count { counted self.new ≡ counted self.old };

    /// A law: each transaction is sound.
    ghost sound: { (chain : List ℕ) (judge : Judge) (w : Self.World) (info : BlockInfo) (packed : List ℕ) (signatures : List (List ℕ)) → IsSoundTrx w packed signatures (steps.trx chain judge w info packed signatures) };
}
