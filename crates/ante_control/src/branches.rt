// Branches on a machine.
ghost use Rattle.std.specs.Prelude.{◌≡◌, ℕ, ◌+◌, ◌-◌, ◌≤◌, ◌<◌, ◌∷◌, List, length, true, is_some, None, IsNone, OnOk, OnErr};
ghost use Rattle.ante_types.specs.declared.chain.Block.{Block};
ghost use Rattle.ante_types.specs.Ids as ids;
ghost use Rattle.ante_fork.specs.Tree.{block_at, branch, meeting};
ghost use Rattle.ante_control.specs.Chosen.{play_of};
ghost use Rattle.ante_control.specs.Running.{Grown, RunsBranch, IsReplaced, IsOff, IsOf};

use ante_fork::ForkTree;
use ante_machine::BlockMachine;
use ante_pack::Digest;
use ante_port::BlockRunError;
use ante_types::{Block, block_id};
use ante_verdicts::Verdicts;
use std::alloc::Global;

/// Why a branch isn't run to its end.
#[derive(Clone, Copy, Debug, PartialEq, Eq)]
pub enum BranchError {
    OutOfMemory,
    Invalid { block: Digest, code: u16 },
}

/// Runs one block more of a branch.
pub fn run_next<M: BlockMachine, V: Verdicts>(
    alloc: Global,
    machine: &mut M,
    block: &Block,
    verdicts: &V,
) -> Result<(), BranchError>
    requires idle { IsNone (M.pending machine.old) }
    requires follows { ids.block_num block.now.header.previous ≡ (M.stack machine.old).revision }
    requires room { (M.stack machine.old).revision < 4294967295 }
    ensures ok { OnOk result (Grown 1 (M.stack machine.old) (M.stack machine.new)) }
    ensures err { OnErr result (M.stack machine.new ≡ M.stack machine.old) }
    ensures block { IsOf block.now result }
    ensures tables { (low : List Block) → RunsBranch (play_of M.steps (V.judge verdicts.now) (M.chain_id machine.old)) low (block.now ∷ low) (M.stack machine.old) (M.stack machine.new) result }
    ensures idle { IsNone (M.pending machine.new) }
    ensures chain { M.chain_id machine.new ≡ M.chain_id machine.old }
    ensures count { M.counted machine.new ≤ M.counted machine.old + 1 }
{
    match machine.run_block(alloc, block, verdicts) {
        Ok(()) => Ok(()),
        Err(BlockRunError::OutOfMemory) => Err(BranchError::OutOfMemory),
        Err(BlockRunError::Invalid { code }) => Err(BranchError::Invalid {
            block: block_id(&block.header),
            code,
        }),
    }
}

/// Runs the blocks of a branch that stand above its fork point, where the machine is.
pub fn run_branch<M: BlockMachine, V: Verdicts>(
    alloc: Global,
    machine: &mut M,
    tree: &ForkTree,
    id: &Digest,
    above: u32,
    verdicts: &V,
) -> Result<(), BranchError>
    requires idle { IsNone (M.pending machine.old) }
    requires kept { is_some (block_at id.now tree.now) ≡ true }
    requires above { above ≡ length (branch id.now tree.now.kept) - length (meeting id.now tree.now.head tree.now.kept) }
    requires at { (M.stack machine.old).revision ≡ length (meeting id.now tree.now.head tree.now.kept) + 1 }
    ensures grown { (k : ℕ) × Grown k (M.stack machine.old) (M.stack machine.new) }
    ensures ok { OnOk result (Grown above (M.stack machine.old) (M.stack machine.new)) }
    ensures tables { RunsBranch (play_of M.steps (V.judge verdicts.now) (M.chain_id machine.old)) (meeting id.now tree.now.head tree.now.kept) (branch id.now tree.now.kept) (M.stack machine.old) (M.stack machine.new) result }
    ensures off { IsOff (branch tree.now.head tree.now.kept) (branch id.now tree.now.kept) result }
    ensures idle { IsNone (M.pending machine.new) }
    ensures chain { M.chain_id machine.new ≡ M.chain_id machine.old }
    ensures count { M.counted machine.new ≤ M.counted machine.old + above }
{
    let _head = tree.head();
    for k in 0..above {
        let Some(block) = tree.block_above(id, k) else {
            unreachable!()
        };
        match run_next(alloc, machine, block, verdicts) {
            Ok(()) => {}
            Err(refused) => return Err(refused),
        }
    }
    Ok(())
}

/// Puts the machine on the branch of a kept block, in the place of the head's. After an error its worlds are as before.
pub fn switch_to<M: BlockMachine, V: Verdicts>(
    alloc: Global,
    machine: &mut M,
    tree: &ForkTree,
    id: &Digest,
    verdicts: &V,
) -> Result<(), BranchError>
    requires idle { IsNone (M.pending machine.old) }
    requires kept { is_some (block_at id.now tree.now) ≡ true }
    requires no_shelf { (M.stack machine.old).shelf ≡ None }
    requires at_head { (M.stack machine.old).revision ≡ ids.block_num tree.now.head }
    requires deep { (M.stack machine.old).revision ≤ length (meeting id.now tree.now.head tree.now.kept) + 1 + length (M.stack machine.old).under }
    ensures ok { OnOk result (IsReplaced (ids.block_num id.now) (M.stack machine.old) (M.stack machine.new)) }
    ensures err { OnErr result (M.stack machine.new ≡ M.stack machine.old) }
    ensures tables { RunsBranch (play_of M.steps (V.judge verdicts.now) (M.chain_id machine.old)) (branch tree.now.head tree.now.kept) (branch id.now tree.now.kept) (M.stack machine.old) (M.stack machine.new) result }
    ensures off { IsOff (branch tree.now.head tree.now.kept) (branch id.now tree.now.kept) result }
    ensures idle { IsNone (M.pending machine.new) }
    ensures chain { M.chain_id machine.new ≡ M.chain_id machine.old }
    ensures count { M.counted machine.new ≤ M.counted machine.old + (length (branch id.now tree.now.kept) - length (meeting id.now tree.now.head tree.now.kept)) }
{
    let _head = tree.head();
    let Some(path) = tree.path(id) else {
        unreachable!()
    };
    machine.shelve(path.fork.num);
    match run_branch(alloc, machine, tree, id, path.above, verdicts) {
        Ok(()) => {
            machine.drop_shelf();
            Ok(())
        }
        Err(refused) => {
            machine.unshelve();
            Err(refused)
        }
    }
}
