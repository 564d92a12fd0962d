// A longer branch in the place of the head's, or not.
ghost use Rattle.std.specs.Prelude.{◌≡◌, ℕ, ◌+◌, ◌-◌, ◌≤◌, ◌∷◌, [], ◌++◌, length, take, true, is_some, None, IsNone, OnOk, OnErr};
ghost use Rattle.ante_types.specs.Ids as ids;
ghost use Rattle.ante_undo.specs.Stack.{committed};
ghost use Rattle.ante_fork.specs.Finality.{settled};
ghost use Rattle.ante_fork.specs.Tree.{block_at, branch, meeting, find_block};
ghost use Rattle.ante_control.specs.Chosen.{play_of};
ghost use Rattle.ante_control.specs.Running.{RunsBranch};
ghost use Rattle.ante_control.specs.Pushing.{Takes};

use crate::branches::{BranchError, switch_to};
use ante_fork::ForkTree;
use ante_machine::BlockMachine;
use ante_pack::Digest;
use ante_types::{Head, block_num};
use ante_verdicts::Verdicts;
use std::alloc::{AllocError, Global};

/// Makes a kept block the head, where its branch runs, and answers its position. Else the block that doesn't run is dropped, with
/// all above it, and all else is as before. The list of heads grows before the machine is touched.
#[tactic(auto, using(crate::proofs::Pushes::struck))]
pub fn take_head<M: BlockMachine, V: Verdicts>(
    alloc: Global,
    machine: &mut M,
    tree: &mut ForkTree,
    applied: &mut Vec<Head>,
    id: &Digest,
    verdicts: &V,
) -> Result<u64, BranchError>
    requires idle { IsNone (M.pending machine.old) }
    requires kept { is_some (block_at id.now tree.old) ≡ true }
    requires off { find_block id.now (branch tree.old.head tree.old.kept) ≡ None }
    requires no_shelf { (M.stack machine.old).shelf ≡ None }
    requires at_head { (M.stack machine.old).revision ≡ ids.block_num tree.old.head }
    requires deep { (M.stack machine.old).revision ≤ length (meeting id.now tree.old.head tree.old.kept) + 1 + length (M.stack machine.old).under }
    ensures takes { Takes id.now tree.old tree.new applied.old.items applied.new.items (M.stack machine.old) (M.stack machine.new) result }
    ensures tables { RunsBranch (play_of M.steps (V.judge verdicts.now) (M.chain_id machine.old)) (branch tree.old.head tree.old.kept) (branch id.now tree.old.kept) (M.stack machine.old) (M.stack machine.new) result }
    ensures idle { IsNone (M.pending machine.new) }
    ensures chain { M.chain_id machine.new ≡ M.chain_id machine.old }
    ensures count { M.counted machine.new ≤ M.counted machine.old + (length (branch id.now tree.old.kept) - length (meeting id.now tree.old.head tree.old.kept)) }
{
    let position = applied.as_slice().len() as u64;
    let num = block_num(id);
    match enlist(applied, Head { num, id: *id }) {
        Ok(()) => {}
        Err(_) => {
            tree.drop_block(id);
            return Err(BranchError::OutOfMemory);
        }
    }
    match switch_to(alloc, machine, tree, id, verdicts) {
        Ok(()) => {
            tree.set_head(id);
            settle(machine, tree);
            Ok(position)
        }
        Err(BranchError::OutOfMemory) => {
            strike(applied);
            tree.drop_block(id);
            Err(BranchError::OutOfMemory)
        }
        Err(BranchError::Invalid { block, code }) => {
            strike(applied);
            tree.drop_block(&block);
            Err(BranchError::Invalid { block, code })
        }
    }
}

/// One head more.
pub fn enlist(applied: &mut Vec<Head>, head: Head) -> Result<(), AllocError>
    ensures ok { OnOk result (applied.new.items ≡ applied.old.items ++ head ∷ []) }
    ensures err { OnErr result (applied.new.items ≡ applied.old.items) }
{
    applied.push(head)?;
    Ok(())
}

/// Without the last head.
pub fn strike(applied: &mut Vec<Head>)
    ensures { applied.new.items ≡ take (length applied.old.items - 1) applied.old.items }
{
    let len = applied.as_slice().len();
    if len == 0 {
        return;
    }
    applied.truncate(len - 1);
}

/// Settles the tree, and commits the worlds up to its irreversible number.
pub fn settle<M: BlockMachine>(machine: &mut M, tree: &mut ForkTree)
    requires idle { IsNone (M.pending machine.old) }
    requires no_shelf { (M.stack machine.old).shelf ≡ None }
    ensures tree { tree.new ≡ settled tree.old }
    ensures stack { M.stack machine.new ≡ committed tree.new.irreversible (M.stack machine.old) }
    ensures idle { IsNone (M.pending machine.new) }
    ensures chain { M.chain_id machine.new ≡ M.chain_id machine.old }
    ensures count { M.counted machine.new ≡ M.counted machine.old }
{
    tree.settle();
    machine.commit(tree.irreversible());
}
