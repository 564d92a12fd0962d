// The block that is being made: its transactions, and the block that it becomes.
ghost use Rattle.std.specs.Prelude.{◌≡◌, ℕ, ◌+◌, ◌≤◌, ◌<◌, ◌^◌, ◌++◌, ◌∷◌, [], length, None, IsSome, IsNone, IsOk, IfOk, IfSome, OnOk, OnErr};
ghost use Rattle.std.specs.List.{flat_map};
ghost use Rattle.ante_pack.specs.Forms.{whole, list_of};
ghost use Rattle.ante_types.specs.Chain.{transaction, receipt};
ghost use Rattle.ante_types.specs.Ids as ids;
ghost use Rattle.ante_undo.specs.Stack.{committed};
ghost use Rattle.ante_machine.specs.Stacks.{above};
ghost use Rattle.ante_fork.specs.Finality.{settled};
ghost use Rattle.ante_fork.specs.Rules.{refusal};
ghost use Rattle.ante_fork.specs.Tree.{id_of, with_block, with_head};
ghost use Rattle.ante_control.specs.Chosen.{head_of};
ghost use Rattle.ante_control.specs.Making.{IsRun, receipt_of, sealed_block, most_block_bytes};
ghost use Rattle.ante_control.specs.Making as making;

use crate::sizes::receipt_size;
use crate::take::{enlist, settle, strike};
use ante_fork::ForkTree;
use ante_machine::BlockMachine;
use ante_pack::{Bytes, Seq};
use ante_types::{Block, BlockInfo, Head, Header, Receipt, Trace, block_id, block_num, trx_root};
use ante_verdicts::Verdicts;
use std::alloc::{AllocError, Global};

/// Runs a transaction in the pending block, and adds a receipt of it where it succeeds. The room for that is made before the
/// machine is touched.
pub fn run_made<M: BlockMachine, V: Verdicts>(
    alloc: Global,
    machine: &mut M,
    receipts: &mut Vec<Receipt>,
    size: &mut u128,
    packed: &[u8],
    signatures: &Seq<Bytes>,
    verdicts: &V,
) -> Result<Trace, AllocError>
    requires pending { IsSome (M.pending machine.old) }
    requires reads { IsOk (whole transaction packed.now) }
    requires bytes { size.old ≡ length (flat_map receipt.spell receipts.old.items) }
    requires small { size.old ≤ most_block_bytes }
    ensures ok { IfOk result (λ trace. IfSome (M.pending machine.old) (λ p. IsRun packed.now signatures.now p (M.steps.trx (M.chain_id machine.old) (V.judge verdicts.now) p.world p.info packed.now signatures.now) trace (M.pending machine.new) receipts.old.items receipts.new.items)) }
    ensures bytes { size.new ≡ length (flat_map receipt.spell receipts.new.items) }
    ensures err_pending { OnErr result (M.pending machine.new ≡ M.pending machine.old) }
    ensures err_receipts { OnErr result (receipts.new.items ≡ receipts.old.items) }
    ensures stack { M.stack machine.new ≡ M.stack machine.old }
    ensures chain { M.chain_id machine.new ≡ M.chain_id machine.old }
    ensures count { M.counted machine.new ≡ M.counted machine.old }
{
    let receipt = receipt_from(alloc, 0, packed, signatures.as_slice())?;
    let more = receipt_size(packed, signatures);
    receipts.reserve(1)?;
    let trace = machine.run_trx(alloc, packed, signatures, verdicts)?;
    if trace.failure.is_some() {
        return Ok(trace);
    }
    receipts.push_reserved(with_steps(receipt, trace.steps));
    *size += more;
    Ok(trace)
}

/// The receipt with the steps that its transaction took.
fn with_steps(receipt: Receipt, steps: u64) -> Receipt
    requires { steps < 4294967296 }
    ensures { result ≡ receipt_of steps receipt.packed receipt.signatures }
{
    Receipt {
        steps: steps as u32,
        packed: receipt.packed,
        signatures: receipt.signatures,
    }
}

/// The trace at a place of the applied list.
pub fn placed_at(trace: Trace, position: u64) -> Trace
    ensures { result ≡ making.placed_at position trace }
{
    let mut placed = trace;
    placed.position = position;
    placed
}

fn receipt_from(
    alloc: Global,
    steps: u32,
    packed: &[u8],
    signatures: &[Bytes],
) -> Result<Receipt, AllocError>
    ensures { IfOk result (λ copy. copy ≡ receipt_of steps packed.now signatures.now) }
{
    let packed = Bytes::from_slice(alloc, packed)?;
    let signatures = signatures_from(alloc, signatures)?;
    Ok(Receipt {
        steps,
        packed,
        signatures,
    })
}

fn signatures_from(alloc: Global, signatures: &[Bytes]) -> Result<Seq<Bytes>, AllocError>
    ensures { IfOk result (λ copies. copies ≡ signatures.now) }
{
    let mut copies = Seq::new(alloc);
    for signature in signatures {
        let copy = signature.try_clone(alloc)?;
        copies.push(alloc, copy)?;
    }
    Ok(copies)
}

fn receipts_from(alloc: Global, receipts: &[Receipt]) -> Result<Seq<Receipt>, AllocError>
    ensures { IfOk result (λ copies. copies ≡ receipts.now) }
{
    let mut copies = Seq::new(alloc);
    for receipt in receipts {
        let copy = copy_of(alloc, receipt)?;
        copies.push(alloc, copy)?;
    }
    Ok(copies)
}

fn copy_of(alloc: Global, receipt: &Receipt) -> Result<Receipt, AllocError>
    ensures { IfOk result (λ copy. copy ≡ receipt.now) }
{
    receipt_from(
        alloc,
        receipt.steps,
        receipt.packed.as_slice(),
        receipt.signatures.as_slice(),
    )
}

/// The block of these receipts with its seal. They are copied, since they must outlive a block that isn't kept.
pub fn block_from<V: Verdicts>(
    alloc: Global,
    info: BlockInfo,
    receipts: &[Receipt],
    verdicts: &V,
) -> Result<Block, AllocError>
    requires fits { (list_of receipt).Fits receipts.now }
    requires small { ids.block_num info.previous < 4294967295 }
    ensures { IfOk result (λ block. block ≡ sealed_block (V.judge verdicts.now) info receipts.now) }
{
    let receipts = receipts_from(alloc, receipts)?;
    let trx_root = trx_root(alloc, &receipts)?;
    let previous = info.previous;
    let header = Header {
        slot: info.slot,
        producer: info.producer,
        previous,
        trx_root,
    };
    let id = block_id(&header);
    let seal = verdicts.seal(alloc, header.producer.0, &id)?;
    Ok(Block {
        header,
        seal: Bytes::from_vec(seal),
        receipts,
    })
}

/// Ends the pending block as this block, which follows the head and becomes it. After want of memory all is as before.
#[tactic(auto, using(crate::proofs::Pushes::struck))]
pub fn crown<M: BlockMachine>(
    alloc: Global,
    machine: &mut M,
    tree: &mut ForkTree,
    applied: &mut Vec<Head>,
    block: Block,
) -> Result<Head, AllocError>
    requires pending { IsSome (M.pending machine.old) }
    requires no_shelf { (M.stack machine.old).shelf ≡ None }
    requires fits { (list_of receipt).Fits block.receipts }
    requires passes { refusal tree.old block ≡ None }
    requires small { ids.block_num block.header.previous < 4294967295 }
    ensures head { IfOk result (λ head. head ≡ head_of block) }
    ensures tree { OnOk result (tree.new ≡ settled (with_head (id_of block) (with_block block tree.old))) }
    ensures applied { OnOk result (applied.new.items ≡ applied.old.items ++ head_of block ∷ []) }
    ensures stack { OnOk result (IfSome (M.pending machine.old) (λ p. M.stack machine.new ≡ committed tree.new.irreversible (above (M.steps.finish (M.chain_id machine.old) p.world p.info.num (id_of block)) (M.stack machine.old)))) }
    ensures idle { OnOk result (IsNone (M.pending machine.new)) }
    ensures err_tree { OnErr result (tree.new ≡ tree.old) }
    ensures err_applied { OnErr result (applied.new.items ≡ applied.old.items) }
    ensures err_stack { OnErr result (M.stack machine.new ≡ M.stack machine.old) }
    ensures err_pending { OnErr result (M.pending machine.new ≡ M.pending machine.old) }
    ensures chain { M.chain_id machine.new ≡ M.chain_id machine.old }
    ensures count { M.counted machine.new ≡ M.counted machine.old }
{
    let _head = tree.head();
    let id = block_id(&block.header);
    let head = Head {
        num: block_num(&id),
        id,
    };
    enlist(applied, head)?;
    match tree.add(alloc, block) {
        Ok(()) => {}
        Err(_) => {
            strike(applied);
            return Err(AllocError);
        }
    }
    match machine.finish(alloc, &id) {
        Ok(()) => {}
        Err(refused) => {
            strike(applied);
            tree.drop_block(&id);
            return Err(refused);
        }
    }
    tree.set_head(&id);
    settle(machine, tree);
    Ok(head)
}
