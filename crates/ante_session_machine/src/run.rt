ghost use Rattle.std.specs.Prelude.{◌≡◌, ℕ, ◌+◌, ◌≤◌, ◌<◌, None};
ghost use Rattle.ante_pack.specs.Forms.{whole};
ghost use Rattle.ante_types.specs.Chain.{transaction};
ghost use Rattle.ante_types.specs.Ids as ids;
ghost use Rattle.ante_undo.specs.Stack.{Stack, with_top};
ghost use Rattle.ante_machine.specs.Steps.{info_of, block_runs, receipt_runs, receipts_run};
ghost use Rattle.ante_machine.specs.Stacks.{RunsTo};
ghost use Rattle.ante_session_machine.specs.Under.{Makes, IsOpened};

use crate::effects::Effects;
use ante_pack::{Digest, ReadFault};
use ante_port::BlockRunError;
use ante_sessions::Sessions;
use ante_types::{Block, BlockInfo, Receipt, block_id, block_num, failure_code, read_trx};
use ante_verdicts::Verdicts;
use std::alloc::Global;

fn info_of(block: &Block) -> BlockInfo
    requires { ids.block_num block.now.header.previous < 4294967295 }
    ensures { result ≡ info_of block.now.header }
{
    BlockInfo {
        num: block_num(&block.header.previous) + 1,
        slot: block.header.slot,
        producer: block.header.producer,
        previous: block.header.previous,
    }
}

/// Runs a block in a session of its own, which is taken back where it doesn't run.
pub fn run_in_session<S: Sessions, E: Effects<S>, V: Verdicts>(
    alloc: Global,
    chain: &Digest,
    state: &mut S,
    effects: &E,
    block: &Block,
    verdicts: &V,
) -> Result<(), BlockRunError>
    requires follows { ids.block_num block.now.header.previous ≡ (S.stack state.old).revision }
    requires room { (S.stack state.old).revision < 4294967295 }
    ensures { RunsTo (block_runs E.steps chain.now (V.judge verdicts.now) (S.stack state.old).top block.now) (S.stack state.old) (S.stack state.new) result }
{
    if state.begin(alloc).is_err() {
        return Err(BlockRunError::OutOfMemory);
    }
    match make_block(alloc, chain, state, effects, block, verdicts) {
        Ok(()) => Ok(()),
        Err(refused) => {
            state.undo();
            Err(refused)
        }
    }
}

#[tactic(auto, unfolding(ante_machine::specs::Steps::block_runs))]
fn make_block<S: Sessions, E: Effects<S>, V: Verdicts>(
    alloc: Global,
    chain: &Digest,
    state: &mut S,
    effects: &E,
    block: &Block,
    verdicts: &V,
) -> Result<(), BlockRunError>
    requires opened { IsOpened (S.stack state.old) }
    requires room { ids.block_num block.now.header.previous < 4294967295 }
    ensures { Makes (block_runs E.steps chain.now (V.judge verdicts.now) (S.stack state.old).top block.now) (S.stack state.old) (S.stack state.new) result }
{
    let info = info_of(block);
    if effects.begin(alloc, chain, state, info).is_err() {
        return Err(BlockRunError::OutOfMemory);
    }
    make_receipts(
        alloc,
        chain,
        state,
        effects,
        info,
        block.receipts.as_slice(),
        verdicts,
    )?;
    let id = block_id(&block.header);
    if effects.finish(alloc, chain, state, info.num, &id).is_err() {
        return Err(BlockRunError::OutOfMemory);
    }
    Ok(())
}

#[tactic(auto, unfolding(ante_machine::specs::Steps::receipts_run))]
fn make_receipts<S: Sessions, E: Effects<S>, V: Verdicts>(
    alloc: Global,
    chain: &Digest,
    state: &mut S,
    effects: &E,
    info: BlockInfo,
    receipts: &[Receipt],
    verdicts: &V,
) -> Result<(), BlockRunError>
    requires opened { IsOpened (S.stack state.old) }
    ensures { Makes (receipts_run E.steps chain.now (V.judge verdicts.now) info receipts.now (S.stack state.old).top) (S.stack state.old) (S.stack state.new) result }
{
    let mut rest = receipts;
    while let Some((receipt, later)) = rest.split_first() {
        rest = later;
        make_receipt(alloc, chain, state, effects, info, receipt, verdicts)?;
    }
    Ok(())
}

fn make_receipt<S: Sessions, E: Effects<S>, V: Verdicts>(
    alloc: Global,
    chain: &Digest,
    state: &mut S,
    effects: &E,
    info: BlockInfo,
    receipt: &Receipt,
    verdicts: &V,
) -> Result<(), BlockRunError>
    requires opened { IsOpened (S.stack state.old) }
    ensures { Makes (receipt_runs E.steps chain.now (V.judge verdicts.now) info receipt.now (whole transaction receipt.now.packed) (S.stack state.old).top) (S.stack state.old) (S.stack state.new) result }
{
    match read_trx(alloc, receipt.packed.as_slice()) {
        Ok(_) => {}
        Err(ReadFault::OutOfMemory) => return Err(BlockRunError::OutOfMemory),
        Err(ReadFault::Pack(_)) => return Err(BlockRunError::Invalid { code: 22 }),
    }
    let Ok(trace) = effects.trx(
        alloc,
        chain,
        state,
        info,
        receipt.packed.as_slice(),
        &receipt.signatures,
        verdicts,
    ) else {
        return Err(BlockRunError::OutOfMemory);
    };
    if let Some(failure) = &trace.failure {
        return Err(BlockRunError::Invalid {
            code: failure_code(failure),
        });
    }
    if trace.steps != receipt.steps as u64 {
        return Err(BlockRunError::Invalid { code: 32 });
    }
    Ok(())
}
