use ante_modcache::ModuleCache;
use ante_pack::{Bytes, Digest, Seq};
use ante_session_machine::Effects;
use ante_store::Store;
use ante_transactions::{begin_block, finish_block, run_transaction};
use ante_types::{BlockInfo, Trace};
use ante_verdicts::Verdicts;
use std::alloc::{AllocError, Global};

/// What blocks do to the store, with the modules of the codes that were run.
#[derive(Drop)]
pub struct ChainEffects {
    pub(crate) modules: ModuleCache,
}

impl Effects<Store> for ChainEffects {
    ghost use Rattle.ante_accepts.specs.Accepting.{chain_codes};
    ghost use Rattle.ante_engine.specs.Sound.{sound_transactions};
    ghost use Rattle.ante_engine.specs.Steps.{chain_steps};

    ghost steps = { chain_steps };

    fn begin(
        &self,
        alloc: Global,
        _chain: &Digest,
        state: &mut Store,
        info: BlockInfo,
    ) -> Result<(), AllocError> {
        begin_block(alloc, state, info)
    }

    fn trx<V: Verdicts>(
        &self,
        alloc: Global,
        chain: &Digest,
        state: &mut Store,
        info: BlockInfo,
        packed: &[u8],
        signatures: &Seq<Bytes>,
        verdicts: &V,
    ) -> Result<Trace, AllocError> {
        run_transaction(
            alloc,
            &self.modules,
            state,
            verdicts,
            chain,
            info,
            packed,
            signatures,
        )
    }

    fn finish(
        &self,
        alloc: Global,
        _chain: &Digest,
        state: &mut Store,
        num: u32,
        id: &Digest,
    ) -> Result<(), AllocError> {
        finish_block(alloc, state, num, id)
    }

    ghost sound = { λ chain judge w info packed signatures. sound_transactions chain_codes judge.recovers chain info w packed signatures };
}
