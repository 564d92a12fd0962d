use crate::effects::ChainEffects;
use crate::engine::Engine;
use ante_machine::{BlockMachine, Worlds};
use ante_pack::{Bytes, Digest, Seq};
use ante_port::BlockRunError;
use ante_session_machine::SessionMachine;
use ante_store::{Store, WorldMap};
use ante_types::{Block, BlockInfo, Trace};
use ante_verdicts::Verdicts;
use std::alloc::{AllocError, Global};

impl Worlds for Engine {
    type World = WorldMap;

    ghost chain_id = { λ e. e.machine.chain };

    ghost stack = { λ e. e.machine.stack };
}

impl BlockMachine for Engine {
    ghost use Rattle.ante_accepts.specs.Accepting.{chain_codes};
    ghost use Rattle.ante_engine.specs.Sound.{sound_transactions};
    ghost use Rattle.ante_engine.specs.Steps.{chain_steps};

    ghost steps = { chain_steps };

    ghost pending = { λ e. e.machine.pending };

    ghost counted = { λ e. e.machine.counted };

    fn ran(&self) -> u64 {
        self.machine.ran()
    }

    fn run_block<V: Verdicts>(
        &mut self,
        alloc: Global,
        block: &Block,
        verdicts: &V,
    ) -> Result<(), BlockRunError> {
        self.machine.run_block(alloc, block, verdicts)
    }

    fn begin(&mut self, alloc: Global, info: BlockInfo) -> Result<(), AllocError> {
        self.machine.begin(alloc, info)
    }

    fn run_trx<V: Verdicts>(
        &mut self,
        alloc: Global,
        packed: &[u8],
        signatures: &Seq<Bytes>,
        verdicts: &V,
    ) -> Result<Trace, AllocError> {
        self.machine.run_trx(alloc, packed, signatures, verdicts)
    }

    fn finish(&mut self, alloc: Global, id: &Digest) -> Result<(), AllocError> {
        self.machine.finish(alloc, id)
    }

    fn abandon(&mut self) {
        self.machine.abandon();
    }

    fn commit(&mut self, num: u32) {
        self.machine.commit(num);
    }

    fn shelve(&mut self, num: u32) {
        self.machine.shelve(num);
    }

    fn unshelve(&mut self) {
        self.machine.unshelve();
    }

    fn drop_shelf(&mut self) {
        self.machine.drop_shelf();
    }

    ghost sound = { λ chain judge w info packed signatures. sound_transactions chain_codes judge.recovers chain info w packed signatures };
}
