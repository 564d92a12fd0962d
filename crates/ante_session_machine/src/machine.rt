ghost use Rattle.std.specs.Prelude.{◌≡◌, ℕ, ◌+◌, ◌≤◌, ◌<◌, ◌^◌, IsNone};
ghost use Rattle.ante_machine.specs.Stacks.{counted_once};
ghost use Rattle.ante_session_machine.specs.Under.{newest};

use crate::effects::Effects;
use crate::run::run_in_session;
use ante_machine::{BlockMachine, Worlds};
use ante_pack::{Bytes, Digest, Seq};
use ante_port::BlockRunError;
use ante_sessions::Sessions;
use ante_types::{Block, BlockInfo, Trace};
use ante_verdicts::Verdicts;
use std::alloc::{AllocError, Global};
use std::marker::Model;

/// A machine: a value with sessions, one for each block, and one for the pending block.
#[derive(Drop)]
pub struct SessionMachine<S: Sessions, E: Effects<S>> {
    chain: Digest,
    state: S,
    effects: E,
    pending: Option<BlockInfo>,
    ran: u64,
}

impl<S: Sessions, E: Effects<S>> Model for SessionMachine<S, E> {
    ghost use Rattle.std.specs.Prelude.{◌≤◌, ◌^◌};
    ghost use Rattle.ante_session_machine.specs.Under.{Parts, parts, IsSession};

    ghost Value = { Parts S.Map };

    ghost view = { λ s. parts s.chain (S.stack s.state) s.pending s.ran };

    ghost invariant = { λ s. IsSession (S.stack s.state) s.pending × (s.ran ≤ 2 ^ 63) };
}

impl<S: Sessions, E: Effects<S>> Worlds for SessionMachine<S, E> {
    type World = S::Map;

    ghost chain_id = { λ m. m.chain };

    ghost stack = { λ m. m.stack };
}

impl<S: Sessions, E: Effects<S>> SessionMachine<S, E> {
    /// A machine that stands for the value under its sessions.
    pub fn new(chain: Digest, state: S, effects: E) -> SessionMachine<S, E>
        ensures chain { result.chain ≡ chain }
        ensures stack { result.stack ≡ S.stack state }
        ensures idle { IsNone result.pending }
        ensures count { result.counted ≡ 0 }
    {
        SessionMachine {
            chain,
            state,
            effects,
            pending: None,
            ran: 0,
        }
    }

    /// The value that the machine stands for.
    pub fn state(&self) -> &S
        ensures newest { (S.stack result.now).top ≡ newest self.now }
        ensures idle { IsNone self.now.pending → S.stack result.now ≡ self.now.stack }
    {
        &self.state
    }

    /// What it does to worlds.
    pub fn effects(&self) -> &E {
        &self.effects
    }
}

fn once_more(ran: u64) -> u64
    requires { ran ≤ 2 ^ 63 }
    ensures { result ≡ counted_once ran }
{
    if ran < 9223372036854775808 {
        ran + 1
    } else {
        ran
    }
}

impl<S: Sessions, E: Effects<S>> BlockMachine for SessionMachine<S, E> {
    ghost steps = { E.steps };

    ghost pending = { λ m. m.pending };

    ghost counted = { λ m. m.counted };

    fn ran(&self) -> u64 {
        self.ran
    }

    fn run_block<V: Verdicts>(
        &mut self,
        alloc: Global,
        block: &Block,
        verdicts: &V,
    ) -> Result<(), BlockRunError> {
        let ran = once_more(self.ran);
        self.ran = ran;
        run_in_session(
            alloc,
            &self.chain,
            &mut self.state,
            &self.effects,
            block,
            verdicts,
        )
    }

    fn begin(&mut self, alloc: Global, info: BlockInfo) -> Result<(), AllocError> {
        self.state.begin(alloc)?;
        if let Err(refused) = self
            .effects
            .begin(alloc, &self.chain, &mut self.state, info)
        {
            self.state.undo();
            return Err(refused);
        }
        self.pending = Some(info);
        Ok(())
    }

    fn run_trx<V: Verdicts>(
        &mut self,
        alloc: Global,
        packed: &[u8],
        signatures: &Seq<Bytes>,
        verdicts: &V,
    ) -> Result<Trace, AllocError> {
        let Some(info) = self.pending else {
            unreachable!()
        };
        self.effects.trx(
            alloc,
            &self.chain,
            &mut self.state,
            info,
            packed,
            signatures,
            verdicts,
        )
    }

    fn finish(&mut self, alloc: Global, id: &Digest) -> Result<(), AllocError> {
        let Some(info) = self.pending else {
            unreachable!()
        };
        match self
            .effects
            .finish(alloc, &self.chain, &mut self.state, info.num, id)
        {
            Ok(()) => {
                self.pending = None;
                Ok(())
            }
            Err(refused) => Err(refused),
        }
    }

    fn abandon(&mut self) {
        self.state.undo();
        self.pending = None;
    }

    fn commit(&mut self, num: u32) {
        self.state.commit(num as u64);
    }

    fn shelve(&mut self, num: u32) {
        self.state.shelve(num as u64);
    }

    fn unshelve(&mut self) {
        self.state.unshelve();
    }

    fn drop_shelf(&mut self) {
        self.state.drop_shelf();
    }

    ghost sound = { E.sound };
}
