ghost use Rattle.std.specs.Prelude.{◌≡◌, IsNone, IfOk, IfErr};
ghost use Rattle.sha2.specs.Sha256.{sha256};
ghost use Rattle.ante_engine.specs.Founding.{IsGenesis, IsNoGenesis, founded};
ghost use Rattle.ante_engine.specs.Reading.{answer, looks};
ghost use Rattle.ante_execution.specs.Answers.{ReadsOnly};
ghost use Rattle.ante_port.specs.Reading.{ReadsTo};
ghost use Rattle.ante_session_machine.specs.Under.{newest};
ghost use Rattle.ante_types.specs.declared.chain.Genesis.{Genesis};

use crate::effects::ChainEffects;
use crate::founding::{EngineError, founding_genesis};
use ante_base::Stop;
use ante_modcache::ModuleCache;
use ante_pack::Digest;
use ante_port::ReadEnd;
use ante_session_machine::SessionMachine;
use ante_store::Store;
use ante_transactions::read_transaction;
use ante_types::{Head, ReadJob, Trace};
use sha2::{Digest as _, Sha256};
use std::alloc::{AllocError, Global};

/// The store of a chain under its sessions, a session for each block and one for the block that is being made.
///
/// Contracts see the chain's id, the stack of worlds, the pending block and the count of blocks that were run.
#[derive(Drop)]
pub struct Engine {
    pub(crate) machine: SessionMachine<Store, ChainEffects>,
}

fn chain_id(packed: &[u8]) -> Digest
    ensures { result ≡ sha256 packed.now }
{
    Sha256::digest(packed)
}

impl Engine {
    /// An engine at the block of the genesis that these bytes are.
    pub fn new(alloc: Global, packed: &[u8]) -> Result<Engine, EngineError>
        ensures founded { IfOk result (λ engine. (g : Genesis) → IsGenesis packed.now g → engine.machine ≡ founded packed.now g) }
        ensures genesis { IfOk result (λ engine. (g : Genesis) × IsGenesis packed.now g) }
        ensures fault { IfErr result (IsNoGenesis packed.now) }
    {
        let genesis = founding_genesis(alloc, packed)?;
        let store = Store::from_genesis(alloc, &genesis, packed)?;
        let Ok(modules) = ModuleCache::new(alloc) else {
            return Err(EngineError::OutOfMemory);
        };
        let machine = SessionMachine::new(chain_id(packed), store, ChainEffects { modules });
        Ok(Engine { machine })
    }

    /// The store. Its newest state is that of the pending block, if there is one, and else that of the newest block.
    pub fn store(&self) -> &Store
        ensures newest { result.now.top ≡ newest self.now.machine }
        ensures idle { IsNone self.now.machine.pending → result.now ≡ self.now.machine.stack }
    {
        self.machine.state()
    }

    /// Runs a read-only transaction on the newest state, and changes nothing. The trace has this position and head; the slot is that of
    /// the head's block.
    pub fn read_only<P: Stop>(
        &self,
        alloc: Global,
        position: u64,
        head: Head,
        slot: u32,
        job: &ReadJob,
        stop: &mut P,
    ) -> Result<ReadEnd<Trace>, AllocError>
        ensures reads { ReadsTo (answer (newest self.now.machine) position head slot job.now) P.may stop.old stop.new result }
        ensures count { ReadsOnly (answer (newest self.now.machine) position head slot job.now) (looks (newest self.now.machine) slot job.now) result
            (P.looks stop.old) (P.looks stop.new) }
    {
        let modules = &self.machine.effects().modules;
        let store = self.machine.state();
        read_transaction(alloc, modules, store, position, head, slot, job, stop)
    }
}
