//! The genesis that an engine begins with.
ghost use Rattle.std.specs.Prelude.{◌≡◌, ◌≤◌, length, Option, Ok, Err, IfOk, IfErr};
ghost use Rattle.ante_engine.specs.Founding.{IsGenesis, IsNoGenesis, Shows};
ghost use Rattle.ante_execution.specs.Answers.{ChecksGenesis};
ghost use Rattle.ante_execution.specs.declared.ends.GenesisFault.{GenesisFault};
ghost use Rattle.ante_engine.specs.declared.founding.EngineError.TheVariants as error;
ghost use Rattle.ante_pack.specs.Forms.{Packs, whole};
ghost use Rattle.ante_store.specs.Genesis.{Rises};
ghost use Rattle.ante_types.specs.Chain as forms;

use ante_execution::GenesisFault;
use ante_native::check_genesis;
use ante_pack::{PackFault, ReadFault};
use ante_types::{Genesis, read_genesis};
use std::alloc::{AllocError, Global};
use thiserror::Error;

/// Why no engine begins with these bytes.
#[derive(Clone, Copy, Debug, PartialEq, Eq, Error)]
pub enum EngineError {
    #[error("out of memory")]
    OutOfMemory,
    #[error("the bytes are no packed genesis")]
    Pack(PackFault),
    #[error("bad genesis")]
    Genesis(GenesisFault),
}

impl From<AllocError> for EngineError {
    ghost from_gives = { λ _ e. e ≡ error.OutOfMemory };

    fn from(_: AllocError) -> EngineError {
        EngineError::OutOfMemory
    }
}

fn read_all(alloc: Global, packed: &[u8]) -> Result<Genesis, EngineError>
    ensures found { IfOk result (λ g. Packs forms.genesis g packed.now) }
    ensures read { IfOk result (λ g. whole forms.genesis packed.now ≡ Ok g) }
    ensures fault { IfErr result (IsNoGenesis packed.now) }
{
    match read_genesis(alloc, packed) {
        Ok(genesis) => Ok(genesis),
        Err(ReadFault::OutOfMemory) => Err(EngineError::OutOfMemory),
        Err(ReadFault::Pack(fault)) => Err(EngineError::Pack(fault)),
    }
}

// Want of memory is no fault of the genesis.
fn shown(fault: GenesisFault) -> EngineError
    ensures { (found : Option GenesisFault) → ChecksGenesis found (Err fault) → Shows found result }
{
    match fault {
        GenesisFault::OutOfMemory => EngineError::OutOfMemory,
        GenesisFault::Version { found } => EngineError::Genesis(GenesisFault::Version { found }),
        GenesisFault::Producers => EngineError::Genesis(GenesisFault::Producers),
        GenesisFault::AccountOrder => EngineError::Genesis(GenesisFault::AccountOrder),
        GenesisFault::NoSystem => EngineError::Genesis(GenesisFault::NoSystem),
        GenesisFault::BadAuthority { account } => {
            EngineError::Genesis(GenesisFault::BadAuthority { account })
        }
        GenesisFault::BadCode { account } => {
            EngineError::Genesis(GenesisFault::BadCode { account })
        }
    }
}

/// Reads all the bytes as a genesis, and checks it.
pub fn founding_genesis(alloc: Global, packed: &[u8]) -> Result<Genesis, EngineError>
    ensures genesis { IfOk result (IsGenesis packed.now) }
    ensures packs { IfOk result (λ g. Packs forms.genesis g packed.now) }
    ensures rises { IfOk result (λ g. Rises g.accounts) }
    ensures some { IfOk result (λ g. 1 ≤ length g.producers) }
    ensures few { IfOk result (λ g. length g.producers ≤ 21) }
    ensures fault { IfErr result (IsNoGenesis packed.now) }
{
    let genesis = read_all(alloc, packed)?;
    match check_genesis(alloc, &genesis) {
        Ok(()) => Ok(genesis),
        Err(fault) => Err(shown(fault)),
    }
}
