ghost use Rattle.std.specs.Prelude.{◌≡◌, IfOk};
ghost use Rattle.ante_gen.specs.Workload.{adds_of, reads_of, ledger_genesis};
ghost use Rattle.ante_types.specs.Chain.{genesis};

use crate::draws::{draw_keys, draw_pairs};
use crate::genesis::packed_genesis;
use ante_pack::{Bytes, Seq};
use std::alloc::{AllocError, Global};

/// How many pairs are added, and how many keys are read.
const MOST: usize = 2000;

/// What is done with a ledger.
#[derive(Drop, Debug)]
pub struct Workload {
    /// The packed genesis, with the ledger's account.
    pub genesis: Bytes,
    /// A key and what is added to its amount, in order.
    pub adds: Seq<(u64, u64)>,
    /// The keys whose amounts are read then, in order.
    pub keys: Seq<u64>,
}

/// The workload of a seed. The genesis is the same for all.
pub fn make_workload(alloc: Global, seed: u64) -> Result<Workload, AllocError>
    ensures genesis { IfOk result (λ workload. workload.genesis ≡ genesis.spell ledger_genesis) }
    ensures adds { IfOk result (λ workload. workload.adds ≡ adds_of seed) }
    ensures keys { IfOk result (λ workload. workload.keys ≡ reads_of seed) }
{
    let mut state = seed;
    let packed = packed_genesis();
    Ok(Workload {
        genesis: Bytes::from_slice(alloc, packed.as_slice())?,
        adds: draw_pairs(alloc, &mut state, MOST)?,
        keys: draw_keys(alloc, &mut state, MOST)?,
    })
}
