// Genesis as a block.
ghost use Rattle.std.specs.Prelude.{◌≡◌, IfOk};
ghost use Rattle.ante_types.specs.Chain as forms;
ghost use Rattle.ante_types.specs.Genesis as origins;
ghost use Rattle.ante_fork.specs.Tree as trees;

use ante_pack::{Bytes, Seq};
use ante_types::{Block, EOSIO, Genesis, Head, Header, block_id, write_genesis};
use sha2::{Digest as _, Sha256};
use std::alloc::{AllocError, Global};

/// Genesis's number and id. The bytes are the packed genesis.
pub fn genesis_head(genesis: &Genesis, packed: &[u8]) -> Head
    requires packed { packed.now ≡ forms.genesis.spell genesis.now }
    ensures { result ≡ origins.genesis_head genesis.now }
{
    let header = header_of(genesis, packed);
    Head {
        num: 1,
        id: block_id(&header),
    }
}

fn header_of(genesis: &Genesis, packed: &[u8]) -> Header
    requires packed { packed.now ≡ forms.genesis.spell genesis.now }
    ensures { result ≡ origins.genesis_header genesis.now }
{
    Header {
        slot: genesis.slot,
        producer: EOSIO,
        previous: [0; 32],
        trx_root: Sha256::digest(packed),
    }
}

/// Genesis as a block: it has no seal and no receipts.
pub fn block_of(alloc: Global, genesis: &Genesis) -> Result<Block, AllocError>
    requires { forms.genesis.Fits genesis.now }
    ensures { IfOk result (λ block. block ≡ trees.genesis_block genesis.now) }
{
    let packed = write_genesis(alloc, genesis)?;
    let header = header_of(genesis, packed.as_slice());
    Ok(Block {
        header,
        seal: Bytes::new(alloc),
        receipts: Seq::new(alloc),
    })
}
