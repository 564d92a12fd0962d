ghost use Rattle.std.specs.Prelude.{◌≡◌};
ghost use Rattle.ante_types.specs.Chain.{genesis};
ghost use Rattle.ante_types.specs.Genesis.{builtin_genesis, genesis_head};

use crate::chain::{Head, Header};
use crate::ids::block_id;
use ante_pack::Name;
use sha2::{Digest, Sha256};

/// The account of the system.
pub const EOSIO: Name = Name(6138663577826885632);

const PACKED: [u8; 113] = [
    1, 0, 0, 0, 0, 0, 0, 0, 1, 0, 0, 0, 0, 0, 234, 48, 85, 1, 0, 0, 0, 0, 0, 234, 48, 85, 1, 0, 0,
    0, 1, 0, 2, 0, 0, 0, 0, 0, 0, 0, 0, 0, 0, 0, 0, 0, 0, 0, 0, 0, 0, 0, 0, 0, 0, 0, 0, 0, 0, 0, 0,
    0, 0, 0, 0, 1, 0, 0, 0, 1, 0, 0, 0, 1, 0, 2, 0, 0, 0, 0, 0, 0, 0, 0, 0, 0, 0, 0, 0, 0, 0, 0, 0,
    0, 0, 0, 0, 0, 0, 0, 0, 0, 0, 0, 0, 0, 0, 0, 1, 0, 0, 0, 0,
];

/// The packed form of the built-in genesis.
pub fn builtin_packed() -> [u8; 113]
    ensures { result ≡ genesis.spell builtin_genesis }
{
    PACKED
}

/// The built-in genesis as block 1.
pub fn builtin_head() -> Head
    ensures { result ≡ genesis_head builtin_genesis }
{
    let header = Header {
        slot: 0,
        producer: EOSIO,
        previous: [0; 32],
        trx_root: Sha256::digest(builtin_packed().as_slice()),
    };
    Head {
        num: 1,
        id: block_id(&header),
    }
}
