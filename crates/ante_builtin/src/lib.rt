//! The built-in genesis as a value and as a store, for tests of the layers above.
#![tactic(auto)]

ghost use Rattle.std.specs.Prelude.{◌≡◌, None, IfOk};
ghost use Rattle.ante_types.specs.Genesis.{builtin_authority, builtin_genesis};

use ante_pack::{Authority, Bytes, KeyWeight, Seq};
use ante_store::Store;
use ante_types::{EOSIO, Genesis, GenesisAccount, builtin_packed};
use std::alloc::{AllocError, Global};

fn authority(alloc: Global) -> Result<Authority, AllocError>
    ensures { IfOk result (λ authority. authority ≡ builtin_authority) }
{
    let mut key = [0; 34];
    key[1] = 2;
    let mut keys = Seq::new(alloc);
    keys.push(alloc, KeyWeight { key, weight: 1 })?;
    Ok(Authority {
        threshold: 1,
        keys,
        accounts: Seq::new(alloc),
        waits: Seq::new(alloc),
    })
}

/// The built-in genesis.
#[tactic(auto, unfolding(ante_types::specs::Genesis::builtin_genesis, ante_pack::specs::Names::name_number, ante_pack::specs::Names::number_of))]
pub fn genesis(alloc: Global) -> Result<Genesis, AllocError>
    ensures { IfOk result (λ genesis. genesis ≡ builtin_genesis) }
{
    let owner = authority(alloc)?;
    let active = authority(alloc)?;
    let mut producers = Seq::new(alloc);
    producers.push(alloc, EOSIO)?;
    let mut accounts = Seq::new(alloc);
    let account = GenesisAccount {
        name: EOSIO,
        owner,
        active,
        code: Bytes::new(alloc),
    };
    accounts.push(alloc, account)?;
    Ok(Genesis {
        version: 1,
        slot: 0,
        producers,
        accounts,
    })
}

/// The store that a chain on the built-in genesis begins with.
#[tactic(auto, unfolding(ante_types::specs::Genesis::builtin_genesis, ante_pack::specs::Names::name_number, ante_pack::specs::Names::number_of))]
pub fn builtin_store(alloc: Global) -> Result<Store, AllocError>
    ensures shelf { IfOk result (λ store. store.shelf ≡ None) }
    ensures revision { IfOk result (λ store. store.revision ≡ 1) }
{
    let genesis = genesis(alloc)?;
    let packed = builtin_packed();
    Store::from_genesis(alloc, &genesis, packed.as_slice())
}
