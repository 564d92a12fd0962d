// The state that a chain begins with.
ghost use Rattle.std.specs.Prelude.{◌≡◌, ◌==◌, [], Some, IfOk, OnOk};
ghost use Rattle.ante_undo.specs.Stack.{opened, with_top, IsAbove};
ghost use Rattle.ante_types.specs.Chain as forms;
ghost use Rattle.ante_types.specs.Genesis.{eosio, genesis_head};
ghost use Rattle.ante_store.specs.declared.change.Change.TheVariants as change;
ghost use Rattle.ante_types.specs.GenesisWorld.{account_of, genesis_world};
ghost use Rattle.ante_store.specs.Genesis.{joined, Rises, Shows};
ghost use Rattle.ante_store.specs.Worlds.{world_of, IsBilled};
ghost use Rattle.ante_store.specs.Applied.{IsMade};

use crate::apply::apply;
use crate::change::Change;
use crate::parts::{Parts, no_parts};
use crate::store::Store;
use ante_pack::{Authority, Bytes, Digest, Level, Name};
use ante_state::{AccountRow, PermissionRow};
use ante_types::{EOSIO, Genesis, GenesisAccount, Header, block_id};
use sha2::{Digest as _, Sha256};
use std::alloc::{AllocError, Global};

/// The topmost permission of an account.
const OWNER: Name = Name(12044502819693133824);

/// The permission that an account acts with.
const ACTIVE: Name = Name(3617214756542218240);

const NO_NAME: Name = Name(0);

impl Store {
    /// The state that a chain begins with, at revision 1 with no session open. The bytes are the packed genesis. Where all
    /// accounts together would use more than 2^62 bytes, memory is wanting.
    pub fn from_genesis(
        alloc: Global,
        genesis: &Genesis,
        packed: &[u8],
    ) -> Result<Store, AllocError>
        requires rises { Rises genesis.now.accounts }
        requires packed { packed.now ≡ forms.genesis.spell genesis.now }
        ensures { IfOk result (λ store. store ≡ opened (genesis_world genesis.now) 1) }
    {
        let mut parts = empty_parts(alloc);
        add_accounts(alloc, &mut parts, genesis.accounts.as_slice())?;
        let id = genesis_id(genesis, packed);
        make(alloc, &mut parts, Change::SetReference { low: 1, id })?;
        Ok(Store::of_parts(parts))
    }
}

fn empty_parts(alloc: Global) -> Parts
    ensures base { result ≡ opened result.top 0 }
    ensures shows { Shows [] result.top }
{
    no_parts(alloc, 0)
}

// Makes a change that nothing but the sum of all usage can be against.
fn make(alloc: Global, parts: &mut Parts, change: Change) -> Result<(), AllocError>
    requires above { IsAbove 1 parts.old }
    requires billed { IsBilled parts.old.top }
    ensures ok { OnOk result (IsMade change parts.old.top parts.new.top) }
    ensures top { parts.new ≡ with_top parts.new.top parts.old }
{
    match apply(alloc, parts, change) {
        Ok(()) => Ok(()),
        Err(_) => Err(AllocError),
    }
}

fn add_accounts(
    alloc: Global,
    parts: &mut Parts,
    accounts: &[GenesisAccount],
) -> Result<(), AllocError>
    requires above { IsAbove 1 parts.old }
    requires shows { Shows [] parts.old.top }
    requires rises { Rises accounts.now }
    ensures shows { OnOk result (Shows accounts.now parts.new.top) }
    ensures top { parts.new ≡ with_top parts.new.top parts.old }
{
    for account in accounts {
        add_account(alloc, parts, account)?;
    }
    Ok(())
}

fn add_account(alloc: Global, parts: &mut Parts, account: &GenesisAccount) -> Result<(), AllocError>
    requires above { IsAbove 1 parts.old }
    requires billed { IsBilled parts.old.top }
    ensures world { OnOk result (world_of parts.new.top ≡ joined account.now (world_of parts.old.top)) }
    ensures billed { OnOk result (IsBilled parts.new.top) }
    ensures top { parts.new ≡ with_top parts.new.top parts.old }
{
    let name = account.name;
    let row = account_row(alloc, account)?;
    make(alloc, parts, Change::SetAccount { name, row })?;
    set_permission(alloc, parts, level(name, ACTIVE), OWNER, &account.active)?;
    set_permission(alloc, parts, level(name, OWNER), NO_NAME, &account.owner)
}

fn level(actor: Name, permission: Name) -> Level
    ensures { result ≡ record { actor = actor; permission = permission } }
{
    Level { actor, permission }
}

fn set_permission(
    alloc: Global,
    parts: &mut Parts,
    level: Level,
    parent: Name,
    authority: &Authority,
) -> Result<(), AllocError>
    requires above { IsAbove 1 parts.old }
    requires billed { IsBilled parts.old.top }
    ensures ok { OnOk result (IsMade (change.SetPermission level (Some (record { parent = parent; authority = authority.now }))) parts.old.top parts.new.top) }
    ensures top { parts.new ≡ with_top parts.new.top parts.old }
{
    let authority = authority.try_clone(alloc)?;
    let row = PermissionRow { parent, authority };
    make(
        alloc,
        parts,
        Change::SetPermission {
            level,
            row: Some(row),
        },
    )
}

fn account_row(alloc: Global, account: &GenesisAccount) -> Result<AccountRow, AllocError>
    ensures { IfOk result (λ row. row ≡ (account_of account.now).1) }
{
    let code = account.code.try_clone(alloc)?;
    Ok(AccountRow {
        payer: account.name,
        privileged: is_system(account.name),
        code,
        abi: Bytes::new(alloc),
    })
}

// Whether it is the account of the system.
#[tactic(auto, unfolding(ante_pack::specs::Names::name_number, ante_pack::specs::Names::number_of))]
fn is_system(name: Name) -> bool
    ensures { result ≡ (name.0 == eosio.0) }
{
    name == EOSIO
}

// The id of genesis as block 1.
fn genesis_id(genesis: &Genesis, packed: &[u8]) -> Digest
    requires packed { packed.now ≡ forms.genesis.spell genesis.now }
    ensures { result ≡ (genesis_head genesis.now).id }
{
    let header = Header {
        slot: genesis.slot,
        producer: EOSIO,
        previous: [0; 32],
        trx_root: Sha256::digest(packed),
    };
    block_id(&header)
}
