// What a genesis must be.
ghost use Rattle.std.specs.Prelude.{◌≡◌, ◌==◌, not, ℕ, Bool, List, IfOk, OnOk};
ghost use Rattle.std.specs.List.{list_any, list_all};
ghost use Rattle.std.specs.Option.{option_map};
ghost use Rattle.ante_types.specs.Genesis.{eosio};
ghost use Rattle.ante_types.specs.GenesisWorld.{genesis_world};
ghost use Rattle.ante_calls.specs.Accounts.{same_name};
ghost use Rattle.ante_execution.specs.declared.ends.GenesisFault.TheVariants as fault;
ghost use Rattle.ante_execution.specs.Answers.{ChecksGenesis};
ghost use Rattle.ante_execution.specs.Codes.{Accepts};
ghost use Rattle.ante_execution.specs.Native.SetCode.{CodesAreAccepted};
ghost use Rattle.ante_execution.specs.GenesisRules.{genesis_fault, are_distinct, are_producers, is_there_first, is_first_authority, has_bad_authority, has_bad_code, authority_fault, code_fault};

use crate::authority::{Levels, is_new_level, is_sound};
use crate::codes::may_be_code;
use crate::lookups::is_system;
use crate::rising::rises;
use ante_execution::GenesisFault;
use ante_pack::{Authority, Level, Name};
use ante_types::{Genesis, GenesisAccount};
use std::alloc::{AllocError, Global};

const MOST_PRODUCERS: usize = 21;

// The levels of the accounts of a genesis.
#[derive(Clone, Copy)]
struct Founded<'a> {
    accounts: &'a [GenesisAccount],
}

impl Levels for Founded<'_> {
    ghost there = { λ s. is_there_first s.accounts.now };

    fn is_there(&self, level: Level) -> bool {
        is_there_first(self.accounts, level)
    }
}

fn is_there_first(accounts: &[GenesisAccount], level: Level) -> bool
    ensures { result ≡ is_there_first accounts.now level }
{
    accounts
        .iter()
        .any(|account| is_new_level(account.name, level))
}

fn is_among(name: Name, names: &[Name]) -> bool
    ensures { result ≡ list_any (same_name name) names.now }
{
    names.iter().any(|other| name.0 == other.0)
}

fn are_distinct(names: &[Name]) -> bool
    ensures { result ≡ are_distinct names.now }
{
    let mut rest = names;
    'all: while let Some((first, others)) = rest.split_first() {
        if is_among(*first, others) {
            return false;
        }
        rest = others;
    }
    true
}

fn are_named(names: &[Name]) -> bool
    ensures { result ≡ list_all (λ n. not (n.0 == 0)) names.now }
{
    names.iter().all(|name| name.0 != 0)
}

fn are_producers(names: &[Name]) -> bool
    ensures { result ≡ are_producers names.now }
{
    1 <= names.len() && names.len() <= MOST_PRODUCERS && are_distinct(names) && are_named(names)
}

fn has_system(accounts: &[GenesisAccount]) -> bool
    ensures { result ≡ list_any (λ a. same_name a.name eosio) accounts.now }
{
    accounts.iter().any(|account| is_system(account.name))
}

fn is_first_authority(accounts: &[GenesisAccount], authority: &Authority) -> bool
    ensures { result ≡ is_first_authority accounts.now authority.now }
{
    authority.waits.len() == 0 && is_sound(&Founded { accounts }, authority)
}

fn has_bad_authority(accounts: &[GenesisAccount], account: &GenesisAccount) -> bool
    ensures { result ≡ has_bad_authority accounts.now account.now }
{
    !(is_first_authority(accounts, &account.owner) && is_first_authority(accounts, &account.active))
}

// The first account with a bad authority.
fn bad_authority(accounts: &[GenesisAccount]) -> Option<Name>
    ensures { option_map fault.BadAuthority result ≡ authority_fault accounts.now }
{
    let mut rest = accounts;
    'all: while let Some((first, others)) = rest.split_first() {
        if has_bad_authority(accounts, first) {
            return Some(first.name);
        }
        rest = others;
    }
    None
}

fn has_bad_code(alloc: Global, account: &GenesisAccount) -> Result<bool, AllocError>
    ensures { (accepts : List ℕ → Bool) → Accepts accepts → IfOk result (λ bad. bad ≡ has_bad_code accepts account.now) }
{
    let may_be = may_be_code(alloc, account.code.as_slice())?;
    Ok(!may_be)
}

fn check_codes(alloc: Global, accounts: &[GenesisAccount]) -> Result<(), GenesisFault>
    ensures { (accepts : List ℕ → Bool) → Accepts accepts → ChecksGenesis (code_fault accepts accounts.now) result }
{
    let mut rest = accounts;
    'all: while let Some((first, others)) = rest.split_first() {
        if has_bad_code(alloc, first)? {
            return Err(GenesisFault::BadCode {
                account: first.name,
            });
        }
        rest = others;
    }
    Ok(())
}

#[tactic(auto, unfolding(ante_execution::specs::GenesisRules::genesis_fault))]
fn check_rules(alloc: Global, genesis: &Genesis) -> Result<(), GenesisFault>
    ensures { (accepts : List ℕ → Bool) → Accepts accepts → ChecksGenesis (genesis_fault accepts genesis.now) result }
{
    let accounts = genesis.accounts.as_slice();
    if genesis.version != 1 {
        return Err(GenesisFault::Version {
            found: genesis.version,
        });
    }
    if !are_producers(genesis.producers.as_slice()) {
        return Err(GenesisFault::Producers);
    }
    if !rises(accounts) {
        return Err(GenesisFault::AccountOrder);
    }
    if !has_system(accounts) {
        return Err(GenesisFault::NoSystem);
    }
    if let Some(account) = bad_authority(accounts) {
        return Err(GenesisFault::BadAuthority { account });
    }
    check_codes(alloc, accounts)
}

/// Whether this is a genesis, or the first of its faults.
pub fn check_genesis(alloc: Global, genesis: &Genesis) -> Result<(), GenesisFault>
    ensures checks { (accepts : List ℕ → Bool) → Accepts accepts → ChecksGenesis (genesis_fault accepts genesis.now) result }
    ensures codes { (accepts : List ℕ → Bool) → Accepts accepts → OnOk result (CodesAreAccepted accepts (genesis_world genesis.now)) }
{
    check_rules(alloc, genesis)
}
