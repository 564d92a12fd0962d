// The sum of weights that satisfies a permission.
ghost use Rattle.std.specs.Prelude.{◌≡◌, ℕ, ◌-◌, List, bytes_eq, if◌then◌else◌};
ghost use Rattle.std.specs.List.{list_any, sum_by};
ghost use Rattle.ante_execution.specs.Authorities.{is_code_level, add_levels, satisfied_within, satisfied};
ghost use Rattle.ante_types.specs.World.{World};
ghost use Rattle.ante_authz.specs.Gains.{gained};

use crate::lookups::permission;
use ante_execution::{EOSIO_CODE, Weighed};
use ante_pack::{Key, KeyWeight, Level, LevelWeight, Name};
use ante_store::Store;

// No permission that lies deeper is looked at.
const MOST_LEVELS: u8 = 6;

/// Whether the permission is satisfied by these keys and by the calling contract; each permission that is looked at takes
/// one of the visits.
#[tactic(auto, unfolding(ante_execution::specs::Authorities::satisfied))]
pub fn satisfied(
    store: &Store,
    level: Level,
    keys: &[Key],
    code: Option<Name>,
    visits: &mut u32,
) -> Weighed
    ensures { (result, visits.new) ≡ satisfied store.now.top keys.now code level visits.old }
{
    satisfied_within(store, keys, code, MOST_LEVELS, level, visits)
}

#[cycle(weights)]
#[tactic(auto, using(crate::proofs::Counting::no_visits, crate::proofs::Counting::too_deep))]
fn satisfied_within(
    store: &Store,
    keys: &[Key],
    code: Option<Name>,
    levels: u8,
    level: Level,
    visits: &mut u32,
) -> Weighed
    ensures { (result, visits.new) ≡ satisfied_within store.now.top keys.now code levels level visits.old }
{
    if *visits == 0 {
        return Weighed::Spent;
    }
    *visits -= 1;
    if levels == 0 {
        return Weighed::No;
    }
    if is_code_level(code, level) {
        return Weighed::Yes;
    }
    match permission(store, level) {
        Some(row) => {
            let authority = &row.authority;
            let wanted = after_keys(authority.threshold, authority.keys.as_slice(), keys);
            let accounts = authority.accounts.as_slice();
            add_levels(store, keys, code, levels - 1, wanted, accounts, visits)
        }
        None => Weighed::No,
    }
}

// Counts down what is wanted, so that no sum of weights can overflow.
#[cycle(weights)]
fn add_levels(
    store: &Store,
    keys: &[Key],
    code: Option<Name>,
    levels: u8,
    threshold: u32,
    accounts: &[LevelWeight],
    visits: &mut u32,
) -> Weighed
    ensures { (result, visits.new) ≡ add_levels (satisfied_within store.now.top keys.now code levels) threshold 0 accounts.now visits.old }
{
    let mut wanted = threshold;
    let mut rest = accounts;
    'accounts: while let Some((account, others)) = rest.split_first() {
        if wanted == 0 {
            return Weighed::Yes;
        }
        let weighed = satisfied_within(store, keys, code, levels, account.level, visits);
        let Some(weight) = gained(weighed, account.weight) else {
            return Weighed::Spent;
        };
        wanted = wanted.saturating_sub(weight);
        rest = others;
    }
    if wanted == 0 {
        Weighed::Yes
    } else {
        Weighed::No
    }
}

fn gained(weighed: Weighed, weight: u16) -> Option<u32>
    ensures { result ≡ gained weighed weight }
{
    match weighed {
        Weighed::Yes => Some(u32::from(weight)),
        Weighed::No => Some(0),
        Weighed::Spent => None,
    }
}

// What is still wanted when the keys that are given have been counted.
fn after_keys(threshold: u32, weights: &[KeyWeight], keys: &[Key]) -> u32
    ensures { result ≡ threshold - sum_by (λ k. if list_any (bytes_eq k.key) keys.now then k.weight else 0) weights.now }
{
    let mut wanted = threshold;
    let mut rest = weights;
    'weights: while let Some((weight, others)) = rest.split_first() {
        if wanted == 0 {
            return 0;
        }
        wanted = wanted.saturating_sub(key_weight(weight, keys));
        rest = others;
    }
    wanted
}

fn is_given(key: &Key, keys: &[Key]) -> bool
    ensures { result ≡ list_any (bytes_eq key.now) keys.now }
{
    keys.contains(key)
}

fn key_weight(weight: &KeyWeight, keys: &[Key]) -> u32
    ensures { result ≡ (if list_any (bytes_eq weight.now.key) keys.now then weight.now.weight else 0) }
{
    if is_given(&weight.key, keys) {
        u32::from(weight.weight)
    } else {
        0
    }
}

#[tactic(auto, unfolding(ante_pack::specs::Names::name_number, ante_pack::specs::Names::number_of))]
fn is_code_level(code: Option<Name>, level: Level) -> bool
    ensures { (w : World) (keys : List (List ℕ)) → result ≡ is_code_level w keys code code level }
{
    match code {
        Some(name) => level.actor == name && level.permission == EOSIO_CODE,
        None => false,
    }
}
