// What an authority must be: a threshold that its weights can reach, keys and levels in strict order, and each level there.
ghost use Rattle.std.specs.Prelude.{◌≡◌, ℕ, ◌-◌, nat_le, Bool, sum_by, length};
ghost use Rattle.std.specs.List.{list_all};
ghost use Rattle.ante_pack.specs.declared.authority.Level.{Level};
ghost use Rattle.ante_execution.specs.Native.NewAccount.{is_there_then, is_new_level};
ghost use Rattle.ante_execution.specs.Native.Rules.{authority_refusal, all_weights, is_sound, is_there};
ghost use Rattle.ante_native.specs.Parts.{Passes};

use crate::lookups::{has_permission, is_account, is_active, is_eosio_code, is_owner};
use crate::rising::rises;
use ante_execution::NativeFault;
use ante_pack::{Authority, KeyWeight, Level, LevelWeight, Name};
use ante_store::Store;
use ante_types::{Failure, Label};
use std::alloc::Global;

/// The levels that an authority may name.
pub(crate) trait Levels {
    ghost there: { Self → Level → Bool };

    fn is_there(&self, level: Level) -> bool
        ensures { result ≡ there self.now level };
}

/// Those of a state, and `eosio.code` of its accounts.
#[derive(Clone, Copy)]
pub(crate) struct Present<'a> {
    pub(crate) store: &'a Store,
}

impl Levels for Present<'_> {
    ghost there = { λ s. is_there s.store.now.top };

    fn is_there(&self, level: Level) -> bool {
        is_there(self.store, level)
    }
}

/// Those of a state when the new account has its own.
#[derive(Clone, Copy)]
pub(crate) struct PresentThen<'a> {
    pub(crate) store: &'a Store,
    pub(crate) name: Name,
}

impl Levels for PresentThen<'_> {
    ghost there = { λ s. is_there_then s.name s.store.now.top };

    fn is_there(&self, level: Level) -> bool {
        is_there(self.store, level) || is_new_level(self.name, level)
    }
}

fn is_there(store: &Store, level: Level) -> bool
    ensures { result ≡ is_there store.now.top level }
{
    has_permission(store, level)
        || (is_eosio_code(level.permission) && is_account(store, level.actor))
}

/// Whether it is one of the levels of a new account with this name.
pub(crate) fn is_new_level(name: Name, level: Level) -> bool
    ensures { result ≡ is_new_level name level }
{
    level.actor.0 == name.0
        && (is_owner(level.permission)
            || is_active(level.permission)
            || is_eosio_code(level.permission))
}

/// Something that counts towards a threshold.
trait Weighs {
    ghost counted: { Self → ℕ };

    fn weight(&self) -> u16
        ensures { result ≡ counted self.now };
}

impl Weighs for KeyWeight {
    ghost counted = { λ k. k.weight };

    fn weight(&self) -> u16 {
        self.weight
    }
}

impl Weighs for LevelWeight {
    ghost counted = { λ l. l.weight };

    fn weight(&self) -> u16 {
        self.weight
    }
}

// What is still wanted when all these have been counted. Counting down, no sum of weights can overflow.
fn wanted_after<W: Weighs>(threshold: u32, weights: &[W]) -> u32
    ensures { result ≡ threshold - sum_by W.counted weights.now }
{
    let mut wanted = threshold;
    let mut rest = weights;
    'all: while let Some((first, others)) = rest.split_first() {
        wanted = wanted.saturating_sub(u32::from(first.weight()));
        rest = others;
    }
    wanted
}

fn is_reached(authority: &Authority) -> bool
    ensures { result ≡ nat_le authority.now.threshold (all_weights authority.now) }
{
    let wanted = wanted_after(authority.threshold, authority.keys.as_slice());
    wanted_after(wanted, authority.accounts.as_slice()) == 0
}

fn are_there<L: Levels>(levels: &L, accounts: &[LevelWeight]) -> bool
    ensures { result ≡ list_all (λ l. L.there levels.now l.level) accounts.now }
{
    let mut rest = accounts;
    'all: while let Some((first, others)) = rest.split_first() {
        if !levels.is_there(first.level) {
            return false;
        }
        rest = others;
    }
    true
}

pub(crate) fn is_sound<L: Levels>(levels: &L, authority: &Authority) -> bool
    ensures { result ≡ is_sound (L.there levels.now) authority.now }
{
    authority.threshold >= 1
        && rises(authority.keys.as_slice())
        && rises(authority.accounts.as_slice())
        && is_reached(authority)
        && are_there(levels, authority.accounts.as_slice())
}

/// Whether the authority may be set. Memory is taken where it has waits, which nothing supports.
pub(crate) fn check_authority<L: Levels>(
    alloc: Global,
    levels: &L,
    authority: &Authority,
) -> Result<(), NativeFault>
    ensures { Passes (authority_refusal (L.there levels.now) authority.now) result }
{
    if authority.waits.len() != 0 {
        let field = Label::new(alloc, b"waits")?;
        return Err(NativeFault::Failed(Failure::Unsupported { field }));
    }
    if !is_sound(levels, authority) {
        return Err(NativeFault::Failed(Failure::Native { rule: 1 }));
    }
    Ok(())
}
