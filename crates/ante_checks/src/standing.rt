//! The time, the reference and the repetition of a transaction.
ghost use Rattle.std.specs.Prelude.{◌≡◌, take, drop};
ghost use Rattle.std.specs.Int.{w32, from_le_bytes};
ghost use Rattle.std.specs.List.{list_all};
ghost use Rattle.ante_execution.specs.Transactions.{has_no_level, is_expired, is_recent, is_too_far, refers, standing_refusal};

use ante_pack::Digest;
use ante_store::Store;
use ante_types::{Action, Failure, Transaction};

/// Half seconds from 1970 to slot 0.
const FIRST_SLOT: u64 = 1_893_369_600;

/// An hour in slots.
const HOUR: u64 = 7_200;

/// Whether the moment, in seconds from 1970, is past at the slot.
pub fn is_expired(expiration: u32, slot: u32) -> bool
    ensures { result ≡ is_expired expiration slot }
{
    2 * u64::from(expiration) < FIRST_SLOT + u64::from(slot)
}

fn is_too_far(expiration: u32, slot: u32) -> bool
    ensures { result ≡ is_too_far expiration slot }
{
    FIRST_SLOT + u64::from(slot) + HOUR < 2 * u64::from(expiration)
}

// Bytes 8 to 11 of the id, the lowest first.
fn prefix_of(id: &Digest) -> u32
    ensures { result ≡ from_le_bytes w32 (take 4 (drop 8 id.now)) }
{
    u32::from_le_bytes([id[8], id[9], id[10], id[11]])
}

fn refers(store: &Store, trx: &Transaction) -> bool
    ensures { result ≡ refers trx.now store.now.top }
{
    match store.objects().reference(trx.ref_block_num) {
        Some(id) => prefix_of(&id) == trx.ref_block_prefix,
        None => false,
    }
}

fn is_recent(store: &Store, expiration: u32, id: &Digest) -> bool
    ensures { result ≡ is_recent expiration id.now store.now.top }
{
    store.objects().recent(expiration, id)
}

fn have_no_level(actions: &[Action]) -> bool
    ensures { result ≡ list_all has_no_level actions.now }
{
    let mut rest = actions;
    'each: while let Some((action, others)) = rest.split_first() {
        if action.authorization.len() != 0 {
            return false;
        }
        rest = others;
    }
    true
}

/// It is neither past nor too far ahead, refers to a block, and isn't repeated; and somebody sends it.
pub(crate) fn check_standing(
    store: &Store,
    slot: u32,
    trx: &Transaction,
    id: &Digest,
) -> Option<Failure>
    ensures { result ≡ standing_refusal store.now.top slot trx.now id.now }
{
    if is_expired(trx.expiration, slot) {
        return Some(Failure::Expired);
    }
    if is_too_far(trx.expiration, slot) {
        return Some(Failure::TooFar);
    }
    if !refers(store, trx) {
        return Some(Failure::BadReference);
    }
    if is_recent(store, trx.expiration, id) {
        return Some(Failure::Duplicate);
    }
    if have_no_level(trx.actions.as_slice()) {
        return Some(Failure::NoAuthorization);
    }
    None
}
