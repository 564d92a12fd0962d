//! The first and the last act of a block.
ghost use Rattle.std.specs.Prelude.{◌≡◌, ◌∷◌, [], ℕ, suc, ◌<◌, length, Bool, true, false, if◌then◌else◌, OnOk, OnErr, IfOk};
ghost use Rattle.ante_undo.specs.Stack.{with_top, IsAbove};
ghost use Rattle.ante_store.specs.Changes.{after};
ghost use Rattle.ante_store.specs.declared.change.Change.TheVariants as change;
ghost use Rattle.ante_execution.specs.Blocks.{begin_block, finish_block, most_forgotten, without_expired};

use ante_checks::is_expired;
use ante_pack::Digest;
use ante_state::{RecentKey, recent_are_ordered, total_order};
use ante_store::{Change, Store, Tables, Writing};
use ante_types::BlockInfo;
use std::alloc::{AllocError, Global};

/// How many expired transactions a block forgets at most.
const MOST_FORGOTTEN: u8 = 64;

pub(crate) fn change(alloc: Global, store: &mut Store, change: Change) -> Result<(), AllocError>
    requires session { 0 < length store.old.under }
    requires above { IsAbove 1 store.old }
    ensures ok { OnOk result (store.new ≡ with_top (after change store.old.top) store.old) }
    ensures err { OnErr result (store.new ≡ store.old) }
{
    let mut tables = Writing(store);
    match tables.write(alloc, change) {
        Ok(()) => Ok(()),
        // No change that is made here is billed, so that only memory can be wanting.
        Err(_) => Err(AllocError),
    }
}

fn without_recent(recent: (u32, Digest)) -> Change
    ensures { result ≡ change.SetRecent recent.0 recent.1 false }
{
    let id = recent.1;
    Change::SetRecent {
        expiration: recent.0,
        id,
        there: false,
    }
}

// Whether the first of all recent transactions was expired, and so is forgotten.
fn forget_first(alloc: Global, store: &mut Store, slot: u32) -> Result<bool, AllocError>
    requires session { 0 < length store.old.under }
    requires above { IsAbove 1 store.old }
    ensures recent { IfOk result (λ more. (most : ℕ) → without_expired (suc most) slot store.old.top.recent ≡
        (if more then without_expired most slot store.new.top.recent else store.new.top.recent)) }
    ensures world { OnOk result (store.new ≡ with_top (record store.old.top { recent = store.new.top.recent }) store.old) }
    ensures err { OnErr result (store.new ≡ store.old) }
{
    total_order::<RecentKey>();
    recent_are_ordered();
    let Some(first) = store.objects().next_recent(None) else {
        return Ok(false);
    };
    if !is_expired(first.0, slot) {
        return Ok(false);
    }
    change(alloc, store, without_recent(first))?;
    Ok(true)
}

/// Forgets transactions that are expired at the block's slot, a few of them, the earliest first. After want of memory some of them are
/// forgotten.
pub fn begin_block(alloc: Global, store: &mut Store, info: BlockInfo) -> Result<(), AllocError>
    requires session { 0 < length store.old.under }
    requires above { IsAbove 1 store.old }
    ensures ok { OnOk result (store.new ≡ with_top (begin_block info store.old.top) store.old) }
    ensures err { OnErr result (store.new ≡ with_top store.new.top store.old) }
{
    let mut more = MOST_FORGOTTEN;
    'each: while more > 0 {
        if !forget_first(alloc, store, info.slot)? {
            return Ok(());
        }
        more -= 1;
    }
    Ok(())
}

/// Makes the block the reference of its number.
pub fn finish_block(
    alloc: Global,
    store: &mut Store,
    num: u32,
    id: &Digest,
) -> Result<(), AllocError>
    requires session { 0 < length store.old.under }
    requires above { IsAbove 1 store.old }
    ensures ok { OnOk result (store.new ≡ with_top (finish_block num id.now store.old.top) store.old) }
    ensures err { OnErr result (store.new ≡ store.old) }
{
    let low = (num % 65536) as u16;
    change(alloc, store, Change::SetReference { low, id: *id })
}
