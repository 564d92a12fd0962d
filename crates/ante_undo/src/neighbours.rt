// The first and the last value in a part of the slots.
ghost use Rattle.std.specs.Prelude.{◌≡◌, IsTrue, [], ◌∷◌};
ghost use Rattle.std.specs.Option.{option_map};
ghost use Rattle.std.specs.Map.Iter.{deref_pair};
ghost use Rattle.std.specs.BTreeMap.{IsOrdered};
ghost use Rattle.ante_undo.specs.Entries.{entry_from, entry_after, entry_before, entry_up_to, first_entry, last_entry};
ghost use Rattle.ante_undo.specs.Slots.{live};

use crate::slots::{Slot, Slots};
use std::collections::btree_map::Range;
use std::ops::Bound;

// The entry with the least key that is not below the given one.
pub(crate) fn at_or_after<'a, K: Ord + Copy, V: Drop>(
    slots: &'a Slots<K, V>,
    key: &K,
) -> Option<(&'a K, &'a V)>
    ensures nearest { option_map deref_pair result ≡ entry_from K.cmp key.now (live slots.now.entries) }
    ensures ordered { IsOrdered K.cmp slots.now }
{
    first_live(slots.range((Bound::Included(*key), Bound::Unbounded)))
}

// The entry with the least key above the given one.
pub(crate) fn after<'a, K: Ord + Copy, V: Drop>(
    slots: &'a Slots<K, V>,
    key: &K,
) -> Option<(&'a K, &'a V)>
    ensures nearest { option_map deref_pair result ≡ entry_after K.cmp key.now (live slots.now.entries) }
    ensures ordered { IsOrdered K.cmp slots.now }
{
    first_live(slots.range((Bound::Excluded(*key), Bound::Unbounded)))
}

// The entry with the greatest key below the given one.
pub(crate) fn before<'a, K: Ord + Copy, V: Drop>(
    slots: &'a Slots<K, V>,
    key: &K,
) -> Option<(&'a K, &'a V)>
    ensures nearest { option_map deref_pair result ≡ entry_before K.cmp key.now (live slots.now.entries) }
    ensures ordered { IsOrdered K.cmp slots.now }
{
    last_live(slots.range((Bound::Unbounded, Bound::Excluded(*key))))
}

// The entry with the greatest key that is not above the given one.
pub(crate) fn at_or_before<'a, K: Ord + Copy, V: Drop>(
    slots: &'a Slots<K, V>,
    key: &K,
) -> Option<(&'a K, &'a V)>
    ensures nearest { option_map deref_pair result ≡ entry_up_to K.cmp key.now (live slots.now.entries) }
    ensures ordered { IsOrdered K.cmp slots.now }
{
    last_live(slots.range((Bound::Unbounded, Bound::Included(*key))))
}

// The entry with the least key.
pub(crate) fn first<K: Ord + Copy, V: Drop>(slots: &Slots<K, V>) -> Option<(&K, &V)>
    ensures first { option_map deref_pair result ≡ first_entry (live slots.now.entries) }
    ensures ordered { IsOrdered K.cmp slots.now }
{
    first_live(slots.range(..))
}

// The entry with the greatest key.
pub(crate) fn last<K: Ord + Copy, V: Drop>(slots: &Slots<K, V>) -> Option<(&K, &V)>
    ensures last { option_map deref_pair result ≡ last_entry (live slots.now.entries) }
    ensures ordered { IsOrdered K.cmp slots.now }
{
    last_live(slots.range(..))
}

fn first_live<'a, K, V>(mut slots: Range<'a, K, Slot<V>>) -> Option<(&'a K, &'a V)>
    ensures { option_map deref_pair result ≡ first_entry (live slots.entry) }
{
    while let Some((key, slot)) = slots.next() {
        if let Some(value) = &slot.value {
            return Some((key, value));
        }
    }
    None
}

fn last_live<'a, K, V>(mut slots: Range<'a, K, Slot<V>>) -> Option<(&'a K, &'a V)>
    ensures { option_map deref_pair result ≡ last_entry (live slots.entry) }
{
    while let Some((key, slot)) = slots.next_back() {
        if let Some(value) = &slot.value {
            return Some((key, value));
        }
    }
    None
}
