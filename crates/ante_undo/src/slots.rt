// The slots of a map's keys.
ghost use Rattle.std.specs.Prelude.{◌≡◌, ◌||◌, nat_lt, not, is_some, ◌+◌, ◌-◌, ◌^◌, ◌<◌, OnOk, OnErr, IfErr, Some, None};
ghost use Rattle.std.specs.Option.{option_copied};
ghost use Rattle.std.specs.BTreeMap.{IsOrdered};
ghost use Rattle.ante_undo.specs.Slots.{slot_of, value_at, mentions_at, Sets, Names, Unnames};

use std::alloc::AllocError;
use std::collections::BTreeMap;
use std::collections::btree_map::Entry;
use std::mem::swap;

// What the map knows of a key.
#[derive(Drop)]
pub(crate) struct Slot<V> {
    pub(crate) value: Option<V>,
    // How many entries of the logs name the key.
    pub(crate) mentions: u64,
}

impl<V> Slot<V> {
    // Exchanges the value for the other, and counts one mention more.
    fn enter(&mut self, value: &mut Option<V>)
        requires room { self.old.mentions < 2 ^ 63 }
        ensures slot { Some self.new ≡ slot_of value.old (self.old.mentions + 1) }
        ensures value { value.new ≡ self.old.value }
    {
        swap(&mut self.value, value);
        self.mentions += 1;
    }

    // Counts one mention less, and says whether nothing is left.
    fn leave(&mut self) -> bool
        requires named { 0 < self.old.mentions }
        ensures slot { self.new ≡ record { value = self.old.value; mentions = self.old.mentions - 1 } }
        ensures spent { result ≡ not (is_some self.new.value || nat_lt 0 self.new.mentions) }
    {
        self.mentions -= 1;
        self.value.is_none() && self.mentions == 0
    }
}

pub(crate) type Slots<K, V> = BTreeMap<K, Slot<V>>;

// A key, and the value that is to stand there, or none.
pub(crate) type Change<K, V> = (K, Option<V>);

// Exchanges the value at the change's key for that of the change, and counts one mention more.
pub(crate) fn enter<K: Ord + Copy, V: Drop>(
    slots: &mut Slots<K, V>,
    change: &mut Change<K, V>,
) -> Result<(), AllocError>
    requires room { mentions_at K.cmp change.old.0 slots.old.entries < 2 ^ 63 }
    ensures slots { OnOk result (Names K.cmp change.old.0 change.old.1 slots.old.entries slots.new.entries) }
    ensures change { OnOk result (change.new ≡ (change.old.0, value_at K.cmp change.old.0 slots.old.entries)) }
    ensures err { OnErr result (slots.new.entries ≡ slots.old.entries) }
    ensures kept { OnErr result (change.new ≡ change.old) }
    ensures ordered { IsOrdered K.cmp slots.new }
{
    if let Some(slot) = slots.get_mut(&change.0) {
        slot.enter(&mut change.1);
        return Ok(());
    }
    let fresh = Slot {
        value: change.1.take(),
        mentions: 1,
    };
    match slots.insert(change.0, fresh) {
        Ok(_) => Ok(()),
        Err(refused) => {
            change.1 = refused.value.1.value;
            Err(AllocError)
        }
    }
}

// Exchanges the value at the change's key for that of the change.
pub(crate) fn exchange<K: Ord + Copy, V: Drop>(slots: &mut Slots<K, V>, change: &mut Change<K, V>)
    requires named { 0 < mentions_at K.cmp change.old.0 slots.old.entries }
    ensures slots { Sets K.cmp change.old.0 change.old.1 (mentions_at K.cmp change.old.0 slots.old.entries) slots.old.entries slots.new.entries }
    ensures change { change.new ≡ (change.old.0, value_at K.cmp change.old.0 slots.old.entries) }
    ensures ordered { IsOrdered K.cmp slots.new }
{
    let Some(slot) = slots.get_mut(&change.0) else {
        unreachable!()
    };
    swap(&mut slot.value, &mut change.1);
}

// Counts one mention less. A slot with no value that nothing names is let go.
pub(crate) fn forget<K: Ord + Copy, V: Drop>(slots: &mut Slots<K, V>, key: K)
    requires named { 0 < mentions_at K.cmp key slots.old.entries }
    ensures slots { Unnames K.cmp key (value_at K.cmp key slots.old.entries) slots.old.entries slots.new.entries }
    ensures ordered { IsOrdered K.cmp slots.new }
{
    let Ok(Entry::Occupied(mut entry)) = slots.entry(key) else {
        unreachable!()
    };
    if entry.get_mut().leave() {
        entry.remove();
    }
}

// Sets the change's value, and counts one mention less. A slot with no value that nothing names is let go.
pub(crate) fn take_back<K: Ord + Copy, V: Drop>(slots: &mut Slots<K, V>, change: Change<K, V>)
    requires named { 0 < mentions_at K.cmp change.0 slots.old.entries }
    ensures slots { Unnames K.cmp change.0 change.1 slots.old.entries slots.new.entries }
    ensures ordered { IsOrdered K.cmp slots.new }
{
    let Ok(Entry::Occupied(mut entry)) = slots.entry(change.0) else {
        unreachable!()
    };
    let slot = entry.get_mut();
    slot.value = change.1;
    if slot.leave() {
        entry.remove();
    }
}

// Sets the value at a key that no log names, or takes it away. Where memory is refused the value comes back.
pub(crate) fn set<K: Ord + Copy, V: Drop>(
    slots: &mut Slots<K, V>,
    change: Change<K, V>,
) -> Result<(), Option<V>>
    ensures slots { OnOk result (Sets K.cmp change.0 change.1 0 slots.old.entries slots.new.entries) }
    ensures err { OnErr result (slots.new.entries ≡ slots.old.entries) }
    ensures back { IfErr result (λ value. value ≡ change.1) }
    ensures ordered { IsOrdered K.cmp slots.new }
{
    let (key, value) = change;
    match value {
        Some(value) => put(slots, key, value),
        None => {
            slots.remove(&key);
            Ok(())
        }
    }
}

fn put<K: Ord + Copy, V: Drop>(slots: &mut Slots<K, V>, key: K, value: V) -> Result<(), Option<V>>
    ensures slots { OnOk result (Sets K.cmp key (Some value) 0 slots.old.entries slots.new.entries) }
    ensures err { OnErr result (slots.new.entries ≡ slots.old.entries) }
    ensures back { IfErr result (λ refused. refused ≡ Some value) }
    ensures ordered { IsOrdered K.cmp slots.new }
{
    let slot = Slot {
        value: Some(value),
        mentions: 0,
    };
    match slots.insert(key, slot) {
        Ok(_) => Ok(()),
        Err(refused) => Err(refused.value.1.value),
    }
}

// The value at the key.
pub(crate) fn value_of<'a, K: Ord + Copy, V: Drop>(slots: &'a Slots<K, V>, key: &K) -> Option<&'a V>
    ensures { option_copied result ≡ value_at K.cmp key.now slots.now.entries }
{
    match slots.get(key) {
        Some(slot) => slot.value.as_ref(),
        None => None,
    }
}
