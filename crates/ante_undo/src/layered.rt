ghost use Rattle.std.specs.Prelude.{◌≡◌, ℕ, ◌+◌, ◌-◌, ◌^◌, ◌<◌, ◌≤◌, [], length, is_some, IsTrue};
ghost use Rattle.std.specs.Prelude.{IfSome, IsSome, IsNone, Some, None, IfOk, IfErr, OnOk, OnErr};
ghost use Rattle.std.specs.Option.{option_copied, option_map};
ghost use Rattle.std.specs.Map.Iter.{deref_pair};
ghost use Rattle.std.specs.FinMap.Entries.{find, is_sorted};
ghost use Rattle.std.specs.FinMap.{IsAntisymmetric};
ghost use Rattle.ante_undo.specs.Logs.{taken_back, IsUnnamed};
ghost use Rattle.ante_undo.specs.Entries.{changed, entry_from, entry_after, entry_before, entry_up_to, first_entry, last_entry};
ghost use Rattle.ante_undo.specs.Stack.{opened, with_top, begun, committed, under_top, IsSquashed, without_shelf, IsShelved, IsUnshelved, IsAbove, IsSound};

use crate::logs::{
    Aside, Logs, close, join_last, log_change, move_sessions, newest, replaced_at, undo_all,
    undo_log,
};
use crate::neighbours::{after, at_or_after, at_or_before, before, first, last};
use crate::slots::{Slots, set, value_of};
use std::alloc::{AllocError, Global};
use std::collections::{BTreeMap, LinkedList};
use std::marker::Model;
use std::mem::replace;

// More changes in sessions than this are refused as memory is, so that no count of them runs over.
const MOST_CHANGES: u64 = 0x7fff_ffff_ffff_ffff;

/// A map with nested sessions.
///
/// Contracts see a stack of whole maps: the top is the map as it is, and each open session has
/// under it the map that it began with. With no session open a change is made for good.
///
/// The map is an ordered map of its newest values, and each session has a log of what its changes
/// replaced. A look-up and a change take a logarithm of the entries; a session call takes what its
/// sessions changed. Only `put`, `remove` and `begin` can be refused memory, and then nothing has
/// changed. No other call takes any: values are exchanged between the map and the logs where they lie.
///
/// A key that was removed keeps its place while a session or the shelf could bring it back, and
/// leaves the map once none can. `at_or_after`, `after`, `before`, `at_or_before`, `first` and `last`
/// step over such places: these are at most as many as there are changes in the open sessions and on the shelf.
#[derive(Drop)]
pub struct Layered<K: Ord + Copy, V: Drop> {
    // A slot for each key that has a value or that a log names.
    slots: Slots<K, V>,
    // The logs of the sessions, the oldest first: of those since the shelf was made, or of all.
    logs: Logs<K, V>,
    shelf: Option<Aside<K, V>>,
    // How many changes were made in sessions. The logs have no more entries.
    changes: u64,
    revision: u64,
}

impl<K: Ord + Copy, V: Drop> Model for Layered<K, V> {
    ghost use Rattle.std.specs.Prelude.{List};
    ghost use Rattle.ante_undo.specs.Stack.{Stack};
    ghost use Rattle.ante_undo.specs.Kept.{stack_shown, IsKept};

    ghost Value = { Stack (List (K × V)) };

    ghost view = { λ s. stack_shown K.cmp s.slots.entries s.logs s.shelf s.revision };

    ghost invariant = { λ s. IsKept K.cmp s.slots.entries s.logs s.shelf s.changes s.revision };
}

// The lists and the map keep the allocator that they were made with: the parameter of a call says that it may be refused memory.
impl<K: Ord + Copy, V: Drop> Layered<K, V> {
    /// An empty map with no session, at the revision. Keys that tie are equal, as those of a derived order are.
    pub fn new(alloc: Global, revision: u64) -> Layered<K, V>
        requires small { revision < 2 ^ 63 }
        requires exact { IsAntisymmetric K.cmp }
        ensures { result ≡ opened [] revision }
    {
        Layered {
            slots: BTreeMap::new(alloc),
            logs: LinkedList::new(alloc),
            shelf: None,
            changes: 0,
            revision,
        }
    }

    /// The value at the key.
    pub fn get(&self, key: &K) -> Option<&V>
        ensures { option_copied result ≡ find K.cmp key.now self.now.top }
    {
        value_of(&self.slots, key)
    }

    /// The entry with the least key that is not below the given one.
    pub fn at_or_after(&self, key: &K) -> Option<(&K, &V)>
        ensures nearest { option_map deref_pair result ≡ entry_from K.cmp key.now self.now.top }
        ensures ordered { IsTrue (is_sorted K.cmp self.now.top) }
    {
        at_or_after(&self.slots, key)
    }

    /// The entry with the least key above the given one.
    pub fn after(&self, key: &K) -> Option<(&K, &V)>
        ensures nearest { option_map deref_pair result ≡ entry_after K.cmp key.now self.now.top }
        ensures ordered { IsTrue (is_sorted K.cmp self.now.top) }
    {
        after(&self.slots, key)
    }

    /// The entry with the greatest key below the given one.
    pub fn before(&self, key: &K) -> Option<(&K, &V)>
        ensures nearest { option_map deref_pair result ≡ entry_before K.cmp key.now self.now.top }
        ensures ordered { IsTrue (is_sorted K.cmp self.now.top) }
    {
        before(&self.slots, key)
    }

    /// The entry with the greatest key that is not above the given one.
    pub fn at_or_before(&self, key: &K) -> Option<(&K, &V)>
        ensures nearest { option_map deref_pair result ≡ entry_up_to K.cmp key.now self.now.top }
        ensures ordered { IsTrue (is_sorted K.cmp self.now.top) }
    {
        at_or_before(&self.slots, key)
    }

    /// The entry with the least key.
    pub fn first(&self) -> Option<(&K, &V)>
        ensures first { option_map deref_pair result ≡ first_entry self.now.top }
        ensures ordered { IsTrue (is_sorted K.cmp self.now.top) }
    {
        first(&self.slots)
    }

    /// The entry with the greatest key.
    pub fn last(&self) -> Option<(&K, &V)>
        ensures last { option_map deref_pair result ≡ last_entry self.now.top }
        ensures ordered { IsTrue (is_sorted K.cmp self.now.top) }
    {
        last(&self.slots)
    }

    /// Puts the value at the key, and hands it back where memory is refused.
    pub fn put(&mut self, _alloc: Global, key: K, value: V) -> Result<(), (V, AllocError)>
        requires above { IsAbove 1 self.old }
        ensures ok { OnOk result (self.new ≡ with_top (changed K.cmp self.old.top key (Some value)) self.old) }
        ensures err { OnErr result (self.new ≡ self.old) }
        ensures back { IfErr result (λ refused. refused.0 ≡ value) }
    {
        match self.change((key, Some(value))) {
            Ok(()) => Ok(()),
            Err(Some(value)) => Err((value, AllocError)),
            Err(None) => unreachable!(),
        }
    }

    /// Removes what stands at the key, and says whether there was something.
    pub fn remove(&mut self, _alloc: Global, key: &K) -> Result<bool, AllocError>
        requires above { IsAbove 1 self.old }
        ensures there { IfOk result (λ there. there ≡ is_some (find K.cmp key.now self.old.top)) }
        ensures ok { OnOk result (self.new ≡ with_top (changed K.cmp self.old.top key.now None) self.old) }
        ensures err { OnErr result (self.new ≡ self.old) }
    {
        if self.get(key).is_none() {
            return Ok(false);
        }
        match self.change((*key, None)) {
            Ok(()) => Ok(true),
            Err(_) => Err(AllocError),
        }
    }

    // Puts a value at the change's key, or removes what stands there.
    fn change(&mut self, change: (K, Option<V>)) -> Result<(), Option<V>>
        requires above { IsAbove 1 self.old }
        ensures ok { OnOk result (self.new ≡ with_top (changed K.cmp self.old.top change.0 change.1) self.old) }
        ensures err { OnErr result (self.new ≡ self.old) }
        ensures back { IfErr result (λ value. value ≡ change.1) }
    {
        if self.logs.is_empty() {
            return set(&mut self.slots, change);
        }
        if self.changes == MOST_CHANGES {
            return Err(change.1);
        }
        log_change(&mut self.slots, &mut self.logs, change)?;
        self.changes += 1;
        Ok(())
    }

    /// Begins a session, and answers its revision.
    pub fn begin(&mut self, alloc: Global) -> Result<u64, AllocError>
        requires small { self.old.revision + 1 < 2 ^ 63 }
        ensures revision { IfOk result (λ revision. revision ≡ self.old.revision + 1) }
        ensures ok { OnOk result (self.new ≡ begun self.old) }
        ensures above { OnOk result (IsAbove 1 self.new) }
        ensures err { OnErr result (self.new ≡ self.old) }
    {
        self.logs.push_back(LinkedList::new(alloc))?;
        self.revision += 1;
        Ok(self.revision)
    }

    /// Takes back all that the newest session did, and ends it.
    pub fn undo(&mut self)
        requires session { 0 < length self.old.under }
        requires above { IsAbove 1 self.old }
        ensures { self.old ≡ with_top self.old.top (begun self.new) }
    {
        let Some(newest) = self.logs.pop_back() else {
            unreachable!()
        };
        undo_log(&mut self.slots, newest);
        self.revision -= 1;
    }

    /// Makes the newest session a part of the one below it.
    pub fn squash(&mut self)
        requires sessions { 2 ≤ length self.old.under }
        requires above { IsAbove 2 self.old }
        ensures { IsSquashed self.old self.new }
    {
        let Some(newest) = self.logs.pop_back() else {
            unreachable!()
        };
        join_last(&mut self.logs, newest);
        self.revision -= 1;
    }

    /// Closes every session whose revision is at most the given one: it can no longer be taken back.
    pub fn commit(&mut self, revision: u64)
        requires no_shelf { IsNone self.old.shelf }
        ensures { self.new ≡ committed revision self.old }
    {
        let kept = self.revision.saturating_sub(revision);
        let open = self.logs.len();
        if kept < open as u64 {
            close(&mut self.slots, &mut self.logs, open - kept as usize);
        }
    }

    /// Moves the sessions above the revision to the shelf.
    pub fn shelve(&mut self, revision: u64)
        requires no_shelf { IsNone self.old.shelf }
        requires from { self.old.revision ≤ revision + length self.old.under }
        requires to { revision ≤ self.old.revision }
        ensures { IsShelved revision self.old self.new }
    {
        let count = (self.revision - revision) as usize;
        let alloc = *self.logs.allocator();
        let mut shelved = LinkedList::new(alloc);
        move_sessions(&mut self.slots, &mut self.logs, &mut shelved, count);
        let below = replace(&mut self.logs, LinkedList::new(alloc));
        self.shelf = Some(Aside { below, shelved });
        self.revision = revision;
    }

    /// Drops the sessions begun since the shelf was made, and puts those on the shelf back.
    pub fn unshelve(&mut self)
        requires shelf { IsSome self.old.shelf }
        ensures { IsUnshelved self.old self.new }
    {
        let Some(aside) = self.shelf.take() else {
            unreachable!()
        };
        let Aside { below, mut shelved } = aside;
        let since = replace(&mut self.logs, below);
        self.revision -= since.len() as u64;
        undo_all(&mut self.slots, since);
        let count = shelved.len();
        move_sessions(&mut self.slots, &mut shelved, &mut self.logs, count);
        self.revision += count as u64;
    }

    /// Forgets the sessions on the shelf.
    pub fn drop_shelf(&mut self)
        requires shelf { IsSome self.old.shelf }
        ensures { self.new ≡ without_shelf self.old }
    {
        let Some(aside) = self.shelf.take() else {
            unreachable!()
        };
        let Aside {
            mut below,
            mut shelved,
        } = aside;
        let count = shelved.len();
        close(&mut self.slots, &mut shelved, count);
        let Ok(()) = below.append(&mut self.logs) else {
            unreachable!()
        };
        self.logs = below;
    }

    /// The revision of the newest session. Where none is open, the next one to begin has the number after it.
    pub fn revision(&self) -> u64
        ensures revision { result ≡ self.now.revision }
        ensures sound { IsSound self.now }
    {
        self.revision
    }

    /// How many sessions are open.
    pub fn sessions(&self) -> u64
        ensures count { result ≡ length self.now.under }
        ensures sound { IsSound self.now }
    {
        match &self.shelf {
            Some(aside) => (aside.below.len() + self.logs.len()) as u64,
            None => self.logs.len() as u64,
        }
    }

    /// The value at the key when the newest session began. Goes through the session's log from its oldest change up to
    /// the key's first, or through all of it and then takes one look-up.
    pub fn under(&self, key: &K) -> Option<&V>
        requires session { 0 < length self.now.under }
        ensures { option_copied result ≡ find K.cmp key.now (under_top self.now) }
    {
        match replaced_at(self.replaced(), key) {
            Some(value) => value.as_ref(),
            None => self.get(key),
        }
    }

    /// What the newest session's changes replaced, each with its key, the oldest change first. A key may stand several times.
    pub fn replaced(&self) -> &LinkedList<(K, Option<V>)>
        requires session { 0 < length self.now.under }
        ensures under { taken_back K.cmp self.now.top result.now ≡ under_top self.now }
        ensures unchanged { (key : K) → IsUnnamed K.cmp key result.now → find K.cmp key self.now.top ≡ find K.cmp key (under_top self.now) }
    {
        match newest(&self.logs, &self.shelf) {
            Some(log) => log,
            None => unreachable!(),
        }
    }
}
