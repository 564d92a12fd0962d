// The logs of sessions. An entry is a key with the value that stands there once the entry is taken back. Logs and their entries
// are moved from list to list by their nodes, which takes no memory.
ghost use Rattle.std.specs.Prelude.{◌≡◌, ℕ, ◌+◌, ◌^◌, ◌<◌, ◌≤◌, [], ◌∷◌, ◌++◌, List, length, drop};
ghost use Rattle.std.specs.Prelude.{Option, Some, None, IfSome, IfNone, OnOk, OnErr, IfErr};
ghost use Rattle.std.specs.Option.{option_map_or};
ghost use Rattle.std.specs.FinMap.Entries.{find};
ghost use Rattle.ante_undo.specs.Kept.{below_of};
ghost use Rattle.std.specs.FinMap.{IsAntisymmetric};
ghost use Rattle.std.specs.BTreeMap.{IsOrdered};
ghost use Rattle.ante_undo.specs.Slots.{live, value_at, mentions_at, Names};
ghost use Rattle.ante_undo.specs.Logs.{total, named_in, named_in_all, taken_back, taken_back_all};
ghost use Rattle.ante_undo.specs.Logs.{CutsLast, AddsEntry, AddsLog, IsMoved, IsTurned, AreMoved, Releases};

use crate::slots::{Change, Slots, enter, exchange, forget, take_back};
use std::collections::LinkedList;

// The entries of a session, the oldest first. On the shelf the newest comes first.
pub(crate) type Log<K, V> = LinkedList<Change<K, V>>;

// The logs of sessions, the oldest first. On the shelf the newest comes first.
pub(crate) type Logs<K, V> = LinkedList<Log<K, V>>;

// What a map has aside while a shelf is out.
#[derive(Drop)]
pub(crate) struct Aside<K, V> {
    // The logs of the sessions that the shelf lies on.
    pub(crate) below: Logs<K, V>,
    // The logs on the shelf. Each brings back what taking its session back took.
    pub(crate) shelved: Logs<K, V>,
}

// The last element, as a list of its own.
fn cut_last<T: Drop>(list: &mut LinkedList<T>) -> LinkedList<T>
    requires some { 0 < length list.old }
    ensures { CutsLast list.old list.new result }
{
    let rest = list.len() - 1;
    match list.split_off(rest) {
        Ok(last) => last,
        Err(_) => unreachable!(),
    }
}

// Takes the last entry back, and moves it to the other log.
fn move_entry<K: Ord + Copy, V: Drop>(
    slots: &mut Slots<K, V>,
    from: &mut Log<K, V>,
    to: &mut Log<K, V>,
)
    requires exact { IsAntisymmetric K.cmp }
    requires ordered { IsOrdered K.cmp slots.old }
    requires some { 0 < length from.old }
    requires named { (q : K) → named_in K.cmp q from.old ≤ mentions_at K.cmp q slots.old.entries }
    requires room { length from.old + length to.old < 2 ^ 63 }
    ensures moved { IsMoved K.cmp slots.old.entries from.old to.old slots.new.entries from.new to.new }
    ensures length { length from.new + 1 ≡ length from.old }
    ensures ordered { IsOrdered K.cmp slots.new }
{
    let mut last = cut_last(from);
    let Some(change) = last.back_mut() else {
        unreachable!()
    };
    exchange(slots, change);
    let Ok(()) = to.append(&mut last) else {
        unreachable!()
    };
}

// Takes a log back, the last entry first. What it held is in the map then, and what the map held is in the log.
pub(crate) fn turn<K: Ord + Copy, V: Drop>(slots: &mut Slots<K, V>, log: &mut Log<K, V>)
    requires exact { IsAntisymmetric K.cmp }
    requires ordered { IsOrdered K.cmp slots.old }
    requires named { (q : K) → named_in K.cmp q log.old ≤ mentions_at K.cmp q slots.old.entries }
    ensures turned { IsTurned K.cmp slots.old.entries log.old slots.new.entries log.new }
    ensures ordered { IsOrdered K.cmp slots.new }
{
    let mut turned = LinkedList::new(*log.allocator());
    for _ in 0..log.len() {
        move_entry(slots, log, &mut turned);
    }
    *log = turned;
}

// Counts the entries of a log out.
pub(crate) fn release<K: Ord + Copy, V: Drop>(slots: &mut Slots<K, V>, mut log: Log<K, V>)
    requires exact { IsAntisymmetric K.cmp }
    requires ordered { IsOrdered K.cmp slots.old }
    requires named { (q : K) → named_in K.cmp q log ≤ mentions_at K.cmp q slots.old.entries }
    ensures map { live slots.new.entries ≡ live slots.old.entries }
    ensures released { Releases K.cmp slots.old.entries slots.new.entries (λ q. named_in K.cmp q log) (λ q. 0) }
    ensures ordered { IsOrdered K.cmp slots.new }
{
    while let Some(change) = log.pop_front() {
        forget(slots, change.0);
    }
}

// Takes a log back for good.
pub(crate) fn undo_log<K: Ord + Copy, V: Drop>(slots: &mut Slots<K, V>, mut log: Log<K, V>)
    requires exact { IsAntisymmetric K.cmp }
    requires ordered { IsOrdered K.cmp slots.old }
    requires named { (q : K) → named_in K.cmp q log ≤ mentions_at K.cmp q slots.old.entries }
    ensures map { live slots.new.entries ≡ taken_back K.cmp (live slots.old.entries) log }
    ensures released { Releases K.cmp slots.old.entries slots.new.entries (λ q. named_in K.cmp q log) (λ q. 0) }
    ensures ordered { IsOrdered K.cmp slots.new }
{
    while let Some(change) = log.pop_back() {
        take_back(slots, change);
    }
}

// Takes several logs back for good, the last one first.
pub(crate) fn undo_all<K: Ord + Copy, V: Drop>(slots: &mut Slots<K, V>, mut logs: Logs<K, V>)
    requires exact { IsAntisymmetric K.cmp }
    requires ordered { IsOrdered K.cmp slots.old }
    requires named { (q : K) → named_in_all K.cmp q logs ≤ mentions_at K.cmp q slots.old.entries }
    ensures map { live slots.new.entries ≡ taken_back_all K.cmp (live slots.old.entries) logs }
    ensures released { Releases K.cmp slots.old.entries slots.new.entries (λ q. named_in_all K.cmp q logs) (λ q. 0) }
    ensures ordered { IsOrdered K.cmp slots.new }
{
    while let Some(log) = logs.pop_back() {
        undo_log(slots, log);
    }
}

// Takes the first of the logs out, and counts their entries out.
pub(crate) fn close<K: Ord + Copy, V: Drop>(
    slots: &mut Slots<K, V>,
    logs: &mut Logs<K, V>,
    count: usize,
)
    requires exact { IsAntisymmetric K.cmp }
    requires ordered { IsOrdered K.cmp slots.old }
    requires within { count ≤ length logs.old }
    requires named { (q : K) → named_in_all K.cmp q logs.old ≤ mentions_at K.cmp q slots.old.entries }
    ensures logs { logs.new ≡ drop count logs.old }
    ensures map { live slots.new.entries ≡ live slots.old.entries }
    ensures released { Releases K.cmp slots.old.entries slots.new.entries (λ q. named_in_all K.cmp q logs.old) (λ q. named_in_all K.cmp q logs.new) }
    ensures ordered { IsOrdered K.cmp slots.new }
{
    for _ in 0..count {
        let Some(log) = logs.pop_front() else {
            unreachable!()
        };
        release(slots, log);
    }
}

// Takes the last session back, and moves it to the other list.
fn move_session<K: Ord + Copy, V: Drop>(
    slots: &mut Slots<K, V>,
    from: &mut Logs<K, V>,
    to: &mut Logs<K, V>,
)
    requires exact { IsAntisymmetric K.cmp }
    requires ordered { IsOrdered K.cmp slots.old }
    requires some { 0 < length from.old }
    requires named { (q : K) → named_in_all K.cmp q from.old ≤ mentions_at K.cmp q slots.old.entries }
    requires room { length from.old + length to.old < 2 ^ 63 }
    ensures moved { AreMoved K.cmp slots.old.entries from.old to.old slots.new.entries from.new to.new }
    ensures length { length from.new + 1 ≡ length from.old }
    ensures ordered { IsOrdered K.cmp slots.new }
{
    let mut last = cut_last(from);
    let Some(log) = last.back_mut() else {
        unreachable!()
    };
    turn(slots, log);
    let Ok(()) = to.append(&mut last) else {
        unreachable!()
    };
}

// Takes the last sessions back, the newest first, and moves them to the other list.
pub(crate) fn move_sessions<K: Ord + Copy, V: Drop>(
    slots: &mut Slots<K, V>,
    from: &mut Logs<K, V>,
    to: &mut Logs<K, V>,
    count: usize,
)
    requires exact { IsAntisymmetric K.cmp }
    requires ordered { IsOrdered K.cmp slots.old }
    requires within { count ≤ length from.old }
    requires named { (q : K) → named_in_all K.cmp q from.old + named_in_all K.cmp q to.old ≤ mentions_at K.cmp q slots.old.entries }
    requires room { length from.old + length to.old < 2 ^ 63 }
    ensures moved { AreMoved K.cmp slots.old.entries from.old to.old slots.new.entries from.new to.new }
    ensures length { length from.new + count ≡ length from.old }
    ensures ordered { IsOrdered K.cmp slots.new }
{
    for _ in 0..count {
        move_session(slots, from, to);
    }
}

// Makes a change in the newest session. Where memory is refused its value comes back.
pub(crate) fn log_change<K: Ord + Copy, V: Drop>(
    slots: &mut Slots<K, V>,
    logs: &mut Logs<K, V>,
    change: Change<K, V>,
) -> Result<(), Option<V>>
    requires some { 0 < length logs.old }
    requires room { mentions_at K.cmp change.0 slots.old.entries < 2 ^ 63 }
    ensures logs { OnOk result (AddsEntry (change.0, value_at K.cmp change.0 slots.old.entries) logs.old logs.new) }
    ensures slots { OnOk result (Names K.cmp change.0 change.1 slots.old.entries slots.new.entries) }
    ensures err { OnErr result (slots.new.entries ≡ slots.old.entries) }
    ensures kept { OnErr result (logs.new ≡ logs.old) }
    ensures back { IfErr result (λ value. value ≡ change.1) }
    ensures ordered { IsOrdered K.cmp slots.old → IsOrdered K.cmp slots.new }
{
    let Some(newest) = logs.back_mut() else {
        unreachable!()
    };
    add_entry(slots, newest, change)
}

// Makes a change, and puts what it replaced at the end of the log.
fn add_entry<K: Ord + Copy, V: Drop>(
    slots: &mut Slots<K, V>,
    log: &mut Log<K, V>,
    change: Change<K, V>,
) -> Result<(), Option<V>>
    requires room { mentions_at K.cmp change.0 slots.old.entries < 2 ^ 63 }
    ensures log { OnOk result (log.new ≡ log.old ++ (change.0, value_at K.cmp change.0 slots.old.entries) ∷ []) }
    ensures slots { OnOk result (Names K.cmp change.0 change.1 slots.old.entries slots.new.entries) }
    ensures err { OnErr result (slots.new.entries ≡ slots.old.entries) }
    ensures kept { OnErr result (log.new ≡ log.old) }
    ensures back { IfErr result (λ value. value ≡ change.1) }
    ensures ordered { IsOrdered K.cmp slots.old → IsOrdered K.cmp slots.new }
{
    if let Err(refused) = log.push_back(change) {
        return Err(refused.value.1);
    }
    let Some(entry) = log.back_mut() else {
        unreachable!()
    };
    if let Err(_) = enter(slots, entry) {
        let Some(change) = log.pop_back() else {
            unreachable!()
        };
        return Err(change.1);
    }
    Ok(())
}

// Joins a log to the last of the logs, which it comes after.
pub(crate) fn join_last<K: Ord + Copy, V: Drop>(logs: &mut Logs<K, V>, mut log: Log<K, V>)
    requires some { 0 < length logs.old }
    requires room { total logs.old + length log < 2 ^ 63 }
    ensures { AddsLog log logs.old logs.new }
{
    let Some(last) = logs.back_mut() else {
        unreachable!()
    };
    let Ok(()) = last.append(&mut log) else {
        unreachable!()
    };
}

// The log of the newest session.
pub(crate) fn newest<'a, K: Ord + Copy, V: Drop>(
    logs: &'a Logs<K, V>,
    aside: &'a Option<Aside<K, V>>,
) -> Option<&'a Log<K, V>>
    ensures some { IfSome result (λ log. (front : List (List (K × Option V))) × (below_of aside.now ++ logs.now ≡ front ++ log.now ∷ [])) }
    ensures none { IfNone result (below_of aside.now ++ logs.now ≡ []) }
{
    match logs.back() {
        Some(log) => Some(log),
        None => match aside {
            Some(aside) => aside.below.back(),
            None => None,
        },
    }
}

// What the log's first entry at the key has.
pub(crate) fn replaced_at<'a, K: Ord + Copy, V: Drop>(
    log: &'a Log<K, V>,
    key: &K,
) -> Option<&'a Option<V>>
    ensures { (m : List (K × V)) → find K.cmp key.now (taken_back K.cmp m log.now) ≡ option_map_or (λ v. v.now) result (find K.cmp key.now m) }
{
    let mut entries = log.iter();
    while let Some(entry) = entries.next() {
        if key.cmp(&entry.0).is_eq() {
            return Some(&entry.1);
        }
    }
    None
}
