// Scripts of calls, with the stack that each leaves written out by hand.
ghost use Rattle.std.specs.Prelude.{◌≡◌, ◌≤◌, ◌+◌, ◌<◌, ◌^◌, IsTrue, IsNone, length};
ghost use Rattle.std.specs.Option.{option_map};
ghost use Rattle.ante_undo.specs.Stack.{IsAbove};

use crate::layered::Layered;
use std::alloc::{AllocError, Global};
use std::process::Abort;

// One call, with what it is to answer.
#[derive(Clone, Copy, Debug)]
enum Step {
    Put(u64, u64),
    Remove(u64, bool),
    Begin(u64),
    Undo,
    Squash,
    Commit(u64),
    Shelve(u64),
    Unshelve,
    DropShelf,
}

// A map, with the revision of its shelf while one is out.
#[derive(Drop)]
struct Trial {
    map: Layered<u64, u64>,
    shelf: Option<u64>,
    ghost tied: { option_map (λ s. s.revision) map.shelf ≡ shelf },
}

impl Trial {
    fn new(alloc: Global, revision: u64) -> Trial
        requires { revision < 2 ^ 63 }
    {
        Trial {
            map: Layered::new(alloc, revision),
            shelf: None,
        }
    }

    // Whether so many sessions have begun since the shelf was made.
    fn is_above(&self, sessions: u64) -> bool
        ensures { IsTrue result → IsAbove sessions self.now.map }
    {
        let revision = self.map.revision();
        match self.shelf {
            Some(shelf) => shelf <= revision && sessions <= revision - shelf,
            None => true,
        }
    }

    // Makes the call, and says whether its conditions held and it answered what it is to answer.
    fn call(&mut self, alloc: Global, step: Step) -> Result<bool, AllocError> {
        match step {
            Step::Put(key, value) => self.put(alloc, key, value),
            Step::Remove(key, there) => Ok(self.remove(alloc, key)? == Some(there)),
            Step::Begin(revision) => Ok(self.begin(alloc)? == Some(revision)),
            Step::Undo => Ok(self.undo()),
            Step::Squash => Ok(self.squash()),
            Step::Commit(revision) => Ok(self.commit(revision)),
            Step::Shelve(revision) => Ok(self.shelve(revision)),
            Step::Unshelve => Ok(self.unshelve()),
            Step::DropShelf => Ok(self.drop_shelf()),
        }
    }

    fn put(&mut self, alloc: Global, key: u64, value: u64) -> Result<bool, AllocError> {
        if !self.is_above(1) {
            return Ok(false);
        }
        match self.map.put(alloc, key, value) {
            Ok(()) => Ok(true),
            Err(refused) => Err(refused.1),
        }
    }

    fn remove(&mut self, alloc: Global, key: u64) -> Result<Option<bool>, AllocError> {
        if !self.is_above(1) {
            return Ok(None);
        }
        match self.map.remove(alloc, &key) {
            Ok(there) => Ok(Some(there)),
            Err(refused) => Err(refused),
        }
    }

    fn begin(&mut self, alloc: Global) -> Result<Option<u64>, AllocError> {
        if self.map.revision() >= 10_000 {
            return Ok(None);
        }
        match self.map.begin(alloc) {
            Ok(revision) => Ok(Some(revision)),
            Err(refused) => Err(refused),
        }
    }

    fn undo(&mut self) -> bool {
        if self.map.sessions() > 0 && self.is_above(1) {
            self.map.undo();
            true
        } else {
            false
        }
    }

    fn squash(&mut self) -> bool {
        if self.map.sessions() > 1 && self.is_above(2) {
            self.map.squash();
            true
        } else {
            false
        }
    }

    fn commit(&mut self, revision: u64) -> bool {
        if self.shelf.is_none() {
            self.map.commit(revision);
            true
        } else {
            false
        }
    }

    fn shelve(&mut self, revision: u64) -> bool {
        let now = self.map.revision();
        if self.shelf.is_none() && revision <= now && now - revision <= self.map.sessions() {
            self.map.shelve(revision);
            self.shelf = Some(revision);
            true
        } else {
            false
        }
    }

    fn unshelve(&mut self) -> bool {
        if self.shelf.is_some() {
            self.map.unshelve();
            self.shelf = None;
            true
        } else {
            false
        }
    }

    fn drop_shelf(&mut self) -> bool {
        if self.shelf.is_some() {
            self.map.drop_shelf();
            self.shelf = None;
            true
        } else {
            false
        }
    }
}

// The entries of the map in order, or a dash.
fn write_map(map: &Layered<u64, u64>, text: &mut String) -> Result<(), AllocError> {
    let mut next = map.at_or_after(&0);
    if next.is_none() {
        text.push_str("-")?;
    }
    for place in 0..100 {
        let Some((key, value)) = next else { break };
        if place > 0 {
            text.push_str(" ")?;
        }
        write!(text, "{key}={value}")?;
        next = map.after(key);
    }
    Ok(())
}

// All maps of the stack, the top first. Each is written as it stands, and its session is taken back.
fn write_stack(trial: &mut Trial, text: &mut String) -> Result<(), AllocError> {
    write_map(&trial.map, text)?;
    for _ in 0..100 {
        if !trial.undo() {
            break;
        }
        text.push_str(" | ")?;
        write_map(&trial.map, text)?;
    }
    Ok(())
}

// Makes the calls on an empty map of revision 5, each of which may be made and answers as it is to, and compares what stands then.
fn check(
    rt: &impl Abort,
    alloc: Global,
    steps: &[Step],
    revision: u64,
    stack: &str,
) -> Result<(), AllocError> {
    let mut trial = Trial::new(alloc, 5);
    for step in steps {
        assert!(rt; trial.call(alloc, *step)?, "{step:?} before {stack}");
    }
    assert_eq!(rt; trial.map.revision(), revision, "before {stack}");
    let mut text = String::new(alloc);
    write_stack(&mut trial, &mut text)?;
    assert_eq!(rt; text.as_str(), stack);
    Ok(())
}

#[test]
fn a_script_leaves_the_stack_written_beside_it(rt: HostRuntime) -> Result<(), AllocError> {
    use Step::*;
    let alloc = rt.alloc();

    // Nested sessions that put, overwrite and remove one key.
    check(
        &rt,
        alloc,
        &[
            Put(1, 10),
            Begin(6),
            Put(1, 11),
            Begin(7),
            Remove(1, true),
            Remove(1, false),
            Begin(8),
            Put(1, 12),
            Put(2, 20),
        ],
        8,
        "1=12 2=20 | - | 1=11 | 1=10",
    )?;
    check(
        &rt,
        alloc,
        &[
            Put(1, 10),
            Begin(6),
            Put(1, 11),
            Begin(7),
            Remove(1, true),
            Begin(8),
            Put(1, 12),
            Undo,
        ],
        7,
        "- | 1=11 | 1=10",
    )?;
    check(
        &rt,
        alloc,
        &[
            Put(1, 10),
            Begin(6),
            Put(1, 11),
            Begin(7),
            Remove(1, true),
            Begin(8),
            Put(1, 12),
            Squash,
        ],
        7,
        "1=12 | 1=11 | 1=10",
    )?;

    // New sessions over a shelf, and the shelf back.
    check(
        &rt,
        alloc,
        &[
            Put(1, 10),
            Begin(6),
            Put(1, 11),
            Begin(7),
            Put(2, 20),
            Shelve(5),
            Begin(6),
            Put(3, 30),
            Begin(7),
            Remove(1, true),
            Unshelve,
        ],
        7,
        "1=11 2=20 | 1=11 | 1=10",
    )?;
    check(
        &rt,
        alloc,
        &[
            Put(1, 10),
            Begin(6),
            Put(1, 11),
            Shelve(6),
            Begin(7),
            Put(1, 12),
            Begin(8),
            Put(2, 20),
            Squash,
            Undo,
            Unshelve,
        ],
        6,
        "1=11 | 1=10",
    )?;
    check(
        &rt,
        alloc,
        &[
            Put(1, 10),
            Begin(6),
            Put(1, 11),
            Begin(7),
            Put(2, 20),
            Shelve(6),
            Begin(7),
            Put(1, 13),
            DropShelf,
        ],
        7,
        "1=13 | 1=11 | 1=10",
    )?;

    // A key put, removed, shelved, put anew and unshelved.
    check(
        &rt,
        alloc,
        &[
            Begin(6),
            Put(1, 10),
            Remove(1, true),
            Shelve(5),
            Begin(6),
            Put(1, 15),
            Unshelve,
        ],
        6,
        "- | -",
    )?;

    // Commit, down to none.
    check(
        &rt,
        alloc,
        &[
            Put(1, 10),
            Begin(6),
            Put(1, 11),
            Begin(7),
            Put(1, 12),
            Commit(6),
        ],
        7,
        "1=12 | 1=11",
    )?;
    check(
        &rt,
        alloc,
        &[
            Put(1, 10),
            Begin(6),
            Put(1, 11),
            Begin(7),
            Put(1, 12),
            Commit(7),
            Put(2, 20),
        ],
        7,
        "1=12 2=20",
    )?;
    check(
        &rt,
        alloc,
        &[
            Put(1, 10),
            Begin(6),
            Put(1, 11),
            Commit(5),
            Begin(7),
            Commit(9),
            Begin(8),
            Remove(1, true),
            Undo,
        ],
        7,
        "1=11",
    )?;
    Ok(())
}

#[test]
fn the_neighbours_pass_over_removed_keys(rt: HostRuntime) -> Result<(), AllocError> {
    use Step::*;
    let mut trial = Trial::new(rt.alloc(), 5);
    for step in [
        Put(10, 1),
        Put(30, 3),
        Put(50, 5),
        Begin(6),
        Remove(30, true),
        Put(20, 2),
        Put(50, 6),
    ] {
        assert!(rt; trial.call(rt.alloc(), step)?, "{step:?}");
    }
    // A key, and its value, the keys at or after it, after it, before it, and at or before it.
    let rows = [
        (0, None, Some(10), Some(10), None, None),
        (10, Some(1), Some(10), Some(20), None, Some(10)),
        (15, None, Some(20), Some(20), Some(10), Some(10)),
        (20, Some(2), Some(20), Some(50), Some(10), Some(20)),
        (30, None, Some(50), Some(50), Some(20), Some(20)),
        (50, Some(6), Some(50), None, Some(20), Some(50)),
        (60, None, None, None, Some(50), Some(50)),
    ];
    for (key, value, at_or_after, after, before, at_or_before) in rows {
        let map = &trial.map;
        assert_eq!(rt; map.get(&key).copied(), value, "at {key}");
        assert_eq!(rt;
            map.at_or_after(&key).map(|entry| *entry.0),
            at_or_after,
            "from {key}"
        );
        assert_eq!(rt; map.after(&key).map(|entry| *entry.0), after, "after {key}");
        assert_eq!(rt;
            map.before(&key).map(|entry| *entry.0),
            before,
            "before {key}"
        );
        assert_eq!(rt;
            map.at_or_before(&key).map(|entry| *entry.0),
            at_or_before,
            "up to {key}"
        );
    }
    assert_eq!(rt; trial.map.first().map(|entry| *entry.0), Some(10));
    assert_eq!(rt; trial.map.last().map(|entry| *entry.0), Some(50));
    assert!(rt; trial.map.sessions() > 0);
    assert_eq!(rt; trial.map.replaced().len(), 3);
    assert_eq!(rt; trial.map.under(&30).copied(), Some(3));
    assert_eq!(rt; trial.map.under(&20).copied(), None);
    assert_eq!(rt; trial.map.under(&50).copied(), Some(5));
    Ok(())
}

// A number that all entries in their order go into.
fn mixed(map: &Layered<u64, u64>) -> u64 {
    let mut sum = 0u64;
    let mut next = map.first();
    for _ in 0..20_000 {
        let Some((key, value)) = next else { break };
        sum = sum.wrapping_mul(31).wrapping_add(*key).rotate_left(7) ^ *value;
        next = map.after(key);
    }
    sum
}

#[test]
fn as_many_sessions_are_taken_back_as_were_begun(rt: HostRuntime) -> Result<(), AllocError> {
    let alloc = rt.alloc();
    let mut trial = Trial::new(alloc, 5);
    for key in 0..10_000 {
        assert!(rt; trial.put(alloc, key, key ^ 85)?);
    }
    let before = mixed(&trial.map);
    for session in 0..2_000u64 {
        assert_eq!(rt; trial.begin(alloc)?, Some(session + 6));
        let key = session.wrapping_mul(7_919) % 11_000;
        if session % 3 == 0 {
            trial.remove(alloc, key)?;
        } else {
            trial.put(alloc, key, session)?;
        }
    }
    assert_ne!(rt; mixed(&trial.map), before);
    for _ in 0..2_000 {
        assert!(rt; trial.undo());
    }
    assert_eq!(rt; trial.map.sessions(), 0);
    assert_eq!(rt; mixed(&trial.map), before);
    Ok(())
}
