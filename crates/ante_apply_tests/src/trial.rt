//! A state that actions change, and the transaction and time that they see.
ghost use Rattle.std.specs.Prelude.{◌≡◌, ◌<◌, ◌≤◌, ◌+◌, length, None, IsTrue, IfOk};
ghost use Rattle.ante_calls.specs.ActionData.{IsPacked};

use crate::answers::{print_end, print_runs};
use crate::words::{Line, Play, read_line, wrong};
use ante_apply::{ApplyEnd, apply_action};
use ante_base::NeverStop;
use ante_builtin::builtin_store;
use ante_modcache::ModuleCache;
use ante_pack::{Bytes, Seq};
use ante_sessions::Sessions;
use ante_store::{Reading, Store, Writing};
use ante_types::{Action, ActionTrace, read_trx};
use std::alloc::Global;
use std::io;
use std::io::ErrorKind;

#[derive(Drop)]
pub struct Trial {
    store: Store,
    slot: u32,
    packed: Bytes,
    ghost unshelved: { store.shelf ≡ None },
}

// More sessions than any table begins.
const MOST_SESSIONS: u64 = 1 << 62;

const MOST_STEPS: u64 = 100_000_000;

// Whether the bytes are a transaction.
fn is_transaction(alloc: Global, packed: &[u8]) -> bool
    ensures { IsTrue result → IsPacked packed.now }
{
    read_trx(alloc, packed).is_ok()
}

fn write(
    alloc: Global,
    store: &mut Store,
    modules: &ModuleCache,
    slot: u32,
    packed: &Bytes,
    action: &Action,
    left: &mut u64,
    runs: &mut Seq<ActionTrace>,
) -> Result<(), ApplyEnd>
    requires small { length runs.old + left.old ≤ 100000000 }
    requires packed { IsPacked packed.now }
    requires open { 0 < length store.old.under }
    requires unshelved { store.old.shelf ≡ None }
    ensures under { store.new.under ≡ store.old.under }
    ensures shelf { store.new.shelf ≡ store.old.shelf }
{
    let mut tables = Writing(store);
    apply_action(
        alloc,
        &mut tables,
        modules,
        slot,
        packed,
        action,
        &mut NeverStop,
        left,
        runs,
    )
}

fn read(
    alloc: Global,
    store: &Store,
    modules: &ModuleCache,
    slot: u32,
    packed: &Bytes,
    action: &Action,
    left: &mut u64,
    runs: &mut Seq<ActionTrace>,
) -> Result<(), ApplyEnd>
    requires small { length runs.old + left.old ≤ 100000000 }
    requires packed { IsPacked packed.now }
{
    let mut tables = Reading(store);
    apply_action(
        alloc,
        &mut tables,
        modules,
        slot,
        packed,
        action,
        &mut NeverStop,
        left,
        runs,
    )
}

// Takes back what a failed action did.
fn settle(store: &mut Store, failed: bool)
    requires open { 0 < length store.old.under }
    requires unshelved { store.old.shelf ≡ None }
    ensures { store.new.shelf ≡ None }
{
    if failed {
        store.undo();
    }
}

// Begins the session that a failed action is taken back with.
fn begin(alloc: Global, store: &mut Store) -> io::Result<()>
    requires unshelved { store.old.shelf ≡ None }
    ensures open { IfOk result (λ done. 0 < length store.new.under) }
    ensures shelf { store.new.shelf ≡ None }
{
    if store.revision() >= MOST_SESSIONS {
        return Err(io::Error::from(ErrorKind::OutOfMemory));
    }
    store.begin(alloc)?;
    Ok(())
}

fn write_or_undo(
    alloc: Global,
    store: &mut Store,
    modules: &ModuleCache,
    slot: u32,
    packed: &Bytes,
    action: &Action,
    left: &mut u64,
    runs: &mut Seq<ActionTrace>,
) -> io::Result<Result<(), ApplyEnd>>
    requires small { length runs.old + left.old ≤ 100000000 }
    requires packed { IsPacked packed.now }
    requires unshelved { store.old.shelf ≡ None }
    ensures { store.new.shelf ≡ None }
{
    begin(alloc, store)?;
    let end = write(alloc, store, modules, slot, packed, action, left, runs);
    settle(store, end.is_err());
    Ok(end)
}

impl Trial {
    pub fn new(alloc: Global) -> io::Result<Trial> {
        Ok(Trial {
            store: builtin_store(alloc)?,
            slot: 0,
            packed: Bytes::new(alloc),
        })
    }

    fn act(
        &mut self,
        alloc: Global,
        modules: &ModuleCache,
        play: &Play,
        left: &mut u64,
        runs: &mut Seq<ActionTrace>,
    ) -> io::Result<Result<(), ApplyEnd>>
        requires small { length runs.old + left.old ≤ 100000000 }
    {
        if !is_transaction(alloc, self.packed.as_slice()) {
            return Err(wrong());
        }
        let Trial {
            store,
            slot,
            packed,
        } = self;
        match play.writes {
            true => write_or_undo(
                alloc,
                store,
                modules,
                *slot,
                packed,
                &play.action,
                left,
                runs,
            ),
            false => Ok(read(
                alloc,
                store,
                modules,
                *slot,
                packed,
                &play.action,
                left,
                runs,
            )),
        }
    }

    fn play(
        &mut self,
        rt: &impl Print,
        alloc: Global,
        modules: &ModuleCache,
        play: &Play,
    ) -> io::Result<()> {
        let mut left = play.left;
        if left > MOST_STEPS {
            return Err(wrong());
        }
        let mut runs = Seq::new(alloc);
        let end = self.act(alloc, modules, play, &mut left, &mut runs)?;
        print_end(rt, &end)?;
        println!(rt; ", {left} left")?;
        print_runs(rt, runs.as_slice())
    }

    /// Does what the line says, and prints it with what comes of it.
    pub fn print(
        &mut self,
        rt: &impl Print,
        alloc: Global,
        modules: &ModuleCache,
        line: &str,
    ) -> io::Result<()> {
        if line.is_empty() || line.starts_with('#') {
            return println!(rt; "{line}");
        }
        print!(rt; "{line} => ")?;
        match read_line(alloc, line)? {
            Line::Transaction(packed) => {
                self.packed = packed;
                println!(rt; "done")
            }
            Line::Slot(slot) => {
                self.slot = slot;
                println!(rt; "done")
            }
            Line::Digest => println!(rt; "{}", hex::encode(alloc, &self.store.digest())?),
            Line::Play(play) => self.play(rt, alloc, modules, &play),
        }
    }
}
