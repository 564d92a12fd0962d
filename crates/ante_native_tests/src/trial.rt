//! A state that native actions change.
ghost use Rattle.std.specs.Prelude.{◌≡◌, ◌<◌, length, None};
ghost use Rattle.ante_types.specs.declared.context.Mode.TheVariants as mode;

use crate::answers::{print_answer, print_judged};
use crate::words::{Line, read_line};
use ante_builtin::builtin_store;
use ante_execution::NativeFault;
use ante_native::{check_genesis, native};
use ante_sessions::Sessions;
use ante_store::{Reading, Store, Writing};
use ante_types::{Mode, RunContext};
use std::alloc::Global;
use std::io;
use std::io::ErrorKind;

/// A store with an open session.
#[derive(Drop)]
pub struct Trial {
    store: Store,
    ghost open: { 0 < length store.under },
    ghost unshelved: { store.shelf ≡ None },
}

// More sessions than any table begins.
const MOST: u64 = 1 << 62;

fn write(alloc: Global, store: &mut Store, run: &RunContext) -> Result<bool, NativeFault>
    requires mode { run.now.mode ≡ mode.Writing }
    requires open { 0 < length store.old.under }
    requires unshelved { store.old.shelf ≡ None }
    ensures under { store.new.under ≡ store.old.under }
    ensures shelf { store.new.shelf ≡ store.old.shelf }
{
    native(alloc, &mut Writing(store), run)
}

fn read(alloc: Global, store: &Store, run: &RunContext) -> Result<bool, NativeFault>
    requires mode { run.now.mode ≡ mode.Reading }
{
    native(alloc, &mut Reading(store), run)
}

fn act(alloc: Global, store: &mut Store, run: &RunContext) -> Result<bool, NativeFault>
    requires open { 0 < length store.old.under }
    requires unshelved { store.old.shelf ≡ None }
    ensures under { store.new.under ≡ store.old.under }
    ensures shelf { store.new.shelf ≡ store.old.shelf }
{
    match run.mode {
        Mode::Writing => write(alloc, store, run),
        Mode::Reading => read(alloc, store, run),
    }
}

// Takes back what a refused action did.
fn settle(store: &mut Store, refused: bool)
    requires open { 0 < length store.old.under }
    requires unshelved { store.old.shelf ≡ None }
    ensures { store.new.shelf ≡ None }
{
    if refused {
        store.undo();
    }
}

impl Trial {
    pub fn new(alloc: Global) -> io::Result<Trial> {
        Trial::with_session(alloc, builtin_store(alloc)?)
    }

    fn with_session(alloc: Global, store: Store) -> io::Result<Trial>
        requires unshelved { store.shelf ≡ None }
    {
        let mut store = store;
        if store.revision() >= MOST {
            return Err(io::Error::from(ErrorKind::OutOfMemory));
        }
        store.begin(alloc)?;
        Ok(Trial { store })
    }

    // Does the run's action, and takes back what it did where it was refused.
    fn send(self, rt: &impl Print, alloc: Global, run: &RunContext) -> io::Result<Trial> {
        let Trial { mut store } = self;
        let answer = act(alloc, &mut store, run);
        settle(&mut store, answer.is_err());
        print_answer(rt, answer)?;
        Trial::with_session(alloc, store)
    }

    /// Does what the line says, and prints it with what comes of it.
    pub fn print(self, rt: &impl Print, alloc: Global, line: &str) -> io::Result<Trial> {
        if line.is_empty() || line.starts_with('#') {
            println!(rt; "{line}")?;
            return Ok(self);
        }
        print!(rt; "{line} => ")?;
        match read_line(alloc, line)? {
            Line::State => {
                println!(rt; "done")?;
                return Trial::new(alloc);
            }
            Line::Digest => println!(rt; "{}", hex::encode(alloc, &self.store.digest())?)?,
            Line::Used(name) => println!(rt; "{}", self.store.usage().used(name))?,
            Line::Genesis(genesis) => print_judged(rt, check_genesis(alloc, &genesis))?,
            Line::Run(run) => return self.send(rt, alloc, &run),
        }
        Ok(self)
    }
}
