//! A store with an open session, and the run whose calls are made on it.
ghost use Rattle.std.specs.Prelude.{◌≡◌, ◌<◌, ◌≤◌, length, None, Some, IsTrue};
ghost use Rattle.ante_calls.specs.ActionData.{IsPacked};
ghost use Rattle.ante_calls.specs.Numbers.{intrinsic_at};
ghost use Rattle.ante_calls.specs.declared.calls.SysCall.{SysCall};
ghost use Rattle.ante_calls.specs.declared.calls.Intrinsic.TheVariants.{Sys};
ghost use Rattle.ante_types.specs.declared.context.Mode.TheVariants as mode;
ghost use Rattle.ante_wmem.specs.Limits.{most_memory_pages};

use crate::answers::{print_bytes, print_reply, print_run};
use crate::words::{Call, Line, read_line, wrong};
use ante_builtin::builtin_store;
use ante_pack::{Bytes, Name, Seq};
use ante_sessions::Sessions;
use ante_state::AccountRow;
use ante_store::{Change, Reading, Store, Tables, Writing};
use ante_sysapi::sys_call;
use ante_types::{Action, Failure, Mode, RunContext, read_trx};
use ante_wmem::{HostAnswer, HostFn, Memory};
use std::alloc::Global;
use std::io;
use std::io::ErrorKind;

#[derive(Drop)]
pub struct Trial {
    store: Store,
    packed: Vec<u8>,
    memory: Memory,
    run: RunContext,
    ghost open: { 0 < length store.under },
    ghost unshelved: { store.shelf ≡ None },
}

// The calls that aren't on tables come first.
const CALLS: u32 = 48;

const PAGES: u32 = 2;

fn no_run(alloc: Global) -> RunContext {
    RunContext {
        receiver: Name(0),
        action: Action {
            account: Name(0),
            name: Name(0),
            authorization: Seq::new(alloc),
            bytes: Bytes::new(alloc),
        },
        notified: false,
        depth: 0,
        sender: Name(0),
        slot: 0,
        mode: Mode::Reading,
        recipients: Seq::new(alloc),
        inlines: Seq::new(alloc),
        console: Bytes::new(alloc),
        return_value: Bytes::new(alloc),
    }
}

// A memory of zeros.
fn empty_memory(alloc: Global, pages: u32) -> io::Result<Memory>
    requires { pages ≤ most_memory_pages }
{
    Ok(Memory::new(alloc, pages, pages)?)
}

fn add_account(alloc: Global, store: &mut Store, name: Name) -> io::Result<()>
    requires open { 0 < length store.old.under }
    requires unshelved { store.old.shelf ≡ None }
    ensures under { store.new.under ≡ store.old.under }
    ensures shelf { store.new.shelf ≡ store.old.shelf }
{
    let row = AccountRow {
        payer: name,
        privileged: false,
        code: Bytes::new(alloc),
        abi: Bytes::new(alloc),
    };
    let mut tables = Writing(store);
    match tables.write(alloc, Change::SetAccount { name, row }) {
        Ok(()) => Ok(()),
        Err(_) => Err(io::Error::from(ErrorKind::OutOfMemory)),
    }
}

// Whether it is the number of a call that isn't on tables.
fn is_sys_call(number: u32) -> bool
    ensures { IsTrue result → (sys : SysCall) × (intrinsic_at number ≡ Some (Sys sys)) }
{
    number < CALLS
}

// Whether the bytes are a transaction.
fn is_transaction(alloc: Global, packed: &[u8]) -> bool
    ensures { IsTrue result → IsPacked packed.now }
{
    read_trx(alloc, packed).is_ok()
}

fn play_writing(
    alloc: Global,
    trial: &mut Trial,
    call: &Call,
    left: &mut u64,
) -> HostAnswer<Failure>
    requires number { (sys : SysCall) × (intrinsic_at call.now.number ≡ Some (Sys sys)) }
    requires packed { IsPacked trial.old.packed.items }
    requires mode { trial.old.run.mode ≡ mode.Writing }
{
    let Trial {
        store,
        packed,
        memory,
        run,
    } = trial;
    let mut tables = Writing(store);
    let function = HostFn(call.number);
    sys_call(
        function,
        call.args.as_slice(),
        memory,
        run,
        packed.as_slice(),
        &mut tables,
        alloc,
        left,
    )
}

fn play_reading(
    alloc: Global,
    trial: &mut Trial,
    call: &Call,
    left: &mut u64,
) -> HostAnswer<Failure>
    requires number { (sys : SysCall) × (intrinsic_at call.now.number ≡ Some (Sys sys)) }
    requires packed { IsPacked trial.old.packed.items }
    requires mode { trial.old.run.mode ≡ mode.Reading }
{
    let Trial {
        store,
        packed,
        memory,
        run,
    } = trial;
    let mut tables = Reading(store);
    let function = HostFn(call.number);
    sys_call(
        function,
        call.args.as_slice(),
        memory,
        run,
        packed.as_slice(),
        &mut tables,
        alloc,
        left,
    )
}

impl Trial {
    pub fn new(alloc: Global) -> io::Result<Trial> {
        let memory = empty_memory(alloc, PAGES)?;
        let mut store = builtin_store(alloc)?;
        store.begin(alloc)?;
        Ok(Trial {
            store,
            packed: Vec::new(alloc),
            memory,
            run: no_run(alloc),
        })
    }

    fn answer(
        &mut self,
        alloc: Global,
        call: &Call,
        left: &mut u64,
    ) -> io::Result<HostAnswer<Failure>> {
        if !is_sys_call(call.number) || !is_transaction(alloc, self.packed.as_slice()) {
            return Err(wrong());
        }
        match self.run.mode {
            Mode::Writing => Ok(play_writing(alloc, self, call, left)),
            Mode::Reading => Ok(play_reading(alloc, self, call, left)),
        }
    }

    fn play(&mut self, rt: &impl Print, alloc: Global, call: &Call) -> io::Result<()> {
        let mut left = call.left;
        let answer = self.answer(alloc, call, &mut left)?;
        print_reply(rt, &answer)?;
        print!(rt; ", {left} left")?;
        let (at, count) = call.shown;
        let shown = self.memory.read_bytes(at, count).map_err(|_| wrong())?;
        print_bytes(rt, alloc, shown)?;
        print_run(rt, &self.run)?;
        println!(rt; "")
    }

    fn begin_run(&mut self, alloc: Global, run: RunContext) -> io::Result<()> {
        self.run = run;
        self.memory = empty_memory(alloc, PAGES)?;
        Ok(())
    }

    fn put(&mut self, at: u32, bytes: &[u8]) -> io::Result<()> {
        self.memory.write_bytes(at, bytes).map_err(|_| wrong())
    }

    // Does what a line says that isn't a question.
    fn set(&mut self, alloc: Global, line: Line) -> io::Result<()> {
        match line {
            Line::Transaction(packed) => {
                self.packed = packed;
                Ok(())
            }
            Line::Account(name) => add_account(alloc, &mut self.store, name),
            Line::Run(run) => self.begin_run(alloc, run),
            Line::Put(at, bytes) => self.put(at, bytes.as_slice()),
            Line::Quota(_) | Line::Call(_) => Ok(()),
        }
    }

    /// Does what the line says, and prints it with what comes of it.
    pub fn print(&mut self, rt: &impl Print, alloc: Global, line: &str) -> io::Result<()> {
        if line.is_empty() || line.starts_with('#') {
            return println!(rt; "{line}");
        }
        print!(rt; "{line}")?;
        match read_line(alloc, line)? {
            Line::Quota(name) => println!(rt; " => {}", self.store.usage().quota(name)),
            Line::Call(call) => {
                print!(rt; " => ")?;
                self.play(rt, alloc, &call)
            }
            line => {
                self.set(alloc, line)?;
                println!(rt; "")
            }
        }
    }
}
