//! A host that notes its calls and does what it is told for each.
ghost use Rattle.std.specs.Prelude.{◌≡◌, ◌∷◌, [], ◌++◌, drop, if◌then◌else◌, Some, None, OnOk};
ghost use Rattle.std.proofs.Common.{arith};
ghost use Rattle.ante_wrun_tests.specs.Plays.{silent, next, noted, given, ended, shown, number_at, with_number, played, outcome, Answers};
ghost use Rattle.ante_wmem.specs.Keeping.{always_kept};
ghost use Rattle.ante_wrun_tests.specs.declared.player.Note.TheVariants as note;
ghost use Rattle.ante_wtree.specs.Intrinsics.{type_at};

use ante_pack::Seq;
use ante_stack::Stack;
use ante_wmem::{Memory, Width};
use ante_wrun::{Host, HostAnswer, HostFn};
use ante_wtree::{ValueKind, host_type};
use std::alloc::{AllocError, Global};

/// How a call ends.
#[derive(Clone, Copy, PartialEq, Eq, Debug)]
pub enum Answer {
    /// By this number, cut to the result's width, where the function has one.
    Give(u64),
    Exit,
    Refuse(u32),
    Limit,
}

/// What the host does at a call, in this order. Where the steps don't suffice, it answers so; where an address lies outside
/// of the memory, it refuses the call by 0.
#[derive(Clone, Copy, PartialEq, Eq, Debug)]
pub struct Play {
    /// The steps that it takes.
    pub pays: u64,
    /// An address, and a number that it writes there.
    pub puts: Option<(u32, u64)>,
    /// An address from which it notes a number.
    pub shows: Option<u32>,
    pub answer: Answer,
}

impl Play {
    pub fn silent() -> Play
        ensures { result ≡ silent }
    {
        Play {
            pays: 0,
            puts: None,
            shows: None,
            answer: Answer::Give(0),
        }
    }
}

#[derive(Drop)]
pub enum Note {
    Call(u32, Seq<u64>),
    Shown(u64),
}

#[derive(Drop)]
pub struct Player {
    pub plays: Stack<Play>,
    pub notes: Seq<Note>,
    alloc: Global,
}

impl Player {
    pub fn new(alloc: Global, plays: Stack<Play>) -> Player {
        Player {
            plays,
            notes: Seq::new(alloc),
            alloc,
        }
    }

    fn note_call(&mut self, number: u32, args: &[u64]) -> Result<(), AllocError>
        ensures { OnOk result (self.new ≡ noted self.old (note.Call number args.now)) }
    {
        let args = Seq::from_vec(Vec::from_slice(self.alloc, args)?);
        self.notes.push(self.alloc, Note::Call(number, args))
    }

    fn note_shown(&mut self, value: u64) -> Result<(), AllocError>
        ensures { OnOk result (self.new ≡ noted self.old (note.Shown value)) }
    {
        self.notes.push(self.alloc, Note::Shown(value))
    }

    fn next_play(&mut self) -> Play
        ensures play { result ≡ next self.old.plays }
        ensures after { self.new ≡ record self.old { plays = drop 1 self.old.plays } }
    {
        match self.plays.pop() {
            Some(play) => play,
            None => Play::silent(),
        }
    }

    fn give(&self, number: u32, n: u64, memory: &Memory) -> HostAnswer<u32>
        ensures { Answers (given (type_at number) n self.now memory.now) result self.now memory.now }
    {
        match host_type(number) {
            Some((_, Some(ValueKind::I32))) => HostAnswer::Value(n % (1 << 32)),
            Some((_, Some(ValueKind::I64))) => HostAnswer::Value(n),
            _ => HostAnswer::Nothing,
        }
    }

    fn end(&self, number: u32, answer: Answer, memory: &Memory) -> HostAnswer<u32>
        ensures { Answers (ended number answer self.now memory.now) result self.now memory.now }
    {
        match answer {
            Answer::Give(n) => self.give(number, n, memory),
            Answer::Exit => HostAnswer::Exit,
            Answer::Refuse(n) => HostAnswer::Refused(n),
            Answer::Limit => HostAnswer::StepLimit,
        }
    }

    fn show(&mut self, number: u32, play: Play, memory: &Memory) -> HostAnswer<u32>
        ensures { Answers (shown play.shows (ended number play.answer) self.old memory.now) result self.new memory.now }
    {
        let Some(at) = play.shows else {
            return self.end(number, play.answer, memory);
        };
        let Some(value) = number_at(memory, at) else {
            return HostAnswer::Refused(0);
        };
        if self.note_shown(value).is_err() {
            return HostAnswer::OutOfMemory;
        }
        self.end(number, play.answer, memory)
    }

    fn put(&mut self, number: u32, play: Play, memory: &mut Memory) -> HostAnswer<u32>
        ensures { Answers (played play number self.old memory.old) result self.new memory.new }
    {
        let Some((at, value)) = play.puts else {
            return self.show(number, play, memory);
        };
        if !put_number(memory, at, value) {
            return HostAnswer::Refused(0);
        }
        self.show(number, play, memory)
    }
}

fn number_at(memory: &Memory, at: u32) -> Option<u64>
    ensures { result ≡ number_at memory.now at }
{
    memory.load(at, 0, Width::Eight).ok()
}

fn put_number(memory: &mut Memory, at: u32, value: u64) -> bool
    ensures { with_number memory.old at value ≡ (if result then Some memory.new else None) }
{
    memory.store(at, 0, Width::Eight, value).is_ok()
}

impl Host for Player {
    type Refusal = u32;

    ghost allowed = { λ host function arguments left. Unit {0} };

    ghost meaning = { λ host function arguments memory left. outcome host function arguments memory left };

    ghost stands = { λ host function arguments memory left answer after. Unit {0} };

    fn call(
        &mut self,
        function: HostFn,
        args: &[u64],
        memory: &mut Memory,
        left: &mut u64,
    ) -> HostAnswer<u32> {
        let play = self.next_play();
        if self.note_call(function.0, args).is_err() {
            return HostAnswer::OutOfMemory;
        }
        if *left < play.pays {
            return HostAnswer::StepLimit;
        }
        *left -= play.pays;
        self.put(function.0, play, memory)
    }

    ghost lower = { λ host function arguments left less le holds. tt };

    ghost falls = { λ host function arguments memory left. Prim.grind arith };

    ghost keeps = { λ host function arguments memory left holds. always_kept (λ w f args n. Unit {0}) (λ w f args n. tt) host left (outcome host function arguments memory left).reply (outcome host function arguments memory left).left };
}
