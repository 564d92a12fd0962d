//! What the interpreter asks of its host.
ghost use Rattle.std.specs.Prelude.{◌≡◌, ℕ, ◌≤◌, List};
ghost use Rattle.ante_wmem.specs.Linear.{LinearMemory};
ghost use Rattle.ante_wmem.specs.HostCalls.{HostMeaning, StaysAllowed, Keeps, IsAnswer};
ghost use Rattle.ante_wmem.specs.declared.host.HostAnswer.{HostAnswer};

use crate::Memory;

/// The number of an intrinsic in the table of imports.
#[derive(Clone, Copy, PartialEq, Eq, Debug)]
pub struct HostFn(pub u32);

/// What a host call answers.
#[derive(Drop, Debug)]
pub enum HostAnswer<R> {
    /// The result; an i32 is below 2 ^ 32.
    Value(u64),
    /// The call has no result.
    Nothing,
    /// The run ends well.
    Exit,
    /// The host refuses the call, and the run ends.
    Refused(R),
    /// The call costs more steps than are left.
    StepLimit,
    /// The call wants memory that it is refused.
    OutOfMemory,
}

/// The outside of a run. A call may lower `left`, the steps that are left.
pub trait Host {
    type Refusal;

    // When a function may be called with these arguments and so many steps left.
    ghost allowed: { Self → ℕ → List ℕ → ℕ → Type 0 };

    // What a call does.
    ghost meaning: { HostMeaning Self Self.Refusal };

    // What a call that gives one of the answers Refused, StepLimit and OutOfMemory leaves of the host.
    ghost stands: { Self → ℕ → List ℕ → LinearMemory → ℕ → HostAnswer Self.Refusal → Self → Type 0 };

    /// Calls the function. Nothing is said of the memory after Refused, StepLimit and OutOfMemory.
    fn call(
        &mut self,
        function: HostFn,
        args: &[u64],
        memory: &mut Memory,
        left: &mut u64,
    ) -> HostAnswer<Self::Refusal>
        requires { allowed self.old function.0 args.now left.old }
        ensures answer { let outcome = meaning self.old function.0 args.now memory.old left.old in
            let stands = stands self.old function.0 args.now memory.old left.old in
            IsAnswer outcome stands result self.new memory.new left.new }
        ensures left { left.new ≤ left.old }
        ensures after { StaysAllowed allowed self.old left.old self.new left.new };

    // Fewer steps left keep the condition.
    ghost lower: { (host : Self) (function : ℕ) (arguments : List ℕ) (left less : ℕ) →
        less ≤ left → allowed host function arguments left → allowed host function arguments less };

    // No call raises the steps left.
    ghost falls: { (host : Self) (function : ℕ) (arguments : List ℕ) (memory : LinearMemory) (left : ℕ) →
        (meaning host function arguments memory left).left ≤ left };

    // What may be called before a call may be called after its reply, with fewer steps left.
    ghost keeps: { (host : Self) (function : ℕ) (arguments : List ℕ) (memory : LinearMemory) (left : ℕ) →
        allowed host function arguments left →
        let outcome = meaning host function arguments memory left in Keeps allowed host left outcome.reply outcome.left };
}
