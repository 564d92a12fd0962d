use thiserror::Error;

/// Why an instruction has no answer.
#[derive(Clone, Copy, PartialEq, Eq, Debug, Error)]
pub enum TrapKind {
    #[error("unreachable executed")]
    Unreachable,
    #[error("integer divide by zero")]
    DivZero,
    /// The signed quotient doesn't fit.
    #[error("integer overflow")]
    DivOverflow,
    /// A byte lies past the memory's end, or a segment doesn't fit.
    #[error("out of bounds memory or table access")]
    OutOfBounds,
    /// The table's place is empty, or past its end.
    #[error("undefined element")]
    NoElement,
    /// The table's function has another type.
    #[error("indirect call type mismatch")]
    WrongType,
}

/// How a run ended.
#[derive(Drop, Debug)]
pub enum RunEnd<R> {
    /// `apply` returned.
    Done,
    /// The host ended the run.
    Exit,
    Trap(TrapKind),
    /// An instruction or a host call costs more steps than are left.
    StepLimit,
    /// The call would make more frames than there may be.
    CallDepth,
    /// The host refused a call.
    Refused(R),
    /// A look asked the run to stop.
    Cut { at: u64 },
}
