/// What a job in a window came to.
#[derive(Clone, Debug, Drop, PartialEq, Eq)]
pub enum Outcome<R> {
    /// Its reply.
    Done(R),
    /// It was cut at this moment, or never claimed, and waits again.
    Back { at: u64 },
    /// It lacked memory.
    OutOfMemory,
}

/// The owner of a job that nobody claimed.
pub const NOBODY: u32 = u32::MAX;

/// The ring that ended a window.
#[derive(Clone, Copy, Debug, PartialEq, Eq)]
pub struct Bell {
    /// The reader that rang.
    pub reader: u32,
    /// When it rang, by the clock.
    pub moment: u64,
}

/// A job that a reader claimed, and what it came to.
#[derive(Debug, Drop)]
pub struct Entry<R> {
    pub job: u32,
    pub reader: u32,
    pub outcome: Outcome<R>,
}
