/// What a reply depends on, in the order in which it happened. Turns are numbered from 0, and moments are the clock's.
#[derive(Clone, Copy, Debug, PartialEq, Eq)]
pub enum NodeEvent {
    /// The turn in which requests were taken or waited, or a block was sealed.
    Turn { turn: u64, moment: u64 },
    /// A link was given.
    Link { turn: u64 },
    /// The next bytes of the link are a request.
    Taken { link: u32, length: u32 },
    /// The next bytes of the link are Bad.
    Bad { link: u32, length: u32 },
    /// The link was closed.
    Gone { link: u32 },
    /// A block was pushed, or a transaction run in the block that is being made.
    Wrote { link: u32 },
    /// What waits to be written waits for the next turn.
    Late { moment: u64 },
    Sealed { num: u32 },
    /// Memory was wanted for the request.
    Starved { link: u32 },
    /// A window was opened.
    Opened { moment: u64 },
    Claim { reader: u32, link: u32 },
    Finish { reader: u32, link: u32 },
    Starve { reader: u32, link: u32 },
    Ring { reader: u32, moment: u64 },
    Cut { reader: u32, link: u32 },
    Closed,
}
