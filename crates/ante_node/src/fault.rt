ghost use Rattle.std.specs.Prelude.{◌≡◌};
ghost use Rattle.ante_node.specs.Requests.{node_fault};

use std::error::Error;
use std::fmt;

/// What is wrong with an input.
#[derive(Clone, Copy, Debug, PartialEq, Eq)]
pub enum InputKind {
    /// A character is no hex digit, or the number of characters is odd.
    Hex,
    /// Something stands after the newline.
    More,
    /// The line is too long.
    Long,
    /// A packed field doesn't fit.
    Short,
    /// A packed number isn't in its shortest spelling.
    Varuint,
    /// A packed key is of an unknown kind.
    KeyKind,
    /// Bytes are left behind the packed value.
    Trailing,
}

impl fmt::Display for InputKind {
    fn fmt<W: fmt::Write>(&self, f: &mut fmt::Formatter<W>) -> fmt::Result {
        match self {
            InputKind::Hex => write!(f, "hex"),
            InputKind::More => write!(f, "more"),
            InputKind::Long => write!(f, "long"),
            InputKind::Short => write!(f, "short"),
            InputKind::Varuint => write!(f, "varuint"),
            InputKind::KeyKind => write!(f, "keykind"),
            InputKind::Trailing => write!(f, "trailing"),
        }
    }
}

/// What is wrong with an input and where: `Hex` and `More` count characters of the text, the others bytes of the packed
/// value.
#[derive(Clone, Copy, Debug, PartialEq, Eq)]
pub struct InputFault {
    pub at: u64,
    pub kind: InputKind,
}

impl fmt::Display for InputFault {
    fn fmt<W: fmt::Write>(&self, f: &mut fmt::Formatter<W>) -> fmt::Result {
        write!(f, "the input is {} at {}", self.kind, self.at)
    }
}

impl Error for InputFault {}

/// What is wrong with what a run is asked: its words, or its input.
#[derive(Clone, Copy, Debug, PartialEq, Eq)]
pub enum RequestFault {
    /// The number of the first word that isn't accepted, from 0.
    Words { at: u64 },
    Input(InputFault),
}

/// Why a run didn't end well.
#[derive(Clone, Copy, Debug, PartialEq, Eq)]
pub enum NodeFault {
    Nothing,
    BadWords { at: u64 },
    BadInput { at: u64, kind: InputKind },
    SourceFault,
    SinkFault,
    OutOfMemory,
}

impl fmt::Display for NodeFault {
    fn fmt<W: fmt::Write>(&self, f: &mut fmt::Formatter<W>) -> fmt::Result {
        match self {
            NodeFault::Nothing => write!(f, "no fault"),
            NodeFault::BadWords { at } => write!(f, "word {at} isn't accepted"),
            NodeFault::BadInput { at, kind } => write!(f, "the input is {kind} at {at}"),
            NodeFault::SourceFault => write!(f, "a read of the source failed"),
            NodeFault::SinkFault => write!(f, "a write of the sink failed"),
            NodeFault::OutOfMemory => write!(f, "out of memory"),
        }
    }
}

impl Error for NodeFault {}

impl From<RequestFault> for NodeFault {
    ghost from_gives = { λ request fault. fault ≡ node_fault request };

    fn from(request: RequestFault) -> NodeFault {
        match request {
            RequestFault::Words { at } => NodeFault::BadWords { at },
            RequestFault::Input(fault) => NodeFault::BadInput {
                at: fault.at,
                kind: fault.kind,
            },
        }
    }
}

/// How a run of any command ended.
#[derive(Clone, Copy, Debug, PartialEq, Eq)]
pub struct NodeEnd {
    /// The status of the program.
    pub status: u8,
    pub fault: NodeFault,
}
