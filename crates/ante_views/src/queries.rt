use ante_pack::{Digest, Name};

/// A block by its number, on the chosen branch, or by its id.
#[derive(Clone, Copy, Debug, PartialEq, Eq)]
pub enum BlockRef {
    Num(u64),
    Id(Digest),
}

/// A head that the caller has seen: its place in the applied list, and the id of the block there.
#[derive(Clone, Copy, Debug, PartialEq, Eq)]
pub struct Seen {
    pub position: u64,
    pub block_id: Digest,
}

/// What is asked. Bounds are inclusive.
#[derive(Clone, Copy, Debug, PartialEq, Eq)]
pub enum ViewQuery {
    Info,
    Block(BlockRef),
    Account {
        name: Name,
    },
    /// Rows of a table by their primary keys, from the greatest one down where `reverse` is set.
    Rows {
        code: Name,
        scope: Name,
        table: Name,
        lower: Option<u64>,
        upper: Option<u64>,
        limit: u32,
        reverse: bool,
    },
    /// Tables of a contract by scope and name; `lower` is a scope.
    Scopes {
        code: Name,
        table: Option<Name>,
        lower: Option<u64>,
        limit: u32,
    },
}
