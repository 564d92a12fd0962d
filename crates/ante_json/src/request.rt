use ante_pack::{Bytes, Seq};
use ante_types::{Block, ReadJob};
use ante_views::{Seen, ViewQuery};

/// What stands after `/v1/chain/` in a target.
#[derive(Clone, Copy, Debug, PartialEq, Eq)]
pub enum Path {
    GetInfo,
    GetBlock,
    GetAccount,
    GetTableRows,
    GetTableByScope,
    PushTransaction,
    PushBlock,
    SendReadOnlyTransaction,
}

/// What a request asks for.
#[derive(Debug, Drop)]
pub enum ApiRequest {
    View(ViewQuery),
    /// The packed bytes are those of a transaction.
    PushTransaction {
        packed: Bytes,
        signatures: Seq<Bytes>,
    },
    PushBlock {
        block: Block,
    },
    /// `seen` is a head that the answer may not be older than.
    ReadOnly {
        job: ReadJob,
        seen: Option<Seen>,
    },
}
