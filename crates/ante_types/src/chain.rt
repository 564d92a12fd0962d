use ante_pack::{Authority, Bytes, Digest, Level, Name, Seq};

/// What an account is asked to do, and by whose authority.
#[derive(Debug, Drop)]
pub struct Action {
    pub account: Name,
    pub name: Name,
    pub authorization: Seq<Level>,
    pub bytes: Bytes,
}

/// Data beside a transaction's actions, by its kind.
#[derive(Debug, Drop)]
pub struct Extension {
    pub kind: u16,
    pub bytes: Bytes,
}

/// A transaction. Its expiration counts seconds from 1970-01-01T00:00:00.
#[derive(Debug, Drop)]
pub struct Transaction {
    pub expiration: u32,
    pub ref_block_num: u16,
    pub ref_block_prefix: u32,
    pub max_net_usage_words: u32,
    pub max_cpu_usage_ms: u8,
    pub delay_sec: u32,
    pub context_free_actions: Seq<Action>,
    pub actions: Seq<Action>,
    pub extensions: Seq<Extension>,
}

/// A transaction as a block holds it, with the steps that it took.
#[derive(Debug, Drop)]
pub struct Receipt {
    pub steps: u32,
    pub packed: Bytes,
    pub signatures: Seq<Bytes>,
}

/// A block's header. Its slot counts half seconds from 2000-01-01T00:00:00.
#[derive(Clone, Copy, Debug, PartialEq, Eq)]
pub struct Header {
    pub slot: u32,
    pub producer: Name,
    pub previous: Digest,
    pub trx_root: Digest,
}

/// A block, with its producer's seal over the id.
#[derive(Debug, Drop)]
pub struct Block {
    pub header: Header,
    pub seal: Bytes,
    pub receipts: Seq<Receipt>,
}

/// A block's number and id. Genesis is number 1.
#[derive(Clone, Copy, Debug, PartialEq, Eq)]
pub struct Head {
    pub num: u32,
    pub id: Digest,
}

/// What a block is begun with.
#[derive(Clone, Copy, Debug, PartialEq, Eq)]
pub struct BlockInfo {
    pub num: u32,
    pub slot: u32,
    pub producer: Name,
    pub previous: Digest,
}

/// An account that is there from genesis on.
#[derive(Debug, Drop)]
pub struct GenesisAccount {
    pub name: Name,
    pub owner: Authority,
    pub active: Authority,
    pub code: Bytes,
}

/// The state that a chain begins with.
#[derive(Debug, Drop)]
pub struct Genesis {
    pub version: u32,
    pub slot: u32,
    pub producers: Seq<Name>,
    pub accounts: Seq<GenesisAccount>,
}
