use ante_pack::{Bytes, Digest, Name, Seq};
use ante_types::Head;

/// A permission of an account, with its authority packed.
#[derive(Debug, Drop)]
pub struct PermissionView {
    pub perm_name: Name,
    pub parent: Name,
    pub packed_auth: Bytes,
}

/// A table of a contract: who pays for it, and how many rows it has.
#[derive(Clone, Copy, Debug, PartialEq, Eq)]
pub struct ScopeView {
    pub code: Name,
    pub scope: Name,
    pub table: Name,
    pub payer: Name,
    pub count: u32,
}

/// What is answered.
#[derive(Debug, Drop)]
pub enum ViewAnswer {
    Info {
        chain_id: Digest,
        head: Head,
        head_slot: u32,
        irreversible: u32,
        position: u64,
    },
    Block {
        num: u32,
        id: Digest,
        packed: Bytes,
    },
    /// A quota of -1 is none.
    Account {
        name: Name,
        code_hash: Digest,
        permissions: Seq<PermissionView>,
        privileged: bool,
        ram_quota: i64,
        ram_usage: u64,
    },
    /// `more` says whether another row is in range, and `next_key` names it.
    Rows {
        more: bool,
        next_key: Option<u64>,
        rows: Seq<Bytes>,
    },
    Scopes {
        more: bool,
        rows: Seq<ScopeView>,
    },
    /// The account isn't there.
    Missing,
}
