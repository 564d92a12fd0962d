use ante_pack::{Authority, Bytes, Digest, Name};

/// An account: who pays for it, whether it may call privileged intrinsics, its WebAssembly code, and the description of
/// its tables and actions. No code and no description are no bytes.
#[derive(Debug, Drop)]
pub struct AccountRow {
    pub payer: Name,
    pub privileged: bool,
    pub code: Bytes,
    pub abi: Bytes,
}

/// A permission: the permission above it, the empty name for the topmost, and what satisfies it.
#[derive(Debug, Drop)]
pub struct PermissionRow {
    pub parent: Name,
    pub authority: Authority,
}

/// Where a link stands: the account whose link it is, and the contract and action that it is for. The empty action stands
/// for all actions of the contract.
#[derive(Clone, Copy, Debug, PartialEq, Eq, PartialOrd, Ord)]
pub struct LinkKey {
    pub account: Name,
    pub code: Name,
    pub action: Name,
}

/// A transaction that was run: when it expires, in seconds since 1970, and its id.
#[derive(Clone, Copy, Debug, PartialEq, Eq, PartialOrd, Ord)]
pub struct RecentKey {
    pub expiration: u32,
    pub id: Digest,
}
