use crate::label::Label;
use ante_pack::{Bytes, Name};

/// Why a transaction fails.
#[derive(Debug, Drop)]
pub enum Failure {
    NoAction,
    HasAuthorization {
        action: u32,
    },
    UnknownAccount {
        name: Name,
    },
    Unsupported {
        field: Label,
    },
    WriteRefused {
        intrinsic: Label,
    },
    Assert {
        message: Bytes,
    },
    AssertCode {
        code: u64,
    },
    Trap {
        kind: Label,
    },
    StepLimit,
    CallDepth,
    InlineDepth,
    BadPointer,
    BadIterator {
        value: i32,
    },
    KeyExists {
        primary: u64,
    },
    NotOwner {
        code: Name,
    },
    BadPayer {
        account: Name,
    },
    RamExceeded {
        account: Name,
        used: u64,
        quota: i64,
    },
    RamTotal,
    MissingAuth {
        actor: Name,
        permission: Name,
    },
    Irrelevant {
        actor: Name,
        permission: Name,
    },
    AuthWork,
    DataFault {
        at: u64,
    },
    Expired,
    TooFar,
    BadReference,
    Duplicate,
    NoAuthorization,
    BadSignature {
        index: u32,
    },
    BadCode,
    NotPrivileged,
    Native {
        rule: u8,
    },
    WrongSteps,
    KeyLength {
        count: u32,
    },
    Abort,
    TooBig,
    ReturnTooLong,
    Overlap,
    BadLimit,
}
