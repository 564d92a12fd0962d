/// An intrinsic that isn't a call on tables.
#[derive(Clone, Copy, Debug, PartialEq, Eq)]
pub enum SysCall {
    Abort,
    Exit,
    Assert,
    AssertMessage,
    AssertCode,
    CurrentReceiver,
    GetSender,
    ActionDataSize,
    ReadActionData,
    TransactionSize,
    ReadTransaction,
    Expiration,
    TaposBlockNum,
    TaposBlockPrefix,
    CurrentTime,
    PublicationTime,
    RequireAuth,
    RequireAuth2,
    HasAuth,
    IsAccount,
    IsPrivileged,
    RequireRecipient,
    SendInline,
    Prints,
    PrintsL,
    PrintHex,
    PrintI,
    PrintUi,
    PrintN,
    PrintI128,
    PrintUi128,
    Memcpy,
    Memmove,
    Memset,
    Memcmp,
    Sha256,
    AssertSha256,
    Multi3,
    DivTi3,
    UdivTi3,
    ModTi3,
    UmodTi3,
    AshlTi3,
    AshrTi3,
    LshlTi3,
    LshrTi3,
    SetResourceLimits,
    SetActionReturnValue,
}

/// An intrinsic on primary rows.
#[derive(Clone, Copy, Debug, PartialEq, Eq)]
pub enum RowCall {
    Store,
    Update,
    Remove,
    Get,
    Next,
    Previous,
    Find,
    LowerBound,
    UpperBound,
    End,
}

/// An intrinsic on the rows of a secondary index, whatever the width of its keys.
#[derive(Clone, Copy, Debug, PartialEq, Eq)]
pub enum IndexCall {
    Store,
    Update,
    Remove,
    Next,
    Previous,
    FindPrimary,
    FindSecondary,
    LowerBound,
    UpperBound,
    End,
}

/// An intrinsic, by the group of calls that it belongs to.
#[derive(Clone, Copy, Debug, PartialEq, Eq)]
pub enum Intrinsic {
    Sys(SysCall),
    Row(RowCall),
    Index64(IndexCall),
    Index128(IndexCall),
    Index256(IndexCall),
}
