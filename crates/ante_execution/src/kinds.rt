/// Whether a permission is satisfied.
#[derive(Clone, Copy, Debug, PartialEq, Eq)]
pub enum Weighed {
    Yes,
    No,
    /// More permissions would have to be visited than may be.
    Spent,
}

/// An action that the system's account does itself.
#[derive(Clone, Copy, Debug, PartialEq, Eq)]
pub enum NativeAction {
    NewAccount,
    SetCode,
    SetAbi,
    UpdateAuth,
    DeleteAuth,
    LinkAuth,
    UnlinkAuth,
}
