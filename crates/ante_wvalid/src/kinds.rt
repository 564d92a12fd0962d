use std::alloc::AllocError;
use thiserror::Error;

/// A rule for a part of a module, in the order in which they are looked for.
#[derive(Clone, Copy, PartialEq, Eq, Debug, Error)]
pub enum ModuleRule {
    /// A function names a type that isn't there.
    #[error("unknown type")]
    TypeIndex,
    /// A type has more than one result.
    #[error("type with more than one result")]
    Results,
    /// There is more than one table.
    #[error("more than one table")]
    TwoTables,
    /// There is more than one memory.
    #[error("more than one memory")]
    TwoMemories,
    /// A least size above the most, or a memory or a table of more pages or elements than the profile allows.
    #[error("size out of bounds")]
    Bounds,
    /// A global's first value isn't a constant of its kind, or an offset isn't an i32 constant.
    #[error("constant expression required")]
    GlobalInit,
    /// An export names something that isn't there.
    #[error("unknown export")]
    ExportIndex,
    /// Two exports have one name.
    #[error("duplicate export name")]
    ExportTwice,
    /// The start function isn't there, or has parameters or results.
    #[error("start function")]
    Start,
    /// Elements without a table, or of functions that aren't there.
    #[error("unknown table or function in elements")]
    ElementIndex,
    /// A segment without a memory.
    #[error("segment without a memory")]
    SegmentMemory,
}

/// What is wrong with a module, in the order in which it is looked for; each names the least place.
#[derive(Clone, Copy, PartialEq, Eq, Debug, Error)]
pub enum InvalidKind {
    /// An import that isn't a function.
    #[error("import {index} is not a function")]
    ImportKind { index: usize },
    /// An import that isn't a host's function.
    #[error("import {index} is unknown")]
    UnknownImport { index: usize },
    /// An import of another type than the host's function has.
    #[error("import {index} has another type than the host's")]
    ImportType { index: usize },
    /// The module breaks this rule.
    #[error(transparent)]
    Rule(ModuleRule),
    /// A body that isn't typed, by the function's number, which counts the imported functions too.
    #[error("the body of function {function} is not typed")]
    Body { function: usize },
    /// No function `apply` of three i64 and no result is exported.
    #[error("no function `apply` is exported")]
    NoApply,
}

/// Why a module isn't validated.
#[derive(Debug, Drop, Error)]
pub enum ValidateError {
    #[error("out of memory")]
    OutOfMemory,
    /// The first kind that is wrong with it.
    #[error(transparent)]
    Invalid(InvalidKind),
}

impl From<AllocError> for ValidateError {
    ghost use Rattle.std.specs.Prelude.{◌≡◌};
    ghost use Rattle.ante_wvalid.specs.declared.kinds.ValidateError.TheVariants.{OutOfMemory};

    ghost from_gives = { λ _ e. e ≡ OutOfMemory };

    fn from(_: AllocError) -> ValidateError {
        ValidateError::OutOfMemory
    }
}
