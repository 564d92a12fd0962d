use crate::instructions::{Instr, ValueKind};
use ante_pack::{Bytes, Seq};

/// The kinds of a function's parameters and results (section 2.3.3).
#[derive(Debug, Drop)]
pub struct FuncType {
    pub params: Seq<ValueKind>,
    pub results: Seq<ValueKind>,
}

/// How large a table or a memory is at least and at most, in elements or in pages (section 2.3.4).
#[derive(Clone, Copy, PartialEq, Eq, Debug)]
pub struct Limits {
    pub least: u32,
    pub most: Option<u32>,
}

/// What is imported (section 2.5.11).
#[derive(Clone, Copy, PartialEq, Eq, Debug)]
pub enum ImportKind {
    /// A function, by the number of its type.
    Function(u32),
    Table(Limits),
    Memory(Limits),
    Global { kind: ValueKind, changes: bool },
}

/// An import under two names, each of them UTF-8.
#[derive(Debug, Drop)]
pub struct Import {
    pub module: Bytes,
    pub name: Bytes,
    pub kind: ImportKind,
}

/// A constant expression (section 3.3.7.2).
#[derive(Clone, Copy, PartialEq, Eq, Debug)]
pub enum Init {
    /// An i32, as its 32 bits.
    Const32(u32),
    /// An i64, as its 64 bits.
    Const64(u64),
    /// The value of the global of this number.
    GlobalGet(u32),
}

/// A global: its kind, whether it changes, and its first value (section 2.5.6).
#[derive(Clone, Copy, PartialEq, Eq, Debug)]
pub struct Global {
    pub kind: ValueKind,
    pub changes: bool,
    pub init: Init,
}

/// What is exported (section 2.5.10).
#[derive(Clone, Copy, PartialEq, Eq, Debug)]
pub enum ExportKind {
    Function,
    Table,
    Memory,
    Global,
}

/// An export: its name, which is UTF-8, and the number of what it is within its kind.
#[derive(Debug, Drop)]
pub struct Export {
    pub name: Bytes,
    pub kind: ExportKind,
    pub index: u32,
}

/// The numbers of functions that the table has from an offset on (section 2.5.7).
#[derive(Debug, Drop)]
pub struct Element {
    pub offset: Init,
    pub functions: Seq<u32>,
}

/// A function's body: the kinds of its own locals, one each, and its instructions without the `end`
/// (section 2.5.3). Its type stands in `functions` of the module.
#[derive(Debug, Drop)]
pub struct Code {
    pub locals: Seq<ValueKind>,
    pub body: Vec<Instr>,
}

/// The bytes that the memory has from an offset on (section 2.5.8).
#[derive(Debug, Drop)]
pub struct Segment {
    pub offset: Init,
    pub bytes: Bytes,
}

/// A module, with the fields of its sections (section 2.5). Functions count the imported ones first.
#[derive(Debug, Drop)]
pub struct Module {
    pub types: Seq<FuncType>,
    pub imports: Seq<Import>,
    /// The type's number of each function of the module's own.
    pub functions: Seq<u32>,
    /// Valid modules have one at most.
    pub table: Seq<Limits>,
    /// Valid modules have one at most.
    pub memory: Seq<Limits>,
    pub globals: Seq<Global>,
    pub exports: Seq<Export>,
    pub start: Option<u32>,
    pub elements: Seq<Element>,
    /// One for each of `functions`.
    pub codes: Seq<Code>,
    pub segments: Seq<Segment>,
}
