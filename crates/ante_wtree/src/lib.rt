//! WebAssembly modules as trees (Core 1.0, section 2), and the table of the functions that a host gives them.
#![tactic(auto)]

mod accesses;
mod instructions;
mod intrinsics;
mod laws;
pub mod limits;
mod modules;
mod shape;
mod types;

pub use accesses::{exponent, load_result, load_width, store_operand, store_width};
pub use instructions::{Instr, LoadKind, MemArg, PlainInstr, StoreKind, ValueKind};
pub use intrinsics::{host_number, host_type};
pub use laws::one_number_a_name;
pub use modules::{
    Code, Element, Export, ExportKind, FuncType, Global, Import, ImportKind, Init, Limits, Module,
    Segment,
};
pub use shape::{Shape, shape_of};
pub use types::{result_of, same_kinds, same_type};
