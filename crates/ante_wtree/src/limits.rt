//! The limits of this profile on modules and runs. Those on memories stand in `ante_wmem`.
ghost use Rattle.std.specs.Prelude.{◌≡◌};
ghost use Rattle.ante_wtree.specs.Limits.{most_module_bytes, most_types, most_imports, most_functions, most_globals, most_exports};
ghost use Rattle.ante_wtree.specs.Limits.{most_element_segments, most_data_segments, most_table_elements, most_params, most_locals};
ghost use Rattle.ante_wtree.specs.Limits.{most_nested_blocks, most_branch_targets, most_frames, round_steps};

/// The bytes of a module's binary.
pub const MOST_MODULE_BYTES: usize = 1_048_576;

/// The function types.
pub const MOST_TYPES: u32 = 1_024;

/// The imports.
pub const MOST_IMPORTS: u32 = 8_192;

/// The imported functions and the module's own.
pub const MOST_FUNCTIONS: u32 = 8_192;

/// The globals.
pub const MOST_GLOBALS: u32 = 1_024;

/// The exports.
pub const MOST_EXPORTS: u32 = 8_192;

/// The element segments.
pub const MOST_ELEMENT_SEGMENTS: u32 = 1_024;

/// The data segments.
pub const MOST_DATA_SEGMENTS: u32 = 1_024;

/// The elements that a table may have.
pub const MOST_TABLE_ELEMENTS: u32 = 8_192;

/// A function's parameters.
pub const MOST_PARAMS: u32 = 4_096;

/// A function's parameters, and the locals beside them.
pub const MOST_LOCALS: u32 = 4_096;

/// Blocks, loops and ifs within one another.
pub const MOST_NESTED_BLOCKS: u32 = 1_024;

/// The targets of a `br_table`, beside the one for every other operand.
pub const MOST_BRANCH_TARGETS: u32 = 8_192;

/// The steps of a round, after which a run looks at its stop.
pub const ROUND_STEPS: u64 = 1_024;

/// A law: the constants are the definitions of their names.
pub fn profile_limits()
    ensures module_bytes { MOST_MODULE_BYTES ≡ most_module_bytes }
    ensures types { MOST_TYPES ≡ most_types }
    ensures imports { MOST_IMPORTS ≡ most_imports }
    ensures functions { MOST_FUNCTIONS ≡ most_functions }
    ensures globals { MOST_GLOBALS ≡ most_globals }
    ensures exports { MOST_EXPORTS ≡ most_exports }
    ensures element_segments { MOST_ELEMENT_SEGMENTS ≡ most_element_segments }
    ensures data_segments { MOST_DATA_SEGMENTS ≡ most_data_segments }
    ensures table_elements { MOST_TABLE_ELEMENTS ≡ most_table_elements }
    ensures params { MOST_PARAMS ≡ most_params }
    ensures locals { MOST_LOCALS ≡ most_locals }
    ensures nested_blocks { MOST_NESTED_BLOCKS ≡ most_nested_blocks }
    ensures branch_targets { MOST_BRANCH_TARGETS ≡ most_branch_targets }
    ensures round { ROUND_STEPS ≡ round_steps }
{}

/// The calls that may be open at once.
#[tactic(auto, unfolding(crate::specs::Limits::most_frames))]
pub fn most_frames() -> u32
    ensures { result ≡ most_frames }
{
    250
}
