ghost use Rattle.std.specs.Prelude.{◌≡◌, ◌↔◌, ◌⊎◌, ◌+◌, ◌<◌, ◌≤◌, MatchOption, List, [], ◌∷◌, length, Some, slice_get, codes, IsTrue, IfOk, Any};
ghost use Rattle.ante_wtree.specs.declared.instructions.ValueKind.TheVariants.{I32};
ghost use Rattle.ante_wtree.specs.Trees.{tree_of};
ghost use Rattle.ante_wvalid.specs.declared.kinds.ModuleRule.TheVariants as rule;
ghost use Rattle.ante_wvalid.specs.Modules.{rule_place, Breaks, FindsFirst, OutOfBounds, IsConstant, constant_kind};
ghost use Rattle.ante_wvalid.specs.Modules.{Twice, HasType, IsApply, HasApply, count, function_types};

use crate::kinds::ModuleRule;
use crate::repeats::export_twice;
use crate::scope::function_type;
use ante_wmem::limits::MOST_MEMORY_PAGES;
use ante_wtree::limits::MOST_TABLE_ELEMENTS;
use ante_wtree::{
    Element, Export, ExportKind, FuncType, Global, Init, Limits, Module, Segment, ValueKind,
    same_type,
};
use std::alloc::{AllocError, Global as Heap};

const L: ValueKind = ValueKind::I64;

fn is_out_of_bounds(bound: u32, limits: Limits) -> bool
    ensures { IsTrue result ↔ OutOfBounds bound limits }
{
    match limits.most {
        Some(most) => most < limits.least || bound < limits.least,
        None => bound < limits.least,
    }
}

fn constant_kind(init: Init) -> Option<ValueKind>
    ensures { result ≡ constant_kind init }
{
    match init {
        Init::Const32(_) => Some(ValueKind::I32),
        Init::Const64(_) => Some(ValueKind::I64),
        Init::GlobalGet(_) => None,
    }
}

fn is_constant(kind: ValueKind, init: Init) -> bool
    ensures { IsTrue result ↔ IsConstant kind init }
{
    constant_kind(init) == Some(kind)
}

fn type_index(module: &Module) -> bool
    ensures { IsTrue result ↔ Breaks (tree_of module.now) rule.TypeIndex }
{
    let count = module.types.len();
    module
        .functions
        .as_slice()
        .iter()
        .any(|number| *number as usize >= count)
}

fn results(module: &Module) -> bool
    ensures { IsTrue result ↔ Breaks (tree_of module.now) rule.Results }
{
    module
        .types
        .as_slice()
        .iter()
        .any(|found| found.results.len() > 1)
}

fn any_out_of_bounds(bound: u32, limits: &[Limits]) -> bool
    ensures { IsTrue result ↔ Any (OutOfBounds bound) limits.now }
{
    limits.iter().any(|one| is_out_of_bounds(bound, *one))
}

fn bounds(module: &Module) -> bool
    ensures { IsTrue result ↔ Breaks (tree_of module.now) rule.Bounds }
{
    any_out_of_bounds(MOST_TABLE_ELEMENTS, module.table.as_slice())
        || any_out_of_bounds(MOST_MEMORY_PAGES, module.memory.as_slice())
}

fn global_init(module: &Module) -> bool
    ensures { IsTrue result ↔ Breaks (tree_of module.now) rule.GlobalInit }
{
    any_global(module.globals.as_slice())
        || any_element(module.elements.as_slice())
        || any_segment(module.segments.as_slice())
}

fn any_global(globals: &[Global]) -> bool
    ensures { IsTrue result ↔ Any (λ g. IsConstant g.kind g.init → ⊥) globals.now }
{
    globals
        .iter()
        .any(|global| !is_constant(global.kind, global.init))
}

fn any_element(elements: &[Element]) -> bool
    ensures { IsTrue result ↔ Any (λ e. IsConstant I32 e.offset → ⊥) elements.now }
{
    elements
        .iter()
        .any(|element| !is_constant(ValueKind::I32, element.offset))
}

fn any_segment(segments: &[Segment]) -> bool
    ensures { IsTrue result ↔ Any (λ s. IsConstant I32 s.offset → ⊥) segments.now }
{
    segments
        .iter()
        .any(|segment| !is_constant(ValueKind::I32, segment.offset))
}

fn is_exported_wrongly(module: &Module, functions: &[u32], export: &Export) -> bool
    requires { functions.now ≡ function_types (tree_of module.now) }
    ensures { IsTrue result ↔ (count (tree_of module.now) export.now.kind ≤ export.now.index) }
{
    let count = match export.kind {
        ExportKind::Function => functions.len(),
        ExportKind::Table => module.table.len(),
        ExportKind::Memory => module.memory.len(),
        ExportKind::Global => module.globals.len(),
    };
    count <= export.index as usize
}

fn export_index(module: &Module, functions: &[u32]) -> bool
    requires { functions.now ≡ function_types (tree_of module.now) }
    ensures { IsTrue result ↔ Breaks (tree_of module.now) rule.ExportIndex }
{
    module
        .exports
        .as_slice()
        .iter()
        .any(|export| is_exported_wrongly(module, functions, export))
}

fn start(module: &Module, functions: &[u32]) -> bool
    requires { functions.now ≡ function_types (tree_of module.now) }
    ensures { IsTrue result ↔ Breaks (tree_of module.now) rule.Start }
{
    match module.start {
        Some(f) => !has_type(module.types.as_slice(), functions, f, &[], &[]),
        None => false,
    }
}

fn any_past(count: usize, functions: &[u32]) -> bool
    ensures { IsTrue result ↔ Any (λ f. count ≤ f) functions.now }
{
    functions.iter().any(|f| count <= *f as usize)
}

fn is_wrong_element(module: &Module, functions: &[u32], element: &Element) -> bool
    requires { functions.now ≡ function_types (tree_of module.now) }
    ensures { IsTrue result ↔ ((module.now.table ≡ []) ⊎ Any (λ f. length (function_types (tree_of module.now)) ≤ f) element.now.functions) }
{
    module.table.as_slice().is_empty() || any_past(functions.len(), element.functions.as_slice())
}

fn element_index(module: &Module, functions: &[u32]) -> bool
    requires { functions.now ≡ function_types (tree_of module.now) }
    ensures { IsTrue result ↔ Breaks (tree_of module.now) rule.ElementIndex }
{
    module
        .elements
        .as_slice()
        .iter()
        .any(|element| is_wrong_element(module, functions, element))
}

fn segment_memory(module: &Module) -> bool
    ensures { IsTrue result ↔ Breaks (tree_of module.now) rule.SegmentMemory }
{
    !module.segments.as_slice().is_empty() && module.memory.as_slice().is_empty()
}

fn breaks(
    alloc: Heap,
    module: &Module,
    functions: &[u32],
    rule: ModuleRule,
) -> Result<bool, AllocError>
    requires { functions.now ≡ function_types (tree_of module.now) }
    ensures { IfOk result (λ broken. IsTrue broken ↔ Breaks (tree_of module.now) rule) }
{
    match rule {
        ModuleRule::TypeIndex => Ok(type_index(module)),
        ModuleRule::Results => Ok(results(module)),
        ModuleRule::TwoTables => Ok(module.table.len() > 1),
        ModuleRule::TwoMemories => Ok(module.memory.len() > 1),
        ModuleRule::Bounds => Ok(bounds(module)),
        ModuleRule::GlobalInit => Ok(global_init(module)),
        ModuleRule::ExportIndex => Ok(export_index(module, functions)),
        ModuleRule::ExportTwice => export_twice(alloc, module.exports.as_slice()),
        ModuleRule::Start => Ok(start(module, functions)),
        ModuleRule::ElementIndex => Ok(element_index(module, functions)),
        ModuleRule::SegmentMemory => Ok(segment_memory(module)),
    }
}

fn next(rule: ModuleRule) -> Option<ModuleRule>
    ensures { MatchOption result (rule_place rule ≡ 10) (λ after. rule_place after ≡ rule_place rule + 1) }
{
    match rule {
        ModuleRule::TypeIndex => Some(ModuleRule::Results),
        ModuleRule::Results => Some(ModuleRule::TwoTables),
        ModuleRule::TwoTables => Some(ModuleRule::TwoMemories),
        ModuleRule::TwoMemories => Some(ModuleRule::Bounds),
        ModuleRule::Bounds => Some(ModuleRule::GlobalInit),
        ModuleRule::GlobalInit => Some(ModuleRule::ExportIndex),
        ModuleRule::ExportIndex => Some(ModuleRule::ExportTwice),
        ModuleRule::ExportTwice => Some(ModuleRule::Start),
        ModuleRule::Start => Some(ModuleRule::ElementIndex),
        ModuleRule::ElementIndex => Some(ModuleRule::SegmentMemory),
        ModuleRule::SegmentMemory => None,
    }
}

/// The first rule that the module breaks.
pub fn first_broken(
    alloc: Heap,
    module: &Module,
    functions: &[u32],
) -> Result<Option<ModuleRule>, AllocError>
    requires { functions.now ≡ function_types (tree_of module.now) }
    ensures { IfOk result (FindsFirst rule_place (Breaks (tree_of module.now))) }
{
    let mut rule = ModuleRule::TypeIndex;
    'rules: loop {
        if breaks(alloc, module, functions, rule)? {
            return Ok(Some(rule));
        }
        match next(rule) {
            Some(after) => rule = after,
            None => return Ok(None),
        }
    }
}

pub fn same_bytes(one: &[u8], two: &[u8]) -> bool
    ensures { IsTrue result ↔ (one.now ≡ two.now) }
{
    one == two
}

/// Whether a function has this type.
pub fn has_type(
    types: &[FuncType],
    functions: &[u32],
    f: u32,
    params: &[ValueKind],
    results: &[ValueKind],
) -> bool
    ensures { IsTrue result ↔ HasType types.now functions.now f params.now results.now }
{
    match function_type(types, functions, f) {
        Some(found) => same_type(found, params, results),
        None => false,
    }
}

fn is_apply(types: &[FuncType], functions: &[u32], export: &Export) -> bool
    ensures { IsTrue result ↔ IsApply types.now functions.now export.now }
{
    if !same_bytes(export.name.as_slice(), b"apply") {
        return false;
    }
    match export.kind {
        ExportKind::Function => has_type(types, functions, export.index, &[L, L, L], &[]),
        _ => false,
    }
}

pub fn has_apply(module: &Module, functions: &[u32]) -> bool
    requires { functions.now ≡ function_types (tree_of module.now) }
    ensures { IsTrue result ↔ HasApply (tree_of module.now) }
{
    let types = module.types.as_slice();
    module
        .exports
        .as_slice()
        .iter()
        .any(|export| is_apply(types, functions, export))
}
