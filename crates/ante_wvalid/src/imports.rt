ghost use Rattle.std.specs.Prelude.{◌≡◌, ◌↔◌, ℕ, List, Option, Some, ◌++◌, ◌<◌, [], ◌∷◌, length, IsTrue, IfOk, MatchOption, slice_get, OnSome};
ghost use Rattle.std.specs.Option.{option_copied, option_map};
ghost use Rattle.ante_wtree.specs.Trees.{tree_of};
ghost use Rattle.ante_wvalid.specs.Modules.{IsFunction, IsHostName, IsKnown, HasHostType, FindsFirst, imported, function_of, function_types};
ghost use Rattle.ante_wvalid.specs.OperandStacks.{Tells, Meets, IsRefused};

use crate::rules::same_bytes;
use crate::scope::{kinds, numbered};
use ante_wtree::{
    FuncType, Import, ImportKind, Module, ValueKind, host_number, host_type, same_type,
};
use std::alloc::{AllocError, Global};

/// What an import is looked at for.
#[derive(Clone, Copy)]
pub enum ImportRule {
    Function,
    Known,
    HostType,
}

fn is_function(import: &Import) -> bool
    ensures { IsTrue result ↔ IsFunction import.now }
{
    matches!(import.kind, ImportKind::Function(_))
}

fn is_host_name(name: &[u8]) -> bool
    ensures { IsTrue result ↔ IsHostName name.now }
{
    match host_number(name) {
        Some(_) => true,
        None => false,
    }
}

fn is_known(import: &Import) -> bool
    ensures { IsTrue result ↔ IsKnown import.now }
{
    same_bytes(import.module.as_slice(), b"env") && is_host_name(import.name.as_slice())
}

/// The type that hosts give the function of this name.
fn host_type_of(name: &[u8]) -> Option<(&'static [ValueKind], Option<ValueKind>)>
    ensures { Tells name.now (option_map (λ t. (t.0.now, t.1)) result) }
{
    match host_number(name) {
        Some(host) => host_type(host),
        None => None,
    }
}

fn has_host_type(types: &[FuncType], import: &Import) -> bool
    ensures { IsTrue result ↔ HasHostType types.now import.now }
{
    let ImportKind::Function(number) = import.kind else {
        return false;
    };
    let Some(found) = numbered(types, number) else {
        return false;
    };
    let Some((params, result)) = host_type_of(import.name.as_slice()) else {
        return false;
    };
    same_type(found, params, kinds(result))
}

fn meets(rule: ImportRule, types: &[FuncType], import: &Import) -> bool
    ensures { IsTrue result ↔ Meets types.now rule import.now }
{
    match rule {
        ImportRule::Function => is_function(import),
        ImportRule::Known => is_known(import),
        ImportRule::HostType => has_host_type(types, import),
    }
}

fn import_at(imports: &[Import], at: usize) -> Option<&Import>
    ensures item { option_copied result ≡ slice_get imports.now at }
    ensures within { OnSome result (at < length imports.now) }
{
    imports.get(at)
}

/// The first import that doesn't meet the rule.
pub fn first_refused(rule: ImportRule, module: &Module) -> Option<usize>
    ensures { FindsFirst (λ at. at) (IsRefused module.now.types rule module.now.imports) result }
{
    let imports = module.imports.as_slice();
    let mut at = 0;
    'imports: while let Some(import) = import_at(imports, at) {
        if !meets(rule, module.types.as_slice(), import) {
            return Some(at);
        }
        at += 1;
    }
    None
}

/// The number of each function's type, the imported ones first.
pub fn function_types(alloc: Global, module: &Module) -> Result<Vec<u32>, AllocError>
    ensures { IfOk result (λ all. all.items ≡ function_types (tree_of module.now)) }
{
    let mut all = Vec::new(alloc);
    let mut rest = module.imports.as_slice();
    'imports: while let Some((import, tail)) = rest.split_first() {
        if let ImportKind::Function(number) = import.kind {
            all.push(number)?;
        }
        rest = tail;
    }
    all.extend_from_slice(module.functions.as_slice())?;
    Ok(all)
}
