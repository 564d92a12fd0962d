ghost use Rattle.std.specs.Prelude.{◌≡◌, IfOk, IfErr, MatchOption};
ghost use Rattle.ante_wtree.specs.Trees.{tree_of};
ghost use Rattle.ante_wvalid.specs.Modules.{IsValid, IsFirstInvalid, function_types};
ghost use Rattle.ante_wvalid.specs.Refusals.{Refuses, Clear};

use crate::functions::{first_untyped, function_number};
use crate::imports::{ImportRule, first_refused, function_types};
use crate::kinds::{InvalidKind, ValidateError};
use crate::rules::{first_broken, has_apply};
use ante_wtree::Module;
use std::alloc::{AllocError, Global};
use std::marker::Model;

/// A module that was validated. Only this crate makes one.
#[derive(Debug, Drop)]
pub struct ValidModule {
    module: Module,
}

impl Model for ValidModule {
    ghost use Rattle.ante_wtree.specs.declared.modules.Module.{Module};

    ghost Value = { Module };

    ghost use Rattle.ante_wtree.specs.contracts.instructions.Instr as instr;
    ghost use Rattle.std.specs.Coded.{codes};

    ghost coded = { Prim.hlevel (codes, instr.the_row.coded) };

    ghost use Rattle.ante_wtree.specs.Trees.{tree_of};
    ghost use Rattle.ante_wvalid.specs.Modules.{IsValid};

    ghost view = { λ v. v.module };

    ghost invariant = { λ v. IsValid (tree_of v.module) };
}

impl ValidModule {
    /// The module, which every rule allows.
    pub fn module(&self) -> &Module
        ensures module { result.now ≡ self.now }
        ensures valid { IsValid (tree_of result.now) }
    {
        &self.module
    }
}

fn first_refused_import(module: &Module) -> Option<InvalidKind>
    ensures { MatchOption result (Clear (tree_of module.now) 3) (IsFirstInvalid (tree_of module.now)) }
{
    if let Some(index) = first_refused(ImportRule::Function, module) {
        return Some(InvalidKind::ImportKind { index });
    }
    if let Some(index) = first_refused(ImportRule::Known, module) {
        return Some(InvalidKind::UnknownImport { index });
    }
    if let Some(index) = first_refused(ImportRule::HostType, module) {
        return Some(InvalidKind::ImportType { index });
    }
    None
}

/// What is wrong with what stands behind the imports.
fn first_fault(alloc: Global, module: &Module) -> Result<Option<InvalidKind>, AllocError>
    requires { Clear (tree_of module.now) 3 }
    ensures { IfOk result (λ found. MatchOption found (IsValid (tree_of module.now)) (IsFirstInvalid (tree_of module.now))) }
{
    let all = function_types(alloc, module)?;
    let functions = all.as_slice();
    if let Some(rule) = first_broken(alloc, module, functions)? {
        return Ok(Some(InvalidKind::Rule(rule)));
    }
    if let Some(at) = first_untyped(alloc, module, functions)? {
        let own = module.functions.as_slice();
        let function = function_number(functions, own, module.codes.as_slice(), at);
        return Ok(Some(InvalidKind::Body { function }));
    }
    if !has_apply(module, functions) {
        return Ok(Some(InvalidKind::NoApply));
    }
    Ok(None)
}

/// A module that every rule allows, or the first kind that is wrong with it (section 3.4). The module is dropped on a
/// refusal. The call recurses as deep as blocks are nested.
pub fn validate(alloc: Global, module: Module) -> Result<ValidModule, ValidateError>
    ensures same { IfOk result (λ found. found ≡ «module») }
    ensures valid { IfOk result (λ found. IsValid (tree_of found)) }
    ensures first { IfErr result (Refuses (tree_of «module»)) }
{
    if let Some(kind) = first_refused_import(&module) {
        return Err(ValidateError::Invalid(kind));
    }
    match first_fault(alloc, &module)? {
        Some(kind) => Err(ValidateError::Invalid(kind)),
        None => Ok(ValidModule { module }),
    }
}
