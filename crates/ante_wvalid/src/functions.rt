ghost use Rattle.std.specs.Prelude.{◌≡◌, ◌↔◌, ◌⊎◌, ℕ, ◌+◌, ◌-◌, ◌<◌, ◌≤◌, [], ◌∷◌, IsTrue, IfOk, MatchOption, length, slice_get};
ghost use Rattle.std.specs.Option.{option_copied};
ghost use Rattle.ante_wtree.specs.Expressions.{expression_of};
ghost use Rattle.ante_wtree.specs.Trees.{tree_of};
ghost use Rattle.ante_wtree.specs.Types.{kinds_of, result_of};
ghost use Rattle.ante_wvalid.specs.Typing.{Typed};
ghost use Rattle.ante_wvalid.specs.OperandStacks.{context_in};
ghost use Rattle.ante_wvalid.specs.Modules.{IsFunctionTyped, IsUntyped, FindsFirst, is_there, function_types};

use crate::bodies::sequence;
use crate::scope::{Scope, numbered};
use ante_stack::Stack;
use ante_wtree::{Code, Instr, Module, result_of};
use std::alloc::{AllocError, Global};

fn is_there<T>(items: &[T]) -> bool
    ensures { result ≡ is_there items.now }
{
    !items.is_empty()
}

/// Whether a function's body leaves its result; its one label is the result's.
fn is_body_typed(alloc: Global, scope: &Scope<'_>, body: &[Instr]) -> Result<bool, AllocError>
    ensures { IfOk result (λ typed. IsTrue typed ↔ Typed (context_in scope.now (scope.now.result ∷ [])) (expression_of body.now) []
        (kinds_of scope.now.result)) }
{
    let mut labels = Stack::new(alloc);
    labels.push(alloc, scope.result)?;
    let typed = sequence(scope, &mut labels, alloc, body, scope.result)?;
    Ok(typed)
}

fn code_at(codes: &[Code], at: usize) -> Option<&Code>
    ensures { option_copied result ≡ slice_get codes.now at }
{
    codes.get(at)
}

fn number_at(numbers: &[u32], at: usize) -> Option<u32>
    ensures { result ≡ slice_get numbers.now at }
{
    numbers.get(at).copied()
}

/// Whether the own function at this place has a type and a body that is typed.
fn is_typed(
    alloc: Global,
    module: &Module,
    functions: &[u32],
    at: usize,
) -> Result<bool, AllocError>
    requires { functions.now ≡ function_types (tree_of module.now) }
    ensures { IfOk result (λ typed. IsTrue typed ↔ IsFunctionTyped (tree_of module.now) at) }
{
    let types = module.types.as_slice();
    let Some(number) = number_at(module.functions.as_slice(), at) else {
        return Ok(false);
    };
    let Some(found) = numbered(types, number) else {
        return Ok(false);
    };
    let Some(code) = code_at(module.codes.as_slice(), at) else {
        return Ok(false);
    };
    let scope = Scope {
        types,
        functions,
        table: is_there(module.table.as_slice()),
        memory: is_there(module.memory.as_slice()),
        globals: module.globals.as_slice(),
        params: found.params.as_slice(),
        locals: code.locals.as_slice(),
        result: result_of(found.results.as_slice()),
    };
    let typed = is_body_typed(alloc, &scope, code.body.as_slice())?;
    Ok(typed)
}

/// How many places there are, with an own function or a body.
fn places(module: &Module) -> usize
    ensures { (at : ℕ) → (at < result) ↔ ((at < length (tree_of module.now).functions) ⊎ (at < length (tree_of module.now).codes)) }
{
    let functions = module.functions.len();
    let codes = module.codes.len();
    if functions < codes { codes } else { functions }
}

/// The first place where there is an own function or a body, and no typed function.
pub fn first_untyped(
    alloc: Global,
    module: &Module,
    functions: &[u32],
) -> Result<Option<usize>, AllocError>
    requires { functions.now ≡ function_types (tree_of module.now) }
    ensures { IfOk result (FindsFirst (λ at. at) (IsUntyped (tree_of module.now))) }
{
    let count = places(module);
    let mut at = 0;
    'functions: while at < count {
        if !is_typed(alloc, module, functions, at)? {
            return Ok(Some(at));
        }
        at += 1;
    }
    Ok(None)
}

/// The number of the own function at this place, after the imported ones.
pub fn function_number(functions: &[u32], own: &[u32], codes: &[Code], at: usize) -> usize
    requires own { length own.now ≤ length functions.now }
    requires there { (at < length own.now) ⊎ (at < length codes.now) }
    ensures { result ≡ length functions.now - length own.now + at }
{
    prove!(at < own.len() || at < codes.len());
    functions.len() - own.len() + at
}
