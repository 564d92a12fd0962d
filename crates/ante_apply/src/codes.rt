// The codes of accounts, and their modules.
ghost use Rattle.std.specs.Prelude.{◌≡◌, ◌≤◌, ℕ, Bool, List, IfOk};
ghost use Rattle.ante_apply.specs.Codes.{IsModuleFor};
ghost use Rattle.ante_execution.specs.Codes.{Accepts, codes_with, least_pages};
ghost use Rattle.ante_execution.specs.Runs.{code_at, first_steps};
ghost use Rattle.ante_wtree.specs.Trees.{tree_of};

use ante_modcache::{ModuleCache, ModuleError, ModuleRef};
use ante_pack::Name;
use ante_store::Store;
use ante_wtree::Module;
use std::alloc::{AllocError, Global};

// The code of the account, which is empty where there is no account.
pub(crate) fn code_at(store: &Store, name: Name) -> &[u8]
    ensures { result.now ≡ code_at name store.now.top }
{
    match store.objects().account(name) {
        Some(row) => row.code.as_slice(),
        None => &[],
    }
}

// The module of the code, if it is accepted.
pub(crate) fn module_for<'a>(
    alloc: Global,
    modules: &'a ModuleCache,
    code: &[u8],
) -> Result<Option<ModuleRef<'a>>, AllocError>
    ensures { (accepts : List ℕ → Bool) → Accepts accepts → IfOk result (IsModuleFor accepts code.now) }
{
    match modules.module(alloc, code) {
        Ok(module) => Ok(Some(module)),
        Err(ModuleError::BadCode(_)) => Ok(None),
        Err(ModuleError::OutOfMemory) => Err(AllocError),
    }
}

fn least_pages(module: &Module) -> u32
    ensures { result ≡ least_pages (tree_of module.now).memory }
{
    match module.memory.get(0) {
        Some(limits) => limits.least,
        None => 0,
    }
}

fn pages(alloc: Global, modules: &ModuleCache, code: &[u8]) -> Result<u32, AllocError>
    ensures { (accepts : List ℕ → Bool) → Accepts accepts → IfOk result (λ n. n ≡ (codes_with accepts).pages code.now) }
{
    match module_for(alloc, modules, code)? {
        Some(module) => Ok(least_pages(module.get().module())),
        None => Ok(0),
    }
}

/// The steps that a run of this code begins with: one, and the pages of its memory.
pub(crate) fn first_steps(
    alloc: Global,
    modules: &ModuleCache,
    code: &[u8],
) -> Result<u64, AllocError>
    ensures steps { (accepts : List ℕ → Bool) → Accepts accepts → IfOk result (λ n. n ≡ first_steps (codes_with accepts) code.now) }
    ensures one { IfOk result (λ n. 1 ≤ n) }
{
    if code.is_empty() {
        return Ok(1);
    }
    let pages = pages(alloc, modules, code)?;
    Ok(1 + u64::from(pages))
}
