ghost use Rattle.std.specs.Prelude.{◌≡◌, IfOk, IfErr};
ghost use Rattle.ante_wtree.specs.Trees.{Tree};
ghost use Rattle.ante_wdecode.specs.Sections.{Encodes};
ghost use Rattle.ante_wvalid.specs.Modules.{IsValid};
ghost use Rattle.ante_modcache.specs.Modules.{IsModuleOf, Refuses, IsMemory};
ghost use Rattle.ante_modcache.specs.References.{module_in};

use crate::cached::{Cached, decoded};
use crate::fault::ModuleError;
use ante_wvalid::ValidModule;
use once_cell::race::OnceBox;
use sha2::{Digest as _, Sha256};
use std::alloc::{AllocError, Global};
use std::array;

/// Modules by their code, in 256 places that are named by the first byte of the code's SHA-256. A place is filled at most
/// once, by the first code that asks for it. No call waits, so many threads may ask at once.
#[derive(Drop)]
pub struct ModuleCache {
    places: Box<[OnceBox<Cached>; 256]>,
}

/// A validated module.
#[derive(Drop)]
pub enum ModuleRef<'a> {
    /// The one that the cache keeps.
    Place(&'a ValidModule),
    /// Made afresh, since its place holds another code, or was filled meanwhile by another thread.
    Own(ValidModule),
}

impl ModuleRef<'_> {
    /// The module, kept or own.
    pub fn get(&self) -> &ValidModule
        ensures { result.now ≡ module_in self.now }
    {
        match self {
            ModuleRef::Place(module) => module,
            ModuleRef::Own(module) => module,
        }
    }
}

impl ModuleCache {
    /// A cache of empty places.
    pub fn new(alloc: Global) -> Result<ModuleCache, AllocError> {
        let places = Box::new(alloc, array::from_fn(move |_| OnceBox::new(alloc)))?;
        Ok(ModuleCache { places })
    }

    /// The place that is named for the code; codes share it.
    fn place(&self, code: &[u8]) -> &OnceBox<Cached> {
        let digest = Sha256::digest(code);
        &self.places[usize::from(digest[0])]
    }

    /// The module of the code. The first valid code that asks for its place is given `Place` from that call on, and every other
    /// code that the place is named for `Own`.
    pub fn module(&self, alloc: Global, code: &[u8]) -> Result<ModuleRef<'_>, ModuleError>
        ensures found { IfOk result (λ m. IsModuleOf code.now (module_in m)) }
        ensures refused { IfErr result (Refuses code.now) }
        ensures accepted { (m : Tree) → Encodes m code.now → IsValid m → IfErr result IsMemory }
    {
        let place = self.place(code);
        match place.get() {
            Some(cached) => match cached.module_of(code) {
                Some(module) => Ok(ModuleRef::Place(module)),
                None => Ok(ModuleRef::Own(decoded(alloc, code)?)),
            },
            None => fill(place, alloc, code),
        }
    }
}

/// Puts the module of the code into the place, unless another was faster.
fn fill<'a>(
    place: &'a OnceBox<Cached>,
    alloc: Global,
    code: &[u8],
) -> Result<ModuleRef<'a>, ModuleError>
    ensures found { IfOk result (λ m. IsModuleOf code.now (module_in m)) }
    ensures refused { IfErr result (Refuses code.now) }
    ensures accepted { (m : Tree) → Encodes m code.now → IsValid m → IfErr result IsMemory }
{
    let module = decoded(alloc, code)?;
    let cached = Box::new(alloc, Cached::new(alloc, code, module)?)?;
    let mut note = place.note();
    if let Err(back) = place.set_as(cached, &mut note) {
        return Ok(ModuleRef::Own(Box::into_inner(back).into_module()));
    }
    match place.get_as(&mut note) {
        Some(cached) => Ok(ModuleRef::Place(cached.module())),
        None => unreachable!(),
    }
}
