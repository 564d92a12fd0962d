ghost use Rattle.std.specs.Prelude.{◌≡◌, IfOk, IfErr, IfSome};
ghost use Rattle.ante_wtree.specs.Trees.{Tree};
ghost use Rattle.ante_wdecode.specs.Sections.{Encodes};
ghost use Rattle.ante_wvalid.specs.Modules.{IsValid};
ghost use Rattle.ante_modcache.specs.Modules.{IsModuleOf, Refuses, IsMemory};

use crate::fault::ModuleError;
use ante_pack::Bytes;
use ante_wdecode::decode;
use ante_wvalid::{ValidModule, validate};
use std::alloc::{AllocError, Global};
use std::marker::Model;

/// A code, and a module that was validated.
#[derive(Drop)]
pub struct Coded {
    pub code: Bytes,
    pub valid: ValidModule,
}

/// A code and the module that it encodes.
#[derive(Drop)]
pub struct Cached {
    coded: Coded,
}

impl Model for Cached {
    ghost use Rattle.ante_modcache.specs.declared.cached.Coded.{Coded};

    ghost Value = { Coded };

    ghost use Rattle.std.specs.Coded.{codes};
    ghost use Rattle.ante_wtree.specs.contracts.instructions.Instr as instr;

    ghost coded = { Prim.hlevel (codes, instr.the_row.coded) };

    ghost use Rattle.ante_modcache.specs.Modules.{IsModuleOf};

    ghost view = { λ c. c.coded };

    ghost invariant = { λ c. IsModuleOf c.coded.code c.coded.valid };
}

impl Cached {
    /// A copy of the code, and the module that it encodes.
    pub fn new(alloc: Global, code: &[u8], valid: ValidModule) -> Result<Cached, AllocError>
        requires { IsModuleOf code.now valid }
        ensures { IfOk result (λ c. c ≡ record { code = code.now; valid = valid }) }
    {
        let code = Bytes::from_slice(alloc, code)?;
        let coded = Coded { code, valid };
        Ok(Cached { coded })
    }

    /// The module, where it is this code's.
    pub fn module_of(&self, code: &[u8]) -> Option<&ValidModule>
        ensures { IfSome result (λ m. IsModuleOf code.now m.now) }
    {
        if self.coded.code.as_slice() == code {
            Some(self.module())
        } else {
            None
        }
    }

    /// The module of the code beside it.
    pub fn module(&self) -> &ValidModule
        ensures same { result.now ≡ self.now.valid }
        ensures decoded { IsModuleOf self.now.code result.now }
    {
        &self.coded.valid
    }

    /// The module alone.
    pub fn into_module(self) -> ValidModule
        ensures { result ≡ self.valid }
    {
        let Cached { coded } = self;
        let Coded { code: _, valid } = coded;
        valid
    }
}

/// The module that a code encodes, validated.
pub fn decoded(alloc: Global, code: &[u8]) -> Result<ValidModule, ModuleError>
    ensures found { IfOk result (λ m. IsModuleOf code.now m) }
    ensures refused { IfErr result (Refuses code.now) }
    ensures accepted { (m : Tree) → Encodes m code.now → IsValid m → IfErr result IsMemory }
{
    let module = decode(alloc, code)?;
    Ok(validate(alloc, module)?)
}
