// Which codes are accepted: those that encode a valid module.
ghost use Rattle.std.specs.Prelude.{◌≡◌, ℕ, Bool, List, length, ◌==◌, ◌||◌, IfOk};
ghost use Rattle.ante_execution.specs.Codes.{Accepts};

use ante_wdecode::{DecodeError, decode};
use ante_wvalid::{ValidateError, validate};
use std::alloc::{AllocError, Global};

/// Whether the code decodes, and the module is valid.
pub(crate) fn is_accepted(alloc: Global, code: &[u8]) -> Result<bool, AllocError>
    ensures { (accepts : List ℕ → Bool) → Accepts accepts → IfOk result (λ may. may ≡ accepts code.now) }
{
    match decode(alloc, code) {
        Ok(module) => match validate(alloc, module) {
            Ok(_) => Ok(true),
            Err(ValidateError::OutOfMemory) => Err(AllocError),
            Err(ValidateError::Invalid(_)) => Ok(false),
        },
        Err(DecodeError::OutOfMemory) => Err(AllocError),
        Err(DecodeError::Fault { .. }) => Ok(false),
    }
}

/// Whether an account may have the code: it may have none.
pub(crate) fn may_be_code(alloc: Global, code: &[u8]) -> Result<bool, AllocError>
    ensures { (accepts : List ℕ → Bool) → Accepts accepts → IfOk result (λ may. may ≡ (length code.now == 0 || accepts code.now)) }
{
    if code.is_empty() {
        Ok(true)
    } else {
        is_accepted(alloc, code)
    }
}
