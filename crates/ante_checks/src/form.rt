//! The form of a transaction.
ghost use Rattle.std.specs.Prelude.{◌≡◌, ℕ, nat_lt, Some, IfOk, IsTrue};
ghost use Rattle.ante_calls.specs.Calls.{unsupported};
ghost use Rattle.ante_execution.specs.Transactions.{form_refusal};
ghost use Rattle.ante_types.specs.Labels.{is_label};
ghost use Rattle.ante_types.specs.Limits.{most_transaction_bytes};

use ante_types::{Failure, Label, Transaction};
use std::alloc::{AllocError, Global};

fn unsupported(alloc: Global, field: &[u8]) -> Result<Option<Failure>, AllocError>
    requires { IsTrue (is_label field.now) }
    ensures { IfOk result (λ f. f ≡ Some (unsupported field.now)) }
{
    let field = Label::new(alloc, field)?;
    Ok(Some(Failure::Unsupported { field }))
}

/// It has an action, nothing that isn't supported, and isn't too big.
pub(crate) fn check_form(
    alloc: Global,
    is_too_big: bool,
    trx: &Transaction,
) -> Result<Option<Failure>, AllocError>
    ensures { (size : ℕ) → is_too_big ≡ nat_lt most_transaction_bytes size → IfOk result (λ refusal. refusal ≡ form_refusal size trx.now) }
{
    if trx.actions.len() == 0 {
        return Ok(Some(Failure::NoAction));
    }
    if trx.context_free_actions.len() != 0 {
        return unsupported(alloc, b"context_free_actions");
    }
    if trx.delay_sec != 0 {
        return unsupported(alloc, b"delay_sec");
    }
    if trx.extensions.len() != 0 {
        return unsupported(alloc, b"extensions");
    }
    if is_too_big {
        return Ok(Some(Failure::TooBig));
    }
    Ok(None)
}
