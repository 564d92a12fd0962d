// What native actions cost.
ghost use Rattle.std.specs.Prelude.{◌≡◌, IfOk};
ghost use Rattle.ante_pack.specs.Forms.{whole};
ghost use Rattle.ante_execution.specs.Native.{native_steps, steps_of};
ghost use Rattle.ante_execution.specs.Native.SetCode.{setcode_steps};
ghost use Rattle.ante_execution.specs.NativeData.{setcode};

use crate::setcode::read_setcode;
use ante_execution::NativeAction;
use ante_pack::ReadFault;
use ante_types::{Mode, RunContext};
use std::alloc::{AllocError, Global};

fn setcode_steps(alloc: Global, bytes: &[u8]) -> Result<u64, AllocError>
    ensures { IfOk result (λ n. n ≡ setcode_steps (whole setcode bytes.now)) }
{
    match read_setcode(alloc, bytes) {
        Ok(coded) => Ok(coded.code.len() as u64 / 64),
        Err(ReadFault::Pack(_)) => Ok(0),
        Err(ReadFault::OutOfMemory) => Err(AllocError),
    }
}

fn steps_of(alloc: Global, action: NativeAction, bytes: &[u8]) -> Result<u64, AllocError>
    ensures { IfOk result (λ n. n ≡ steps_of action bytes.now) }
{
    match action {
        NativeAction::SetCode => setcode_steps(alloc, bytes),
        NativeAction::NewAccount
        | NativeAction::SetAbi
        | NativeAction::UpdateAuth
        | NativeAction::DeleteAuth
        | NativeAction::LinkAuth
        | NativeAction::UnlinkAuth => Ok(0),
    }
}

/// The steps that the native action of a run costs: in writing mode setcode pays for its code, right after its data is read.
pub fn native_steps(
    alloc: Global,
    run: &RunContext,
    action: NativeAction,
) -> Result<u64, AllocError>
    ensures { IfOk result (λ n. n ≡ native_steps action run.now) }
{
    match run.mode {
        Mode::Reading => Ok(0),
        Mode::Writing => steps_of(alloc, action, run.action.bytes.as_slice()),
    }
}
