// setcode: the account's code, which is taken away where there is none.
ghost use Rattle.std.specs.Prelude.{◌≡◌, ◌==◌, ◌&&◌, not, length, ℕ, Bool, List, None, Some, true, IfOk, if◌then◌else◌};
ghost use Rattle.ante_pack.specs.Forms.{whole};
ghost use Rattle.ante_types.specs.declared.failure.Failure.TheVariants as failure;
ghost use Rattle.ante_calls.specs.Views.{base_of, ReadyFor};
ghost use Rattle.ante_execution.specs.Codes.{Accepts};
ghost use Rattle.ante_execution.specs.Native.{with_data, by};
ghost use Rattle.ante_execution.specs.Native.SetCode.{setcode_refusal, setcode_changes};
ghost use Rattle.ante_execution.specs.NativeData.{setcode};
ghost use Rattle.ante_native.specs.Data.{setcode_of};
ghost use Rattle.ante_native.specs.Parts.{Passes, Does, Reads};

use crate::codes::may_be_code;
use crate::lookups::account;
use crate::parts::{check_acting, data_fault, make};
use ante_execution::NativeFault;
use ante_pack::{Bytes, Name, PackReader, Packed, ReadFault};
use ante_state::AccountRow;
use ante_store::{Change, Tables};
use ante_types::{Failure, Label, RunContext};
use std::alloc::{AllocError, Global};

#[derive(Drop)]
pub(crate) struct SetCodeData {
    account: Name,
    vmtype: u8,
    vmversion: u8,
    pub(crate) code: Bytes,
}

pub(crate) fn read_setcode(alloc: Global, bytes: &[u8]) -> Result<SetCodeData, ReadFault>
    ensures { Reads setcode_of (whole setcode bytes.now) result }
{
    let mut reader = PackReader::new(bytes);
    let account = reader.name()?;
    let vmtype = reader.u8()?;
    let vmversion = reader.u8()?;
    let code = Bytes::read_fields(alloc, &mut reader)?;
    reader.end()?;
    Ok(SetCodeData {
        account,
        vmtype,
        vmversion,
        code,
    })
}

fn is_supported(coded: &SetCodeData) -> bool
    ensures { result ≡ (coded.now.vmtype == 0 && coded.now.vmversion == 0) }
{
    coded.vmtype == 0 && coded.vmversion == 0
}

fn check_code(alloc: Global, code: &[u8]) -> Result<(), NativeFault>
    ensures { (accepts : List ℕ → Bool) → Accepts accepts →
        Passes (if not (length code.now == 0) && not (accepts code.now) then Some failure.BadCode else None) result }
{
    if may_be_code(alloc, code)? {
        Ok(())
    } else {
        Err(NativeFault::Failed(Failure::BadCode))
    }
}

fn check_setcode(alloc: Global, coded: &SetCodeData) -> Result<(), NativeFault>
    ensures { (accepts : List ℕ → Bool) → Accepts accepts → Passes (setcode_refusal accepts (setcode_of coded.now)) result }
{
    if !is_supported(coded) {
        let field = Label::new(alloc, b"vm")?;
        return Err(NativeFault::Failed(Failure::Unsupported { field }));
    }
    check_code(alloc, coded.code.as_slice())
}

fn with_code(alloc: Global, row: &AccountRow, code: Bytes) -> Result<AccountRow, AllocError>
    ensures { IfOk result (λ with. with ≡ record { payer = row.now.payer; privileged = row.now.privileged; code = code; abi = row.now.abi }) }
{
    let abi = row.abi.try_clone(alloc)?;
    Ok(AccountRow {
        payer: row.payer,
        privileged: row.privileged,
        code,
        abi,
    })
}

fn code_account<T: Tables>(
    alloc: Global,
    tables: &mut T,
    run: &RunContext,
    coded: SetCodeData,
) -> Result<(), NativeFault>
    requires writing { T.writing tables.old ≡ true }
    requires ready { ReadyFor run.now.mode (T.stack tables.old) (T.writing tables.old) }
    ensures does { (accepts : List ℕ → Bool) → Accepts accepts → Does (by coded.account run.now (T.stack tables.old).top (setcode_refusal accepts (setcode_of coded))
        (setcode_changes (setcode_of coded) (T.stack tables.old).top)) result (T.stack tables.new).top }
    ensures base { base_of (T.stack tables.new) (T.writing tables.new) (T.lent tables.new)
        ≡ base_of (T.stack tables.old) (T.writing tables.old) (T.lent tables.old) }
{
    check_acting(tables.store(), coded.account, run)?;
    check_setcode(alloc, &coded)?;
    let SetCodeData {
        account: name,
        vmtype: _,
        vmversion: _,
        code,
    } = coded;
    let Some(row) = account(tables.store(), name) else {
        return Ok(());
    };
    let row = with_code(alloc, row, code)?;
    make(alloc, tables, run, Change::SetAccount { name, row })
}

/// Does it in writing mode.
pub(crate) fn setcode<T: Tables>(
    alloc: Global,
    tables: &mut T,
    run: &RunContext,
) -> Result<(), NativeFault>
    requires writing { T.writing tables.old ≡ true }
    requires ready { ReadyFor run.now.mode (T.stack tables.old) (T.writing tables.old) }
    ensures does { (accepts : List ℕ → Bool) → Accepts accepts → Does (with_data (whole setcode run.now.action.bytes) (λ d. by d.account run.now (T.stack tables.old).top
        (setcode_refusal accepts d) (setcode_changes d (T.stack tables.old).top))) result (T.stack tables.new).top }
    ensures base { base_of (T.stack tables.new) (T.writing tables.new) (T.lent tables.new)
        ≡ base_of (T.stack tables.old) (T.writing tables.old) (T.lent tables.old) }
{
    match read_setcode(alloc, run.action.bytes.as_slice()) {
        Ok(coded) => code_account(alloc, tables, run, coded),
        Err(fault) => Err(data_fault(fault)),
    }
}
