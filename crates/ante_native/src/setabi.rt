// setabi: the description of the account's tables and actions, whatever its bytes.
ghost use Rattle.std.specs.Prelude.{◌≡◌, true, None, IfOk};
ghost use Rattle.ante_pack.specs.Forms.{whole};
ghost use Rattle.ante_calls.specs.Views.{base_of, ReadyFor};
ghost use Rattle.ante_execution.specs.Native.{with_data, by};
ghost use Rattle.ante_execution.specs.Native.SetAbi.{setabi_changes};
ghost use Rattle.ante_execution.specs.NativeData.{setabi};
ghost use Rattle.ante_native.specs.Data.{setabi_of};
ghost use Rattle.ante_native.specs.Parts.{Does, Reads};

use crate::lookups::account;
use crate::parts::{check_acting, data_fault, make};
use ante_execution::NativeFault;
use ante_pack::{Bytes, Name, PackReader, Packed, ReadFault};
use ante_state::AccountRow;
use ante_store::{Change, Tables};
use ante_types::RunContext;
use std::alloc::{AllocError, Global};

#[derive(Drop)]
pub(crate) struct SetAbiData {
    account: Name,
    abi: Bytes,
}

fn read_setabi(alloc: Global, bytes: &[u8]) -> Result<SetAbiData, ReadFault>
    ensures { Reads setabi_of (whole setabi bytes.now) result }
{
    let mut reader = PackReader::new(bytes);
    let account = reader.name()?;
    let abi = Bytes::read_fields(alloc, &mut reader)?;
    reader.end()?;
    Ok(SetAbiData { account, abi })
}

fn with_abi(alloc: Global, row: &AccountRow, abi: Bytes) -> Result<AccountRow, AllocError>
    ensures { IfOk result (λ with. with ≡ record { payer = row.now.payer; privileged = row.now.privileged; code = row.now.code; abi = abi }) }
{
    let code = row.code.try_clone(alloc)?;
    Ok(AccountRow {
        payer: row.payer,
        privileged: row.privileged,
        code,
        abi,
    })
}

fn describe<T: Tables>(
    alloc: Global,
    tables: &mut T,
    run: &RunContext,
    described: SetAbiData,
) -> Result<(), NativeFault>
    requires writing { T.writing tables.old ≡ true }
    requires ready { ReadyFor run.now.mode (T.stack tables.old) (T.writing tables.old) }
    ensures does { Does (by described.account run.now (T.stack tables.old).top (None)
        (setabi_changes (setabi_of described) (T.stack tables.old).top)) result (T.stack tables.new).top }
    ensures base { base_of (T.stack tables.new) (T.writing tables.new) (T.lent tables.new)
        ≡ base_of (T.stack tables.old) (T.writing tables.old) (T.lent tables.old) }
{
    check_acting(tables.store(), described.account, run)?;
    let SetAbiData { account: name, abi } = described;
    let Some(row) = account(tables.store(), name) else {
        return Ok(());
    };
    let row = with_abi(alloc, row, abi)?;
    make(alloc, tables, run, Change::SetAccount { name, row })
}

/// Does it in writing mode.
pub(crate) fn setabi<T: Tables>(
    alloc: Global,
    tables: &mut T,
    run: &RunContext,
) -> Result<(), NativeFault>
    requires writing { T.writing tables.old ≡ true }
    requires ready { ReadyFor run.now.mode (T.stack tables.old) (T.writing tables.old) }
    ensures does { Does (with_data (whole setabi run.now.action.bytes) (λ d. by d.account run.now (T.stack tables.old).top
        (None) (setabi_changes d (T.stack tables.old).top))) result (T.stack tables.new).top }
    ensures base { base_of (T.stack tables.new) (T.writing tables.new) (T.lent tables.new)
        ≡ base_of (T.stack tables.old) (T.writing tables.old) (T.lent tables.old) }
{
    match read_setabi(alloc, run.action.bytes.as_slice()) {
        Ok(described) => describe(alloc, tables, run, described),
        Err(fault) => Err(data_fault(fault)),
    }
}
