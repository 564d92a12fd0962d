// unlinkauth: takes a link away.
ghost use Rattle.std.specs.Prelude.{◌≡◌, true};
ghost use Rattle.ante_pack.specs.Forms.{whole};
ghost use Rattle.ante_calls.specs.Views.{base_of, ReadyFor};
ghost use Rattle.ante_execution.specs.Native.{with_data, by};
ghost use Rattle.ante_execution.specs.Native.UnlinkAuth.{unlinkauth_refusal, unlinkauth_changes};
ghost use Rattle.ante_execution.specs.NativeData.{unlinkauth};
ghost use Rattle.ante_native.specs.Data.{unlinkauth_of};
ghost use Rattle.ante_native.specs.Parts.{Passes, Does, Reads};

use crate::lookups::link;
use crate::parts::{check_acting, data_fault, make};
use ante_execution::NativeFault;
use ante_pack::{Name, PackReader, ReadFault};
use ante_store::{Change, Store, Tables};
use ante_types::{Failure, RunContext};
use std::alloc::Global;

#[derive(Clone, Copy)]
pub(crate) struct UnlinkAuthData {
    account: Name,
    code: Name,
    action: Name,
}

fn read_unlinkauth(bytes: &[u8]) -> Result<UnlinkAuthData, ReadFault>
    ensures { Reads unlinkauth_of (whole unlinkauth bytes.now) result }
{
    let mut reader = PackReader::new(bytes);
    let account = reader.name()?;
    let code = reader.name()?;
    let action = reader.name()?;
    reader.end()?;
    Ok(UnlinkAuthData {
        account,
        code,
        action,
    })
}

fn check_unlinkauth(store: &Store, unlinked: &UnlinkAuthData) -> Result<(), NativeFault>
    ensures { Passes (unlinkauth_refusal (unlinkauth_of unlinked.now) store.now.top) result }
{
    if link(store, unlinked.account, unlinked.code, unlinked.action).is_some() {
        Ok(())
    } else {
        Err(NativeFault::Failed(Failure::Native { rule: 7 }))
    }
}

fn unlink<T: Tables>(
    alloc: Global,
    tables: &mut T,
    run: &RunContext,
    unlinked: &UnlinkAuthData,
) -> Result<(), NativeFault>
    requires writing { T.writing tables.old ≡ true }
    requires ready { ReadyFor run.now.mode (T.stack tables.old) (T.writing tables.old) }
    ensures does { Does (by unlinked.now.account run.now (T.stack tables.old).top (unlinkauth_refusal (unlinkauth_of unlinked.now) (T.stack tables.old).top)
        (unlinkauth_changes (unlinkauth_of unlinked.now))) result (T.stack tables.new).top }
    ensures base { base_of (T.stack tables.new) (T.writing tables.new) (T.lent tables.new)
        ≡ base_of (T.stack tables.old) (T.writing tables.old) (T.lent tables.old) }
{
    check_acting(tables.store(), unlinked.account, run)?;
    check_unlinkauth(tables.store(), unlinked)?;
    let change = Change::SetLink {
        account: unlinked.account,
        code: unlinked.code,
        action: unlinked.action,
        requirement: None,
    };
    make(alloc, tables, run, change)
}

/// Does it in writing mode.
pub(crate) fn unlinkauth<T: Tables>(
    alloc: Global,
    tables: &mut T,
    run: &RunContext,
) -> Result<(), NativeFault>
    requires writing { T.writing tables.old ≡ true }
    requires ready { ReadyFor run.now.mode (T.stack tables.old) (T.writing tables.old) }
    ensures does { Does (with_data (whole unlinkauth run.now.action.bytes) (λ d. by d.account run.now (T.stack tables.old).top
        (unlinkauth_refusal d (T.stack tables.old).top) (unlinkauth_changes d))) result (T.stack tables.new).top }
    ensures base { base_of (T.stack tables.new) (T.writing tables.new) (T.lent tables.new)
        ≡ base_of (T.stack tables.old) (T.writing tables.old) (T.lent tables.old) }
{
    match read_unlinkauth(run.action.bytes.as_slice()) {
        Ok(unlinked) => unlink(alloc, tables, run, &unlinked),
        Err(fault) => Err(data_fault(fault)),
    }
}
