// newaccount: a new account with its two permissions. The account is billed to the creator, the permissions to it.
ghost use Rattle.std.specs.Prelude.{◌≡◌, false, true, [], Some};
ghost use Rattle.ante_pack.specs.Forms.{whole};
ghost use Rattle.ante_store.specs.declared.change.Change.TheVariants as change;
ghost use Rattle.ante_calls.specs.Views.{base_of, ReadyFor};
ghost use Rattle.ante_execution.specs.Native.{with_data, by};
ghost use Rattle.ante_execution.specs.Native.NewAccount.{may_be_named, newaccount_refusal, newaccount_changes};
ghost use Rattle.ante_execution.specs.NativeData.{newaccount};
ghost use Rattle.ante_native.specs.Data.{newaccount_of};
ghost use Rattle.ante_native.specs.Parts.{Passes, Does, Reads};

use crate::authority::{PresentThen, check_authority};
use crate::lookups::{is_account, is_reserved, is_system};
use crate::parts::{check_acting, data_fault, make_three};
use ante_execution::{ACTIVE, NativeFault, OWNER};
use ante_pack::{Authority, Bytes, Level, Name, PackReader, Packed, ReadFault};
use ante_state::{AccountRow, PermissionRow};
use ante_store::{Change, Store, Tables};
use ante_types::{Failure, RunContext};
use std::alloc::Global;

#[derive(Drop)]
pub(crate) struct NewAccountData {
    creator: Name,
    name: Name,
    owner: Authority,
    active: Authority,
}

fn read_newaccount(alloc: Global, bytes: &[u8]) -> Result<NewAccountData, ReadFault>
    ensures { Reads newaccount_of (whole newaccount bytes.now) result }
{
    let mut reader = PackReader::new(bytes);
    let creator = reader.name()?;
    let name = reader.name()?;
    let owner = Authority::read_fields(alloc, &mut reader)?;
    let active = Authority::read_fields(alloc, &mut reader)?;
    reader.end()?;
    Ok(NewAccountData {
        creator,
        name,
        owner,
        active,
    })
}

fn may_be_named(asked: &NewAccountData) -> bool
    ensures { result ≡ may_be_named (newaccount_of asked.now) }
{
    asked.name.0 != 0
        && asked.name.0 % 16 == 0
        && (!is_reserved(asked.name) || is_system(asked.creator))
}

fn check_newaccount(alloc: Global, store: &Store, asked: &NewAccountData) -> Result<(), NativeFault>
    ensures { Passes (newaccount_refusal (newaccount_of asked.now) store.now.top) result }
{
    if is_account(store, asked.name) || !may_be_named(asked) {
        return Err(NativeFault::Failed(Failure::Native { rule: 2 }));
    }
    let levels = PresentThen {
        store,
        name: asked.name,
    };
    check_authority(alloc, &levels, &asked.owner)?;
    check_authority(alloc, &levels, &asked.active)
}

// The account as it begins, without code and description.
fn account(alloc: Global, name: Name, payer: Name) -> Change
    ensures { result ≡ change.SetAccount name (record { payer = payer; privileged = false; code = []; abi = [] }) }
{
    Change::SetAccount {
        name,
        row: AccountRow {
            payer,
            privileged: false,
            code: Bytes::new(alloc),
            abi: Bytes::new(alloc),
        },
    }
}

fn permission(actor: Name, permission: Name, parent: Name, authority: Authority) -> Change
    ensures { result ≡ change.SetPermission (record { actor = actor; permission = permission }) (Some (record { parent = parent; authority = authority })) }
{
    Change::SetPermission {
        level: Level { actor, permission },
        row: Some(PermissionRow { parent, authority }),
    }
}

#[tactic(auto, unfolding(ante_pack::specs::Names::name_number, ante_pack::specs::Names::number_of))]
fn create<T: Tables>(
    alloc: Global,
    tables: &mut T,
    run: &RunContext,
    asked: NewAccountData,
) -> Result<(), NativeFault>
    requires writing { T.writing tables.old ≡ true }
    requires ready { ReadyFor run.now.mode (T.stack tables.old) (T.writing tables.old) }
    ensures does { Does (by asked.creator run.now (T.stack tables.old).top (newaccount_refusal (newaccount_of asked) (T.stack tables.old).top)
        (newaccount_changes (newaccount_of asked))) result (T.stack tables.new).top }
    ensures base { base_of (T.stack tables.new) (T.writing tables.new) (T.lent tables.new)
        ≡ base_of (T.stack tables.old) (T.writing tables.old) (T.lent tables.old) }
{
    check_acting(tables.store(), asked.creator, run)?;
    check_newaccount(alloc, tables.store(), &asked)?;
    let NewAccountData {
        creator,
        name,
        owner,
        active,
    } = asked;
    let first = account(alloc, name, creator);
    let second = permission(name, OWNER, Name(0), owner);
    let third = permission(name, ACTIVE, OWNER, active);
    make_three(alloc, tables, run, first, second, third)
}

/// Does it in writing mode.
pub(crate) fn newaccount<T: Tables>(
    alloc: Global,
    tables: &mut T,
    run: &RunContext,
) -> Result<(), NativeFault>
    requires writing { T.writing tables.old ≡ true }
    requires ready { ReadyFor run.now.mode (T.stack tables.old) (T.writing tables.old) }
    ensures does { Does (with_data (whole newaccount run.now.action.bytes) (λ d. by d.creator run.now (T.stack tables.old).top
        (newaccount_refusal d (T.stack tables.old).top) (newaccount_changes d))) result (T.stack tables.new).top }
    ensures base { base_of (T.stack tables.new) (T.writing tables.new) (T.lent tables.new)
        ≡ base_of (T.stack tables.old) (T.writing tables.old) (T.lent tables.old) }
{
    match read_newaccount(alloc, run.action.bytes.as_slice()) {
        Ok(asked) => create(alloc, tables, run, asked),
        Err(fault) => Err(data_fault(fault)),
    }
}
