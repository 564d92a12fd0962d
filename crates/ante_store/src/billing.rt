// What is billed, taken out of the usage of accounts and added to it.
ghost use Rattle.std.specs.Prelude.{◌≡◌, ◌+◌, ◌-◌, ◌<◌, ◌≤◌, [], Err, OnOk, OnErr, IfErr, IsTrue, ◌↔◌};
ghost use Rattle.std.specs.FinMap.Entries.{find, is_sorted};
ghost use Rattle.ante_undo.specs.Stack.{with_top, IsAbove};
ghost use Rattle.ante_state.specs.Orders.{name_order};
ghost use Rattle.ante_state.specs.Billing.{most_usage};
ghost use Rattle.ante_ram.specs.Usage.{used_of, usage_sum};
ghost use Rattle.ante_ram.specs.declared.usage.RamFault.TheVariants.{OutOfMemory, RamTotal};
ghost use Rattle.ante_store.specs.Bills.{paid, sizes, lowered, raised, IsRebilled};
ghost use Rattle.ante_store.specs.Worlds.{IsBilled};
ghost use Rattle.ante_store.specs.Applied.{IsUnpaid, with_usage};

use crate::bills::{Bill, Bills};
use crate::change::WriteError;
use crate::parts::Parts;
use ante_pack::Name;
use ante_ram::{RamFault, Usage};
use ante_state::billing::MOST_USAGE;
use std::alloc::Global;

fn lower(alloc: Global, usage: &mut Usage, payer: Name, size: u128) -> Result<(), RamFault>
    requires above { IsAbove 1 usage.old }
    requires small { usage_sum usage.old.top ≤ most_usage }
    requires within { size ≤ used_of (find name_order payer usage.old.top) }
    requires fits { size ≤ most_usage }
    ensures ok { OnOk result (usage.new ≡ with_top (lowered payer size usage.old.top) usage.old) }
    ensures fault { IfErr result (λ fault. fault ≡ OutOfMemory) }
    ensures err { OnErr result (usage.new ≡ usage.old) }
{
    usage.add(alloc, payer, -(size as i64))
}

fn raise(alloc: Global, usage: &mut Usage, payer: Name, size: u128) -> Result<(), RamFault>
    requires above { IsAbove 1 usage.old }
    ensures ok { OnOk result (usage.new ≡ with_top (raised payer size usage.old.top) usage.old) }
    ensures total { (result ≡ Err RamTotal) ↔ (most_usage < usage_sum usage.old.top + size) }
    ensures small { OnOk result (usage_sum usage.old.top + size ≤ most_usage) }
    ensures err { OnErr result (usage.new ≡ usage.old) }
{
    if size > MOST_USAGE as u128 {
        return Err(RamFault::RamTotal);
    }
    usage.add(alloc, payer, size as i64)
}

/// Takes bills out of the usage, which holds them.
pub(crate) fn lower_all(alloc: Global, usage: &mut Usage, bills: &[Bill]) -> Result<(), RamFault>
    requires above { IsAbove 1 usage.old }
    requires sorted { IsTrue (is_sorted name_order usage.old.top) }
    requires small { usage_sum usage.old.top ≤ most_usage }
    requires within { (account : Name) → paid account bills.now ≤ used_of (find name_order account usage.old.top) }
    ensures ok { OnOk result (IsRebilled bills.now [] usage.old.top usage.new.top) }
    ensures top { usage.new ≡ with_top usage.new.top usage.old }
    ensures fault { IfErr result (λ fault. fault ≡ OutOfMemory) }
{
    for (payer, size) in bills {
        lower(alloc, usage, *payer, *size)?;
    }
    Ok(())
}

/// Adds bills to the usage.
pub(crate) fn raise_all(alloc: Global, usage: &mut Usage, bills: &[Bill]) -> Result<(), RamFault>
    requires above { IsAbove 1 usage.old }
    requires sorted { IsTrue (is_sorted name_order usage.old.top) }
    requires small { usage_sum usage.old.top ≤ most_usage }
    ensures ok { OnOk result (IsRebilled [] bills.now usage.old.top usage.new.top) }
    ensures top { usage.new ≡ with_top usage.new.top usage.old }
    ensures total { result ≡ Err RamTotal → most_usage < usage_sum usage.old.top + sizes bills.now }
    ensures small { OnOk result (usage_sum usage.old.top + sizes bills.now ≤ most_usage) }
{
    for (payer, size) in bills {
        raise(alloc, usage, *payer, *size)?;
    }
    Ok(())
}

/// Takes bills out of the usage, which holds them, and adds others.
fn exchange(
    alloc: Global,
    usage: &mut Usage,
    removed: &Bills,
    added: &Bills,
) -> Result<(), RamFault>
    requires above { IsAbove 1 usage.old }
    requires sorted { IsTrue (is_sorted name_order usage.old.top) }
    requires small { usage_sum usage.old.top ≤ most_usage }
    requires within { (account : Name) → paid account removed.now ≤ used_of (find name_order account usage.old.top) }
    ensures ok { OnOk result (IsRebilled removed.now added.now usage.old.top usage.new.top) }
    ensures top { usage.new ≡ with_top usage.new.top usage.old }
    ensures total { result ≡ Err RamTotal → most_usage + sizes removed.now < usage_sum usage.old.top + sizes added.now }
    ensures small { OnOk result (usage_sum usage.new.top ≤ most_usage) }
{
    lower_all(alloc, usage, removed.as_slice())?;
    raise_all(alloc, usage, added.as_slice())
}

/// Takes bills out of what accounts use, and adds others. Nothing else changes.
pub(crate) fn rebill(
    alloc: Global,
    parts: &mut Parts,
    removed: &Bills,
    added: &Bills,
) -> Result<(), WriteError>
    requires above { IsAbove 1 parts.old }
    requires billed { IsBilled parts.old.top }
    requires within { (account : Name) → paid account removed.now ≤ used_of (find name_order account parts.old.top.usage) }
    ensures ok { OnOk result (IsRebilled removed.now added.now parts.old.top.usage parts.new.top.usage) }
    ensures same { parts.new ≡ with_top (with_usage parts.new.top.usage parts.old.top) parts.old }
    ensures small { OnOk result (usage_sum parts.new.top.usage ≤ most_usage) }
    ensures err { IfErr result (IsUnpaid removed.now added.now parts.old.top.usage) }
{
    let both = &mut parts.inner;
    match exchange(alloc, &mut both.second, removed, added) {
        Ok(()) => Ok(()),
        Err(RamFault::RamTotal) => Err(WriteError::RamTotal),
        Err(RamFault::OutOfMemory) => Err(WriteError::OutOfMemory),
    }
}
