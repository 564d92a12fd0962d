// What a run asks of accounts, and whom it notifies.
ghost use Rattle.std.specs.Prelude.{◌≡◌, ◌∷◌, []};
ghost use Rattle.std.specs.List.{list_any};
ghost use Rattle.ante_calls.specs.Accounts as accounts;
ghost use Rattle.ante_calls.specs.Authorization as auth;
ghost use Rattle.ante_sysapi.specs.Answers.{Answers, view};
ghost use Rattle.ante_wmem.specs.Linear.{LinearMemory};

use crate::authorization::yes_or_no;
use ante_arguments::name_arg;
use ante_pack::Name;
use ante_store::Tables;
use ante_types::{Failure, RunContext};
use ante_wmem::HostAnswer;
use std::alloc::Global;

pub(crate) fn is_account<T: Tables>(tables: &T, name: Name) -> bool
    ensures { result ≡ accounts.is_account name (T.stack tables.now).top }
{
    tables.store().objects().account(name).is_some()
}

pub(crate) fn is_privileged<T: Tables>(tables: &T, name: Name) -> bool
    ensures { result ≡ accounts.is_privileged name (T.stack tables.now).top }
{
    match tables.store().objects().account(name) {
        Some(row) => row.privileged,
        None => false,
    }
}

pub(crate) fn is_account_call<T: Tables>(
    args: &[u64],
    run: &RunContext,
    tables: &T,
) -> HostAnswer<Failure>
    ensures { (m : LinearMemory) (left : _) → Answers (λ v. auth.is_account_call v args.now m left) result
        (view (T.stack tables.now).top run.now) (view (T.stack tables.now).top run.now) m left }
{
    let _run = run;
    yes_or_no(is_account(tables, name_arg(args, 0)))
}

pub(crate) fn is_privileged_call<T: Tables>(
    args: &[u64],
    run: &RunContext,
    tables: &T,
) -> HostAnswer<Failure>
    ensures { (m : LinearMemory) (left : _) → Answers (λ v. auth.is_privileged_call v args.now m left) result
        (view (T.stack tables.now).top run.now) (view (T.stack tables.now).top run.now) m left }
{
    let name = name_arg(args, 0);
    if !is_privileged(tables, run.receiver) {
        return HostAnswer::Refused(Failure::NotPrivileged);
    }
    if !is_account(tables, name) {
        return HostAnswer::Refused(Failure::UnknownAccount { name });
    }
    yes_or_no(is_privileged(tables, name))
}

fn is_named(name: Name, names: &[Name]) -> bool
    ensures { result ≡ list_any (accounts.same_name name) names.now }
{
    names.iter().any(|other| name.0 == other.0)
}

fn is_notified(name: Name, run: &RunContext) -> bool
    ensures { result ≡ auth.is_notified name run.now }
{
    name.0 == run.action.account.0 || is_named(name, run.recipients.as_slice())
}

pub(crate) fn require_recipient<T: Tables>(
    args: &[u64],
    run: &mut RunContext,
    tables: &T,
    alloc: Global,
) -> HostAnswer<Failure>
    ensures answer { (m : LinearMemory) (left : _) → Answers (λ v. auth.require_recipient v args.now m left) result
        (view (T.stack tables.now).top run.old) (view (T.stack tables.now).top run.new) m left }
    ensures mode { run.new.mode ≡ run.old.mode }
{
    let name = name_arg(args, 0);
    if !is_account(tables, name) {
        return HostAnswer::Refused(Failure::UnknownAccount { name });
    }
    if is_notified(name, run) {
        return HostAnswer::Nothing;
    }
    match run.recipients.push(alloc, name) {
        Ok(()) => HostAnswer::Nothing,
        Err(_) => HostAnswer::OutOfMemory,
    }
}
