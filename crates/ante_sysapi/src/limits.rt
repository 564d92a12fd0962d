// What a privileged contract may set.
ghost use Rattle.std.specs.Prelude.{◌≡◌, ◌||◌, ℕ, true, codes, IfOk};
ghost use Rattle.ante_calls.specs.Calls as calls;
ghost use Rattle.ante_calls.specs.ChainState as state;
ghost use Rattle.ante_calls.specs.Views.{base_of, ReadyFor};
ghost use Rattle.ante_sysapi.specs.Answers.{Answers, view};
ghost use Rattle.ante_sysapi.specs.Quotas.{quota_failure, set_by};
ghost use Rattle.ante_wmem.specs.Linear.{LinearMemory};

use crate::accounts::{is_account, is_privileged};
use ante_arguments::{arg, name_arg};
use ante_store::{Change, Tables, WriteError};
use ante_types::{Failure, Label, Mode, RunContext};
use ante_wmem::HostAnswer;
use std::alloc::{AllocError, Global};

fn limit_arg(args: &[u64], at: usize) -> i64
    ensures { result ≡ state.limit_arg args.now at }
{
    arg(args, at).cast_signed()
}

// -1 is no limit, and nothing lies below it.
fn is_bad_limit(limit: i64) -> bool
    ensures { result ≡ state.is_bad_limit limit }
{
    limit < -1
}

fn has_bad_limit(args: &[u64]) -> bool
    ensures { result ≡ (state.is_bad_limit (state.limit_arg args.now 1) || state.is_bad_limit (state.limit_arg args.now 2)
        || state.is_bad_limit (state.limit_arg args.now 3)) }
{
    is_bad_limit(limit_arg(args, 1))
        || is_bad_limit(limit_arg(args, 2))
        || is_bad_limit(limit_arg(args, 3))
}

fn limits_refusal<T: Tables>(args: &[u64], run: &RunContext, tables: &T) -> Option<Failure>
    ensures { result ≡ state.limits_refusal args.now (view (T.stack tables.now).top run.now) }
{
    if !is_privileged(tables, run.receiver) {
        return Some(Failure::NotPrivileged);
    }
    if has_bad_limit(args) {
        return Some(Failure::BadLimit);
    }
    let name = name_arg(args, 0);
    if !is_account(tables, name) {
        return Some(Failure::UnknownAccount { name });
    }
    None
}

fn write_refused(alloc: Global) -> Result<Failure, AllocError>
    ensures { IfOk result (λ f. f ≡ calls.write_refused (codes "set_resource_limits")) }
{
    let intrinsic = Label::new(alloc, b"set_resource_limits")?;
    Ok(Failure::WriteRefused { intrinsic })
}

fn failure_of(error: WriteError) -> Option<Failure>
    ensures { result ≡ quota_failure error }
{
    match error {
        WriteError::OutOfMemory => None,
        WriteError::WriteRefused
        | WriteError::RamTotal
        | WriteError::Missing
        | WriteError::Exists => Some(Failure::RamTotal),
    }
}

fn set_quota<T: Tables>(
    args: &[u64],
    run: &RunContext,
    tables: &mut T,
    alloc: Global,
) -> HostAnswer<Failure>
    requires writing { T.writing tables.old ≡ true }
    requires ready { ReadyFor run.now.mode (T.stack tables.old) (T.writing tables.old) }
    ensures answer { (m : LinearMemory) (left : ℕ) → Answers (λ v. calls.replies (set_by args.now m v) left) result
        (view (T.stack tables.old).top run.now) (view (T.stack tables.new).top run.now) m left }
    ensures base { base_of (T.stack tables.new) (T.writing tables.new) (T.lent tables.new)
        ≡ base_of (T.stack tables.old) (T.writing tables.old) (T.lent tables.old) }
{
    if let Some(failure) = limits_refusal(args, run, tables) {
        return HostAnswer::Refused(failure);
    }
    let change = Change::SetQuota {
        account: name_arg(args, 0),
        quota: limit_arg(args, 1),
    };
    match tables.write(alloc, change) {
        Ok(()) => HostAnswer::Nothing,
        Err(error) => match failure_of(error) {
            Some(failure) => HostAnswer::Refused(failure),
            None => HostAnswer::OutOfMemory,
        },
    }
}

/// The memory that an account may use. The other two limits are looked at, and passed over.
pub(crate) fn set_resource_limits<T: Tables>(
    args: &[u64],
    run: &RunContext,
    tables: &mut T,
    alloc: Global,
) -> HostAnswer<Failure>
    requires ready { ReadyFor run.now.mode (T.stack tables.old) (T.writing tables.old) }
    ensures answer { (m : LinearMemory) (left : ℕ) → Answers (λ v. state.set_resource_limits v args.now m left) result
        (view (T.stack tables.old).top run.now) (view (T.stack tables.new).top run.now) m left }
    ensures base { base_of (T.stack tables.new) (T.writing tables.new) (T.lent tables.new)
        ≡ base_of (T.stack tables.old) (T.writing tables.old) (T.lent tables.old) }
{
    match run.mode {
        Mode::Writing => set_quota(args, run, tables, alloc),
        Mode::Reading => match write_refused(alloc) {
            Ok(failure) => HostAnswer::Refused(failure),
            Err(_) => HostAnswer::OutOfMemory,
        },
    }
}
