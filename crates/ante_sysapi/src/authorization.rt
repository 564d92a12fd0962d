// What a run asks of the levels of its action.
ghost use Rattle.std.specs.Prelude.{◌≡◌};
ghost use Rattle.ante_calls.specs.Accounts as accounts;
ghost use Rattle.ante_calls.specs.Authorization as auth;
ghost use Rattle.ante_calls.specs.Calls.{replies};
ghost use Rattle.ante_sysapi.specs.Answers.{Says, Tells};
ghost use Rattle.ante_wmem.specs.HostCalls.{value};
ghost use Rattle.ante_wmem.specs.Linear.{LinearMemory};

use ante_arguments::name_arg;
use ante_pack::{Level, Name};
use ante_types::{Action, Failure, RunContext};
use ante_wmem::HostAnswer;

fn is_actor(name: Name, action: &Action) -> bool
    ensures { result ≡ accounts.is_actor name action.now }
{
    action
        .authorization
        .as_slice()
        .iter()
        .any(|level| level.actor.0 == name.0)
}

fn has_level(level: Level, action: &Action) -> bool
    ensures { result ≡ accounts.has_level level action.now }
{
    action.authorization.as_slice().iter().any(|own| level.actor.0 == own.actor.0
        && level.permission.0 == own.permission.0)
}

/// The answer to a question.
pub(crate) fn yes_or_no(yes: bool) -> HostAnswer<Failure>
    ensures { (m : LinearMemory) (left : _) → Tells (λ v. replies (value (auth.yes_or_no yes) v m) left) result m left }
{
    HostAnswer::Value(if yes { 1 } else { 0 })
}

pub(crate) fn require_auth(args: &[u64], run: &RunContext) -> HostAnswer<Failure>
    ensures { (m : LinearMemory) (left : _) → Says (λ v. auth.require_auth v args.now m left) result run.now run.now m left }
{
    let actor = name_arg(args, 0);
    if is_actor(actor, &run.action) {
        return HostAnswer::Nothing;
    }
    HostAnswer::Refused(Failure::MissingAuth {
        actor,
        permission: Name(0),
    })
}

pub(crate) fn require_auth2(args: &[u64], run: &RunContext) -> HostAnswer<Failure>
    ensures { (m : LinearMemory) (left : _) → Says (λ v. auth.require_auth2 v args.now m left) result run.now run.now m left }
{
    let (actor, permission) = (name_arg(args, 0), name_arg(args, 1));
    if has_level(Level { actor, permission }, &run.action) {
        return HostAnswer::Nothing;
    }
    HostAnswer::Refused(Failure::MissingAuth { actor, permission })
}

pub(crate) fn has_auth(args: &[u64], run: &RunContext) -> HostAnswer<Failure>
    ensures { (m : LinearMemory) (left : _) → Says (λ v. auth.has_auth v args.now m left) result run.now run.now m left }
{
    yes_or_no(is_actor(name_arg(args, 0), &run.action))
}
