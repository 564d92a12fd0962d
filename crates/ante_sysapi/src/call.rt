ghost use Rattle.std.specs.Prelude.{◌≡◌, ◌≤◌, Some};
ghost use Rattle.ante_wmem.specs.HostCalls.{IsAnswer};
ghost use Rattle.ante_calls.specs.declared.calls.SysCall.{SysCall};
ghost use Rattle.ante_calls.specs.declared.calls.Intrinsic.TheVariants.{Sys};
ghost use Rattle.ante_calls.specs.ActionData.{IsPacked};
ghost use Rattle.ante_calls.specs.Numbers.{intrinsic_at};
ghost use Rattle.ante_calls.specs.System as definitions;
ghost use Rattle.ante_calls.specs.Views.{base_of, ReadyFor, said};
ghost use Rattle.ante_sysapi.specs.Answers.{Answers, view};

use crate::numbers::call_at;
use crate::{
    accounts, action, authorization, console, control, hashes, limits, moving, sending,
    wide_integers,
};
use ante_calls::SysCall;
use ante_store::Tables;
use ante_types::{Failure, RunContext};
use ante_wmem::{HostAnswer, HostFn, Memory};
use std::alloc::Global;

fn answer<T: Tables>(
    call: SysCall,
    args: &[u64],
    memory: &mut Memory,
    run: &mut RunContext,
    packed: &[u8],
    tables: &mut T,
    alloc: Global,
    left: &mut u64,
) -> HostAnswer<Failure>
    requires packed { IsPacked packed.now }
    requires ready { ReadyFor run.old.mode (T.stack tables.old) (T.writing tables.old) }
    ensures answer { Answers (λ v. definitions.sys_call packed.now call v args.now memory.old left.old) result
        (view (T.stack tables.old).top run.old) (view (T.stack tables.new).top run.new) memory.new left.new }
    ensures falls { left.new ≤ left.old }
    ensures mode { run.new.mode ≡ run.old.mode }
    ensures base { base_of (T.stack tables.new) (T.writing tables.new) (T.lent tables.new)
        ≡ base_of (T.stack tables.old) (T.writing tables.old) (T.lent tables.old) }
{
    match call {
        SysCall::Abort => HostAnswer::Refused(Failure::Abort),
        SysCall::Exit => HostAnswer::Exit,
        SysCall::Assert => control::eosio_assert(args, memory, alloc, left),
        SysCall::AssertMessage => control::eosio_assert_message(args, memory, alloc, left),
        SysCall::AssertCode => control::eosio_assert_code(args),
        SysCall::CurrentReceiver => action::current_receiver(run),
        SysCall::GetSender => action::get_sender(run),
        SysCall::ActionDataSize => action::action_data_size(run),
        SysCall::ReadActionData => action::read_action_data(args, memory, run, left),
        SysCall::TransactionSize => action::size(packed),
        SysCall::ReadTransaction => action::copy(packed, args, memory, left),
        SysCall::Expiration => action::expiration(packed, alloc),
        SysCall::TaposBlockNum => action::tapos_block_num(packed, alloc),
        SysCall::TaposBlockPrefix => action::tapos_block_prefix(packed, alloc),
        SysCall::CurrentTime => action::current_time(run),
        SysCall::PublicationTime => action::current_time(run),
        SysCall::RequireAuth => authorization::require_auth(args, run),
        SysCall::RequireAuth2 => authorization::require_auth2(args, run),
        SysCall::HasAuth => authorization::has_auth(args, run),
        SysCall::IsAccount => accounts::is_account_call(args, run, tables),
        SysCall::IsPrivileged => accounts::is_privileged_call(args, run, tables),
        SysCall::RequireRecipient => accounts::require_recipient(args, run, tables, alloc),
        SysCall::SendInline => sending::send_inline(args, memory, run, tables, alloc, left),
        SysCall::Prints => console::prints(args, memory, run, alloc, left),
        SysCall::PrintsL => console::prints_l(args, memory, run, alloc, left),
        SysCall::PrintHex => console::printhex(args, memory, run, alloc, left),
        SysCall::PrintI => console::printi(args, run, alloc),
        SysCall::PrintUi => console::printui(args, run, alloc),
        SysCall::PrintN => console::printn(args, run, alloc),
        SysCall::PrintI128 => console::printi128(args, memory, run, alloc),
        SysCall::PrintUi128 => console::printui128(args, memory, run, alloc),
        SysCall::Memcpy => moving::memcpy(args, memory, left),
        SysCall::Memmove => moving::memmove(args, memory, left),
        SysCall::Memset => moving::memset(args, memory, left),
        SysCall::Memcmp => moving::memcmp(args, memory, left),
        SysCall::Sha256 => hashes::sha256_call(args, memory, left),
        SysCall::AssertSha256 => hashes::assert_sha256(args, memory, alloc, left),
        SysCall::Multi3 => wide_integers::multi3(args, memory),
        SysCall::DivTi3 => wide_integers::divti3(args, memory, alloc),
        SysCall::UdivTi3 => wide_integers::udivti3(args, memory, alloc),
        SysCall::ModTi3 => wide_integers::modti3(args, memory, alloc),
        SysCall::UmodTi3 => wide_integers::umodti3(args, memory, alloc),
        SysCall::AshlTi3 => wide_integers::shlti3(args, memory),
        SysCall::AshrTi3 => wide_integers::ashrti3(args, memory),
        SysCall::LshlTi3 => wide_integers::shlti3(args, memory),
        SysCall::LshrTi3 => wide_integers::lshrti3(args, memory),
        SysCall::SetResourceLimits => limits::set_resource_limits(args, run, tables, alloc),
        SysCall::SetActionReturnValue => {
            action::set_action_return_value(args, memory, run, alloc, left)
        }
    }
}

/// A call by its number, which must be that of an intrinsic that isn't on tables. After a refusal, StepLimit and want of memory the run has said
/// what it had said before; after want of memory and RamTotal the newest state may have changed.
pub fn sys_call<T: Tables>(
    function: HostFn,
    args: &[u64],
    memory: &mut Memory,
    run: &mut RunContext,
    packed: &[u8],
    tables: &mut T,
    alloc: Global,
    left: &mut u64,
) -> HostAnswer<Failure>
    requires number { (call : SysCall) × (intrinsic_at function.0 ≡ Some (Sys call)) }
    requires packed { IsPacked packed.now }
    requires ready { ReadyFor run.old.mode (T.stack tables.old) (T.writing tables.old) }
    ensures answer { (call : SysCall) → intrinsic_at function.0 ≡ Some (Sys call) →
        IsAnswer (definitions.sys_call packed.now call (record { world = (T.stack tables.old).top; run = run.old }) args.now memory.old left.old)
        (λ answer v. said v.run ≡ said run.old) result (record { world = (T.stack tables.new).top; run = run.new }) memory.new left.new }
    ensures falls { left.new ≤ left.old }
    ensures mode { run.new.mode ≡ run.old.mode }
    ensures base { base_of (T.stack tables.new) (T.writing tables.new) (T.lent tables.new)
        ≡ base_of (T.stack tables.old) (T.writing tables.old) (T.lent tables.old) }
{
    let call = call_at(function.0);
    answer(call, args, memory, run, packed, tables, alloc, left)
}
