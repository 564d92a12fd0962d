// The calls in the order of their numbers.
ghost use Rattle.std.specs.Prelude.{◌≡◌, Some, slice_get};
ghost use Rattle.ante_calls.specs.declared.calls.SysCall.{SysCall};
ghost use Rattle.ante_calls.specs.declared.calls.Intrinsic.TheVariants.{Sys};
ghost use Rattle.ante_calls.specs.Numbers.{intrinsic_at};
ghost use Rattle.ante_sysapi.specs.Tables.{calls};

use ante_calls::SysCall;

const CALLS: [SysCall; 48] = [
    SysCall::Abort,
    SysCall::Exit,
    SysCall::Assert,
    SysCall::AssertMessage,
    SysCall::AssertCode,
    SysCall::CurrentReceiver,
    SysCall::GetSender,
    SysCall::ActionDataSize,
    SysCall::ReadActionData,
    SysCall::TransactionSize,
    SysCall::ReadTransaction,
    SysCall::Expiration,
    SysCall::TaposBlockNum,
    SysCall::TaposBlockPrefix,
    SysCall::CurrentTime,
    SysCall::PublicationTime,
    SysCall::RequireAuth,
    SysCall::RequireAuth2,
    SysCall::HasAuth,
    SysCall::IsAccount,
    SysCall::IsPrivileged,
    SysCall::RequireRecipient,
    SysCall::SendInline,
    SysCall::Prints,
    SysCall::PrintsL,
    SysCall::PrintHex,
    SysCall::PrintI,
    SysCall::PrintUi,
    SysCall::PrintN,
    SysCall::PrintI128,
    SysCall::PrintUi128,
    SysCall::Memcpy,
    SysCall::Memmove,
    SysCall::Memset,
    SysCall::Memcmp,
    SysCall::Sha256,
    SysCall::AssertSha256,
    SysCall::Multi3,
    SysCall::DivTi3,
    SysCall::UdivTi3,
    SysCall::ModTi3,
    SysCall::UmodTi3,
    SysCall::AshlTi3,
    SysCall::AshrTi3,
    SysCall::LshlTi3,
    SysCall::LshrTi3,
    SysCall::SetResourceLimits,
    SysCall::SetActionReturnValue,
];

/// The call with this number.
#[tactic(auto, using(crate::proofs::Numbered::by_number))]
pub(crate) fn call_at(number: u32) -> SysCall
    requires number { (call : SysCall) × (intrinsic_at number ≡ Some (Sys call)) }
    ensures { (call : SysCall) → intrinsic_at number ≡ Some (Sys call) → call ≡ result }
{
    match find_call(number) {
        Some(call) => call,
        None => unreachable!(),
    }
}

fn find_call(number: u32) -> Option<SysCall>
    ensures { result ≡ slice_get calls number }
{
    nth(&CALLS, number as usize)
}

fn nth(calls: &[SysCall], at: usize) -> Option<SysCall>
    ensures { result ≡ slice_get calls.now at }
{
    calls.get(at).copied()
}
