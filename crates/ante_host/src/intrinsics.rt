// The intrinsics in the order of their numbers.
ghost use Rattle.std.specs.Prelude.{◌≡◌, slice_get};
ghost use Rattle.ante_calls.specs.Numbers.{intrinsic_at};

use ante_calls::{IndexCall, Intrinsic, RowCall, SysCall};

const INTRINSICS: [Intrinsic; 88] = [
    Intrinsic::Sys(SysCall::Abort),
    Intrinsic::Sys(SysCall::Exit),
    Intrinsic::Sys(SysCall::Assert),
    Intrinsic::Sys(SysCall::AssertMessage),
    Intrinsic::Sys(SysCall::AssertCode),
    Intrinsic::Sys(SysCall::CurrentReceiver),
    Intrinsic::Sys(SysCall::GetSender),
    Intrinsic::Sys(SysCall::ActionDataSize),
    Intrinsic::Sys(SysCall::ReadActionData),
    Intrinsic::Sys(SysCall::TransactionSize),
    Intrinsic::Sys(SysCall::ReadTransaction),
    Intrinsic::Sys(SysCall::Expiration),
    Intrinsic::Sys(SysCall::TaposBlockNum),
    Intrinsic::Sys(SysCall::TaposBlockPrefix),
    Intrinsic::Sys(SysCall::CurrentTime),
    Intrinsic::Sys(SysCall::PublicationTime),
    Intrinsic::Sys(SysCall::RequireAuth),
    Intrinsic::Sys(SysCall::RequireAuth2),
    Intrinsic::Sys(SysCall::HasAuth),
    Intrinsic::Sys(SysCall::IsAccount),
    Intrinsic::Sys(SysCall::IsPrivileged),
    Intrinsic::Sys(SysCall::RequireRecipient),
    Intrinsic::Sys(SysCall::SendInline),
    Intrinsic::Sys(SysCall::Prints),
    Intrinsic::Sys(SysCall::PrintsL),
    Intrinsic::Sys(SysCall::PrintHex),
    Intrinsic::Sys(SysCall::PrintI),
    Intrinsic::Sys(SysCall::PrintUi),
    Intrinsic::Sys(SysCall::PrintN),
    Intrinsic::Sys(SysCall::PrintI128),
    Intrinsic::Sys(SysCall::PrintUi128),
    Intrinsic::Sys(SysCall::Memcpy),
    Intrinsic::Sys(SysCall::Memmove),
    Intrinsic::Sys(SysCall::Memset),
    Intrinsic::Sys(SysCall::Memcmp),
    Intrinsic::Sys(SysCall::Sha256),
    Intrinsic::Sys(SysCall::AssertSha256),
    Intrinsic::Sys(SysCall::Multi3),
    Intrinsic::Sys(SysCall::DivTi3),
    Intrinsic::Sys(SysCall::UdivTi3),
    Intrinsic::Sys(SysCall::ModTi3),
    Intrinsic::Sys(SysCall::UmodTi3),
    Intrinsic::Sys(SysCall::AshlTi3),
    Intrinsic::Sys(SysCall::AshrTi3),
    Intrinsic::Sys(SysCall::LshlTi3),
    Intrinsic::Sys(SysCall::LshrTi3),
    Intrinsic::Sys(SysCall::SetResourceLimits),
    Intrinsic::Sys(SysCall::SetActionReturnValue),
    Intrinsic::Row(RowCall::Store),
    Intrinsic::Row(RowCall::Update),
    Intrinsic::Row(RowCall::Remove),
    Intrinsic::Row(RowCall::Get),
    Intrinsic::Row(RowCall::Next),
    Intrinsic::Row(RowCall::Previous),
    Intrinsic::Row(RowCall::Find),
    Intrinsic::Row(RowCall::LowerBound),
    Intrinsic::Row(RowCall::UpperBound),
    Intrinsic::Row(RowCall::End),
    Intrinsic::Index64(IndexCall::Store),
    Intrinsic::Index64(IndexCall::Update),
    Intrinsic::Index64(IndexCall::Remove),
    Intrinsic::Index64(IndexCall::Next),
    Intrinsic::Index64(IndexCall::Previous),
    Intrinsic::Index64(IndexCall::FindPrimary),
    Intrinsic::Index64(IndexCall::FindSecondary),
    Intrinsic::Index64(IndexCall::LowerBound),
    Intrinsic::Index64(IndexCall::UpperBound),
    Intrinsic::Index64(IndexCall::End),
    Intrinsic::Index128(IndexCall::Store),
    Intrinsic::Index128(IndexCall::Update),
    Intrinsic::Index128(IndexCall::Remove),
    Intrinsic::Index128(IndexCall::Next),
    Intrinsic::Index128(IndexCall::Previous),
    Intrinsic::Index128(IndexCall::FindPrimary),
    Intrinsic::Index128(IndexCall::FindSecondary),
    Intrinsic::Index128(IndexCall::LowerBound),
    Intrinsic::Index128(IndexCall::UpperBound),
    Intrinsic::Index128(IndexCall::End),
    Intrinsic::Index256(IndexCall::Store),
    Intrinsic::Index256(IndexCall::Update),
    Intrinsic::Index256(IndexCall::Remove),
    Intrinsic::Index256(IndexCall::Next),
    Intrinsic::Index256(IndexCall::Previous),
    Intrinsic::Index256(IndexCall::FindPrimary),
    Intrinsic::Index256(IndexCall::FindSecondary),
    Intrinsic::Index256(IndexCall::LowerBound),
    Intrinsic::Index256(IndexCall::UpperBound),
    Intrinsic::Index256(IndexCall::End),
];

/// The intrinsic of this number, where one has it.
pub(crate) fn intrinsic_at(number: u32) -> Option<Intrinsic>
    ensures { result ≡ intrinsic_at number }
{
    nth(&INTRINSICS, number as usize)
}

fn nth(intrinsics: &[Intrinsic], place: usize) -> Option<Intrinsic>
    ensures { result ≡ slice_get intrinsics.now place }
{
    intrinsics.get(place).copied()
}
