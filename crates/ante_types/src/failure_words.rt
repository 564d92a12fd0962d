ghost use Rattle.std.specs.Prelude.{◌≡◌};
ghost use Rattle.ante_types.specs.Failures.{failure_code, failure_name};

use crate::failure::Failure;

/// The failure's number, as traces and blocks show it.
pub fn failure_code(failure: &Failure) -> u16
    ensures { result ≡ failure_code failure.now }
{
    match failure {
        Failure::NoAction => 1,
        Failure::HasAuthorization { .. } => 2,
        Failure::UnknownAccount { .. } => 3,
        Failure::Unsupported { .. } => 4,
        Failure::WriteRefused { .. } => 5,
        Failure::Assert { .. } => 6,
        Failure::AssertCode { .. } => 7,
        Failure::Trap { .. } => 8,
        Failure::StepLimit => 9,
        Failure::CallDepth => 10,
        Failure::InlineDepth => 11,
        Failure::BadPointer => 12,
        Failure::BadIterator { .. } => 13,
        Failure::KeyExists { .. } => 14,
        Failure::NotOwner { .. } => 15,
        Failure::BadPayer { .. } => 16,
        Failure::RamExceeded { .. } => 17,
        Failure::RamTotal => 18,
        Failure::MissingAuth { .. } => 19,
        Failure::Irrelevant { .. } => 20,
        Failure::AuthWork => 21,
        Failure::DataFault { .. } => 22,
        Failure::Expired => 23,
        Failure::TooFar => 24,
        Failure::BadReference => 25,
        Failure::Duplicate => 26,
        Failure::NoAuthorization => 27,
        Failure::BadSignature { .. } => 28,
        Failure::BadCode => 29,
        Failure::NotPrivileged => 30,
        Failure::Native { .. } => 31,
        Failure::WrongSteps => 32,
        Failure::KeyLength { .. } => 33,
        Failure::Abort => 34,
        Failure::TooBig => 35,
        Failure::ReturnTooLong => 36,
        Failure::Overlap => 37,
        Failure::BadLimit => 38,
    }
}

/// The failure's name, as traces show it.
pub fn failure_name(failure: &Failure) -> &'static [u8]
    ensures { result.now ≡ failure_name failure.now }
{
    match failure {
        Failure::NoAction => b"NoAction",
        Failure::HasAuthorization { .. } => b"HasAuthorization",
        Failure::UnknownAccount { .. } => b"UnknownAccount",
        Failure::Unsupported { .. } => b"Unsupported",
        Failure::WriteRefused { .. } => b"WriteRefused",
        Failure::Assert { .. } => b"Assert",
        Failure::AssertCode { .. } => b"AssertCode",
        Failure::Trap { .. } => b"Trap",
        Failure::StepLimit => b"StepLimit",
        Failure::CallDepth => b"CallDepth",
        Failure::InlineDepth => b"InlineDepth",
        Failure::BadPointer => b"BadPointer",
        Failure::BadIterator { .. } => b"BadIterator",
        Failure::KeyExists { .. } => b"KeyExists",
        Failure::NotOwner { .. } => b"NotOwner",
        Failure::BadPayer { .. } => b"BadPayer",
        Failure::RamExceeded { .. } => b"RamExceeded",
        Failure::RamTotal => b"RamTotal",
        Failure::MissingAuth { .. } => b"MissingAuth",
        Failure::Irrelevant { .. } => b"Irrelevant",
        Failure::AuthWork => b"AuthWork",
        Failure::DataFault { .. } => b"DataFault",
        Failure::Expired => b"Expired",
        Failure::TooFar => b"TooFar",
        Failure::BadReference => b"BadReference",
        Failure::Duplicate => b"Duplicate",
        Failure::NoAuthorization => b"NoAuthorization",
        Failure::BadSignature { .. } => b"BadSignature",
        Failure::BadCode => b"BadCode",
        Failure::NotPrivileged => b"NotPrivileged",
        Failure::Native { .. } => b"Native",
        Failure::WrongSteps => b"WrongSteps",
        Failure::KeyLength { .. } => b"KeyLength",
        Failure::Abort => b"Abort",
        Failure::TooBig => b"TooBig",
        Failure::ReturnTooLong => b"ReturnTooLong",
        Failure::Overlap => b"Overlap",
        Failure::BadLimit => b"BadLimit",
    }
}
