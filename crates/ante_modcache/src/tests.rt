//! What is given of two codes that one place is named for, and of codes that are refused.

use crate::{CodeFault, ModuleCache, ModuleError, ModuleRef};
use ante_wdecode::DecodeKind;
use ante_wvalid::InvalidKind;
use std::alloc::Global;
use std::test::Fail;

/// A module that does nothing, with a custom section of no name and this byte.
fn code(last: u8) -> [u8; 42] {
    let mut code =
        *b"\0asm\x01\0\0\0\x01\x07\x01`\x03~~~\0\x03\x02\x01\0\x07\x09\x01\x05apply\0\0\x0A\x04\x01\x02\0\x0B\0\x02\0\0";
    code[41] = last;
    code
}

/// Whether the code's module is the one that the cache keeps.
fn is_kept(cache: &ModuleCache, alloc: Global, code: &[u8]) -> Result<bool, ModuleError> {
    match cache.module(alloc, code)? {
        ModuleRef::Place(_) => Ok(true),
        ModuleRef::Own(_) => Ok(false),
    }
}

/// The SHA-256 of both codes begin with 0x23: they are the first two such codes, of those with the bytes 0, 1, 2 ..
#[test]
fn of_two_codes_at_one_place_the_first_is_kept(rt: HostRuntime) -> Result<(), Fail> {
    let cache = ModuleCache::new(rt.alloc())?;
    for _ in 0..2 {
        let first = is_kept(&cache, rt.alloc(), &code(14))?;
        let second = is_kept(&cache, rt.alloc(), &code(27))?;
        assert!(rt; first && !second);
    }
    Ok(())
}

#[test]
fn an_answer_lends_its_module(rt: HostRuntime) -> Result<(), Fail> {
    let cache = ModuleCache::new(rt.alloc())?;
    let found = cache.module(rt.alloc(), &code(0))?;
    assert!(rt; found.get().module().codes.len() == 1);
    Ok(())
}

fn refusal(cache: &ModuleCache, alloc: Global, code: &[u8]) -> Option<ModuleError> {
    cache.module(alloc, code).err()
}

/// A code that is refused is refused again, and leaves its place to others.
#[test]
fn bad_codes_are_refused_with_their_first_fault(rt: HostRuntime) -> Result<(), Fail> {
    let cache = ModuleCache::new(rt.alloc())?;
    let version = CodeFault::Decode {
        at: 4,
        kind: DecodeKind::Magic,
    };
    let empty = CodeFault::Invalid(InvalidKind::NoApply);
    for _ in 0..2 {
        let first = refusal(&cache, rt.alloc(), b"\0asm\x02\0\0\0");
        let second = refusal(&cache, rt.alloc(), b"\0asm\x01\0\0\0");
        assert!(rt;
            first == Some(ModuleError::BadCode(version))
                && second == Some(ModuleError::BadCode(empty))
        );
    }
    Ok(())
}
