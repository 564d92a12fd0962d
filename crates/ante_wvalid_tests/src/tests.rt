//! What stands in no table: a tree that no bytes stand for, a body too long for a line, and what a validated module lends.

use ante_pack::Seq;
use ante_wdecode::decode;
use ante_wtree::{Code, Instr, Limits, Module};
use ante_wvalid::{InvalidKind, ModuleRule, ValidateError, validate};
use std::alloc::{AllocError, Global};
use std::test::Fail;

/// The base of the table `kinds`.
const BASE: &[u8] =
    b"\0asm\x01\0\0\0\x01\x0F\x03`\x03~~~\0`\0\0`\x01~\x01\x7F\x02\x12\x01\x03env\x0Ais_account\0\x02\x03\x03\
    \x02\0\x01\x04\x05\x01p\x01\x01\x02\x05\x03\x01\0\x01\x06\x06\x01\x7F\x01A\x07\x0B\x07\x09\x01\x05apply\0\x01\
    \x08\x01\x02\x09\x08\x01\0A\0\x0B\x02\0\x02\x0A\x07\x02\x02\0\x0B\x02\0\x0B\x0B\x09\x01\0A\x08\x0B\x03abc";

/// Pairs of instructions, of three bytes each: about as many as fit into a code of 1 MiB.
const PAIRS: u32 = 349_000;

fn base(alloc: Global) -> Result<Module, Fail> {
    match decode(alloc, BASE) {
        Ok(module) => Ok(module),
        Err(_) => Err(AllocError)?,
    }
}

/// What is wrong with a module.
fn refusal(alloc: Global, module: Module) -> Result<Option<InvalidKind>, Fail> {
    match validate(alloc, module) {
        Ok(_) => Ok(None),
        Err(ValidateError::Invalid(kind)) => Ok(Some(kind)),
        Err(ValidateError::OutOfMemory) => Err(AllocError)?,
    }
}

#[test]
fn a_valid_module_is_lent(rt: HostRuntime) -> Result<(), Fail> {
    let alloc = rt.alloc();
    let Ok(valid) = validate(alloc, base(alloc)?) else {
        return Err(AllocError)?;
    };
    assert_eq!(rt; valid.module().types.len(), 3);
    Ok(())
}

#[test]
fn a_table_of_8193_is_out_of_bounds(rt: HostRuntime) -> Result<(), Fail> {
    let alloc = rt.alloc();
    let mut module = base(alloc)?;
    module.table = Seq::new(alloc);
    module.table.push(
        alloc,
        Limits {
            least: 8193,
            most: None,
        },
    )?;
    assert_eq!(rt;
        refusal(alloc, module)?,
        Some(InvalidKind::Rule(ModuleRule::Bounds))
    );
    Ok(())
}

fn long(alloc: Global) -> Result<Code, Fail> {
    let mut body = Vec::new(alloc);
    for _ in 0..PAIRS {
        body.push(Instr::I32Const(0))?;
        body.push(Instr::Drop)?;
    }
    Ok(Code {
        locals: Seq::new(alloc),
        body,
    })
}

#[test]
fn a_long_body_is_typed(rt: HostRuntime) -> Result<(), Fail> {
    let alloc = rt.alloc();
    let mut module = base(alloc)?;
    module.functions.push(alloc, 1)?;
    module.codes.push(alloc, long(alloc)?)?;
    assert_eq!(rt; refusal(alloc, module)?, None);
    Ok(())
}
