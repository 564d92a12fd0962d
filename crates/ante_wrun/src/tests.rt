//! Whole runs of small functions.
ghost use Rattle.std.specs.Prelude.{◌≡◌};
ghost use Rattle.std.proofs.Common.{arith};
ghost use Rattle.ante_wmem.specs.HostCalls.{refused};

use crate::{Machine, RunEnd};
use ante_base::{AtLook, NeverStop, Stop};
use ante_pack::{Bytes, Seq};
use ante_wmem::{Host, HostAnswer, HostFn, Memory};
use ante_wnum::Binary;
use ante_wtree::{Code, Export, ExportKind, FuncType, Instr, Module, ValueKind};
use ante_wvalid::validate;
use std::alloc::Global;
use std::test::Fail;

/// A host without functions.
#[derive(Drop)]
struct Nobody;

impl Host for Nobody {
    type Refusal = u32;

    ghost allowed = { λ host function arguments left. Unit {0} };

    ghost meaning = { λ host function arguments memory left. record { reply = refused function; left = left } };

    ghost stands = { λ host function arguments memory left answer after. after ≡ host };

    fn call(
        &mut self,
        function: HostFn,
        args: &[u64],
        memory: &mut Memory,
        left: &mut u64,
    ) -> HostAnswer<u32> {
        HostAnswer::Refused(function.0)
    }

    ghost lower = { λ host function arguments left less le holds. tt };

    ghost falls = { λ host function arguments memory left. Prim.omega arith };

    ghost keeps = { λ host function arguments memory left holds. tt };
}

fn apply_kind(alloc: Global) -> Result<FuncType, Fail> {
    let params = vec![in alloc; ValueKind::I64, ValueKind::I64, ValueKind::I64]?;
    Ok(FuncType {
        params: Seq::from_vec(params),
        results: Seq::new(alloc),
    })
}

fn apply_export(alloc: Global) -> Result<Export, Fail> {
    Ok(Export {
        name: Bytes::from_slice(alloc, b"apply")?,
        kind: ExportKind::Function,
        index: 0,
    })
}

/// A module whose `apply` has this body, and one i64 as its local 3.
fn module(alloc: Global, body: Vec<Instr>) -> Result<Module, Fail> {
    let code = Code {
        locals: Seq::from_vec(vec![in alloc; ValueKind::I64]?),
        body,
    };
    Ok(Module {
        types: Seq::from_vec(vec![in alloc; apply_kind(alloc)?]?),
        imports: Seq::new(alloc),
        functions: Seq::from_vec(vec![in alloc; 0]?),
        table: Seq::new(alloc),
        memory: Seq::new(alloc),
        globals: Seq::new(alloc),
        exports: Seq::from_vec(vec![in alloc; apply_export(alloc)?]?),
        start: None,
        elements: Seq::new(alloc),
        codes: Seq::from_vec(vec![in alloc; code]?),
        segments: Seq::new(alloc),
    })
}

/// Runs the body and tells how it ended and what is left.
fn run<P: Stop>(
    alloc: Global,
    body: Vec<Instr>,
    stop: &mut P,
    left: u64,
) -> Result<(RunEnd<u32>, u64), Fail> {
    let module = module(alloc, body)?;
    let valid = validate(alloc, module)?;
    let mut left = left;
    let end = Machine::new().run(alloc, &valid, [1, 2, 3], &mut Nobody, stop, &mut left)?;
    Ok((end, left))
}

/// The turns of a loop: 1 + 3 + 7 * turns steps, and one for each `nop`.
fn counting(alloc: Global, turns: u64, nops: usize) -> Result<Vec<Instr>, Fail> {
    let turn = vec![in alloc;
        Instr::LocalGet(3),
        Instr::I64Const(1),
        Instr::I64Binary(Binary::Sub),
        Instr::LocalTee(3),
        Instr::I64Eqz,
        Instr::I32Eqz,
        Instr::BrIf(0),
    ]?;
    let mut body = vec![in alloc;
        Instr::I64Const(turns),
        Instr::LocalSet(3),
        Instr::Loop(None, turn),
    ]?;
    for _ in 0..nops {
        body.push(Instr::Nop)?;
    }
    Ok(body)
}

#[test]
fn a_loop_takes_its_steps(rt: HostRuntime) -> Result<(), Fail> {
    let alloc = rt.alloc();
    let body = counting(alloc, 1_428_570, 6)?;
    let (end, left) = run(alloc, body, &mut NeverStop, 9_999_999)?;
    assert!(rt; matches!(end, RunEnd::Done));
    assert_eq!(rt; left, 0);
    Ok(())
}

#[test]
fn a_loop_with_one_more(rt: HostRuntime) -> Result<(), Fail> {
    let alloc = rt.alloc();
    let body = counting(alloc, 1_428_570, 7)?;
    let (end, left) = run(alloc, body, &mut NeverStop, 9_999_999)?;
    assert!(rt; matches!(end, RunEnd::StepLimit));
    assert_eq!(rt; left, 0);
    Ok(())
}

#[test]
fn a_look_cuts(rt: HostRuntime) -> Result<(), Fail> {
    let alloc = rt.alloc();
    let body = vec![in alloc; Instr::Loop(None, vec![in alloc; Instr::Br(0)]?)]?;
    let (end, left) = run(alloc, body, &mut AtLook::new(1, 9), 3_000)?;
    assert!(rt; matches!(end, RunEnd::Cut { at: 9 }));
    assert_eq!(rt; left, 1_024);
    Ok(())
}

#[test]
fn calls_without_end(rt: HostRuntime) -> Result<(), Fail> {
    let alloc = rt.alloc();
    let body = vec![in alloc;
        Instr::LocalGet(0),
        Instr::LocalGet(1),
        Instr::LocalGet(2),
        Instr::Call(0),
    ]?;
    let (end, left) = run(alloc, body, &mut NeverStop, 10_000)?;
    assert!(rt; matches!(end, RunEnd::CallDepth));
    assert_eq!(rt; left, 9_000);
    Ok(())
}
