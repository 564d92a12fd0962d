ghost use Rattle.std.specs.Prelude.{◌≡◌};
ghost use Rattle.ante_wdecode.specs.Rules.{ReadsAs, among, exactly};
ghost use Rattle.ante_wdecode.specs.Modules.{external_kinds, external_kind, import_desc, import, is_init, is_end, init_of, const_expr, global, export, element, segment};

use crate::fault::{DecodeKind, Unread, ended, fault};
use crate::items::{Item, number, read_vector, signed32, signed64, this_byte};
use crate::opcodes::{Indexed, Opcode, read_opcode};
use crate::types::{ANY, raw_bytes, read_flag, read_kind, read_limits, read_name};
use ante_pack::Bytes;
use ante_wtree::{Element, Export, ExportKind, Import, ImportKind, Init, Segment};
use std::alloc::Global;

fn external_kind_of(byte: u8) -> Option<ExportKind>
    ensures { result ≡ among external_kinds byte }
{
    match byte {
        0x00 => Some(ExportKind::Function),
        0x01 => Some(ExportKind::Table),
        0x02 => Some(ExportKind::Memory),
        0x03 => Some(ExportKind::Global),
        _ => None,
    }
}

fn read_external_kind(bytes: &[u8]) -> Result<(ExportKind, &[u8]), Unread>
    ensures { ReadsAs (λ x. (x.0, x.1.now)) result (external_kind.read bytes.now) }
{
    let Some((first, rest)) = bytes.split_first() else {
        return Err(ended(bytes));
    };
    match external_kind_of(*first) {
        Some(kind) => Ok((kind, rest)),
        None => Err(fault(bytes, DecodeKind::Form)),
    }
}

fn read_import_desc(kind: ExportKind, bytes: &[u8]) -> Result<(ImportKind, &[u8]), Unread>
    ensures { ReadsAs (λ x. (x.0, x.1.now)) result ((import_desc kind).read bytes.now) }
{
    match kind {
        ExportKind::Function => {
            let (n, rest) = number(bytes)?;
            Ok((ImportKind::Function(n), rest))
        }
        ExportKind::Table => {
            let rest = this_byte(0x70, bytes)?;
            let (table, rest) = read_limits(ANY, rest)?;
            Ok((ImportKind::Table(table), rest))
        }
        ExportKind::Memory => {
            let (memory, rest) = read_limits(ANY, bytes)?;
            Ok((ImportKind::Memory(memory), rest))
        }
        ExportKind::Global => {
            let (kind, rest) = read_kind(bytes)?;
            let (changes, rest) = read_flag(rest)?;
            Ok((ImportKind::Global { kind, changes }, rest))
        }
    }
}

impl Item for Import {
    ghost rule = { import };

    fn read(alloc: Global, bytes: &[u8]) -> Result<(Import, &[u8]), Unread> {
        let (module, rest) = read_name(alloc, bytes)?;
        let (name, rest) = read_name(alloc, rest)?;
        let (external, rest) = read_external_kind(rest)?;
        let (kind, rest) = read_import_desc(external, rest)?;
        Ok((Import { module, name, kind }, rest))
    }
}

fn begins_init(opcode: Opcode) -> bool
    ensures { result ≡ is_init opcode }
{
    match opcode {
        Opcode::I32Const => true,
        Opcode::I64Const => true,
        Opcode::Indexed(Indexed::GlobalGet) => true,
        _ => false,
    }
}

fn ends_init(opcode: Opcode) -> bool
    ensures { result ≡ is_end opcode }
{
    match opcode {
        Opcode::End => true,
        _ => false,
    }
}

fn read_init_of(opcode: Opcode, bytes: &[u8]) -> Result<(Init, &[u8]), Unread>
    ensures { ReadsAs (λ x. (x.0, x.1.now)) result ((init_of opcode).read bytes.now) }
{
    match opcode {
        Opcode::I32Const => {
            let (n, rest) = signed32(bytes)?;
            Ok((Init::Const32(n), rest))
        }
        Opcode::I64Const => {
            let (n, rest) = signed64(bytes)?;
            Ok((Init::Const64(n), rest))
        }
        Opcode::Indexed(Indexed::GlobalGet) => {
            let (n, rest) = number(bytes)?;
            Ok((Init::GlobalGet(n), rest))
        }
        _ => Err(fault(bytes, DecodeKind::Form)),
    }
}

fn read_init(bytes: &[u8]) -> Result<(Init, &[u8]), Unread>
    ensures { ReadsAs (λ x. (x.0, x.1.now)) result (const_expr.read bytes.now) }
{
    let (opcode, rest) = read_opcode(bytes)?;
    if !begins_init(opcode) {
        return Err(fault(bytes, DecodeKind::Form));
    }
    let (init, rest) = read_init_of(opcode, rest)?;
    let (end, after) = read_opcode(rest)?;
    if !ends_init(end) {
        return Err(fault(rest, DecodeKind::Form));
    }
    Ok((init, after))
}

impl Item for ante_wtree::Global {
    ghost rule = { global };

    fn read(_alloc: Global, bytes: &[u8]) -> Result<(ante_wtree::Global, &[u8]), Unread> {
        let (kind, rest) = read_kind(bytes)?;
        let (changes, rest) = read_flag(rest)?;
        let (init, rest) = read_init(rest)?;
        Ok((
            ante_wtree::Global {
                kind,
                changes,
                init,
            },
            rest,
        ))
    }
}

impl Item for Export {
    ghost rule = { export };

    fn read(alloc: Global, bytes: &[u8]) -> Result<(Export, &[u8]), Unread> {
        let (name, rest) = read_name(alloc, bytes)?;
        let (kind, rest) = read_external_kind(rest)?;
        let (index, rest) = number(rest)?;
        Ok((Export { name, kind, index }, rest))
    }
}

/// This number, in any spelling.
pub fn exact_number(wanted: usize, bytes: &[u8]) -> Result<(u32, &[u8]), Unread>
    ensures { ReadsAs (λ x. (x.0, x.1.now)) result ((exactly wanted).read bytes.now) }
{
    let (n, rest) = number(bytes)?;
    if n as usize != wanted {
        return Err(fault(bytes, DecodeKind::Form));
    }
    Ok((n, rest))
}

impl Item for Element {
    ghost rule = { element };

    fn read(alloc: Global, bytes: &[u8]) -> Result<(Element, &[u8]), Unread> {
        let (_, rest) = exact_number(0, bytes)?;
        let (offset, rest) = read_init(rest)?;
        let (functions, rest) = read_vector(alloc, ANY, rest)?;
        Ok((Element { offset, functions }, rest))
    }
}

impl Item for Segment {
    ghost rule = { segment };

    fn read(alloc: Global, bytes: &[u8]) -> Result<(Segment, &[u8]), Unread> {
        let (_, rest) = exact_number(0, bytes)?;
        let (offset, rest) = read_init(rest)?;
        let (length, rest) = number(rest)?;
        let (text, rest) = raw_bytes(length, rest)?;
        let bytes = Bytes::from_slice(alloc, text)?;
        Ok((Segment { offset, bytes }, rest))
    }
}
