ghost use Rattle.std.specs.Prelude.{◌≡◌, length, IfOk, IfErr};
ghost use Rattle.ante_wtree.specs.Trees.{Tree, tree_of};
ghost use Rattle.ante_wdecode.specs.Rules.{ReadsAs};
ghost use Rattle.ante_wdecode.specs.Sections.{Encodes, bare};
ghost use Rattle.ante_wdecode.specs.Decoding.{header_at, sections_at, parts_at, paired, cut_short, module_at, Is, Blames, IsFirst};

use crate::fault::{DecodeError, DecodeKind, Unread, fault};
use crate::sections::{add_section, bare_module, last_number, read_section};
use crate::types::raw_bytes;
use ante_wtree::Module;
use ante_wtree::limits::MOST_MODULE_BYTES;
use std::alloc::Global;

fn header<'a>(text: &[u8], bytes: &'a [u8]) -> Result<&'a [u8], Unread>
    ensures { ReadsAs (λ x. x.now) result (header_at text.now bytes.now) }
{
    let (front, rest) = raw_bytes(4, bytes)?;
    if front == text {
        Ok(rest)
    } else {
        Err(fault(bytes, DecodeKind::Magic))
    }
}

fn read_sections(alloc: Global, bytes: &[u8]) -> Result<Module, Unread>
    ensures { ReadsAs tree_of result (sections_at (length bytes.now) 0 bare bytes.now) }
{
    let mut module = bare_module(alloc);
    let mut last = 0;
    let mut rest = bytes;
    'sections: while !rest.is_empty() {
        let (id, contents, after) = read_section(alloc, last, &module, rest)?;
        add_section(&mut module, contents);
        last = last_number(last, id);
        rest = after;
    }
    Ok(module)
}

fn read_parts(alloc: Global, code: &[u8]) -> Result<Module, Unread>
    ensures { ReadsAs tree_of result (parts_at code.now) }
{
    let rest = header(b"\x00asm", code)?;
    let rest = header(b"\x01\x00\x00\x00", rest)?;
    read_sections(alloc, rest)
}

fn check_bodies(whole: Module) -> Result<Module, Unread>
    ensures { ReadsAs tree_of result (paired (tree_of whole)) }
{
    if whole.functions.len() == whole.codes.len() {
        return Ok(whole);
    }
    Err(Unread::Fault {
        left: 0,
        kind: DecodeKind::Form,
    })
}

fn short_at_top(why: Unread) -> Unread
    ensures { result ≡ cut_short why }
{
    match why {
        Unread::Ended { left } => Unread::Fault {
            left,
            kind: DecodeKind::Short,
        },
        other => other,
    }
}

fn read_module(alloc: Global, code: &[u8]) -> Result<Module, Unread>
    ensures { ReadsAs tree_of result (module_at code.now) }
{
    if MOST_MODULE_BYTES < code.len() {
        return Err(fault(code, DecodeKind::Limit));
    }
    match read_parts(alloc, code) {
        Ok(module) => check_bodies(module),
        Err(why) => Err(short_at_top(why)),
    }
}

/// The module that a binary encodes (section 5.5.15), within the profile's limits. Custom sections are passed over, their
/// names included.
pub fn decode(alloc: Global, code: &[u8]) -> Result<Module, DecodeError>
    ensures found { IfOk result (λ m. Encodes (tree_of m) code.now) }
    ensures only { (m : Tree) → Encodes m code.now → Is result m }
    ensures blames { IfErr result (λ e. Blames e code.now) }
    ensures first { IfErr result (λ e. IsFirst e code.now) }
{
    match read_module(alloc, code) {
        Ok(module) => Ok(module),
        Err(Unread::OutOfMemory) => Err(DecodeError::OutOfMemory),
        Err(Unread::Ended { left }) => Err(DecodeError::Fault {
            at: code.len() - left,
            kind: DecodeKind::Short,
        }),
        Err(Unread::Fault { left, kind }) => Err(DecodeError::Fault {
            at: code.len() - left,
            kind,
        }),
    }
}
