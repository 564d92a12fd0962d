ghost use Rattle.std.specs.Prelude.{◌≡◌, ◌-◌, Some, map};
ghost use Rattle.ante_wtree.specs.Limits.{most_functions};
ghost use Rattle.ante_wtree.specs.Trees.{tree_of, body_of};
ghost use Rattle.ante_wdecode.specs.Rules.{ReadsAs, among, one_of, filling, misfit_of};
ghost use Rattle.ante_wdecode.specs.Sections.{section_of, is_function, imported, custom, bodies, contents, section, bare, with_section};
ghost use Rattle.ante_wdecode.specs.Sections.{number_of, section_ids, no_section, section_id, follows, last_after};

use crate::code::read_codes;
use crate::fault::{DecodeKind, Unread, ended, fault, misfit, moved};
use crate::items::{number, read_vector};
use crate::parts::exact_number;
use crate::types::{name_bytes, read_sized_vector};
use ante_pack::Seq;
use ante_wtree::limits::{
    MOST_DATA_SEGMENTS, MOST_ELEMENT_SEGMENTS, MOST_EXPORTS, MOST_FUNCTIONS, MOST_GLOBALS,
    MOST_IMPORTS, MOST_TYPES,
};
use ante_wtree::{Code, Element, Export, FuncType, Import, ImportKind, Limits, Module, Segment};
use std::alloc::Global;

/// The sections, in the order of their numbers (section 5.5.2).
#[derive(Clone, Copy)]
pub enum SectionId {
    Custom,
    Types,
    Imports,
    Functions,
    Tables,
    Memories,
    Globals,
    Exports,
    Start,
    Elements,
    Codes,
    Segments,
}

/// What a section says.
#[derive(Drop)]
pub enum Contents {
    Custom,
    Types(Seq<FuncType>),
    Imports(Seq<Import>),
    Functions(Seq<u32>),
    Tables(Seq<Limits>),
    Memories(Seq<Limits>),
    Globals(Seq<ante_wtree::Global>),
    Exports(Seq<Export>),
    Start(u32),
    Elements(Seq<Element>),
    Codes(Seq<Code>),
    Segments(Seq<Segment>),
}

fn section_id_of(byte: u8) -> Option<SectionId>
    ensures { result ≡ among section_ids byte }
{
    match byte {
        0 => Some(SectionId::Custom),
        1 => Some(SectionId::Types),
        2 => Some(SectionId::Imports),
        3 => Some(SectionId::Functions),
        4 => Some(SectionId::Tables),
        5 => Some(SectionId::Memories),
        6 => Some(SectionId::Globals),
        7 => Some(SectionId::Exports),
        8 => Some(SectionId::Start),
        9 => Some(SectionId::Elements),
        10 => Some(SectionId::Codes),
        11 => Some(SectionId::Segments),
        _ => None,
    }
}

fn number_of_section(id: SectionId) -> u8
    ensures { result ≡ number_of id }
{
    match id {
        SectionId::Custom => 0,
        SectionId::Types => 1,
        SectionId::Imports => 2,
        SectionId::Functions => 3,
        SectionId::Tables => 4,
        SectionId::Memories => 5,
        SectionId::Globals => 6,
        SectionId::Exports => 7,
        SectionId::Start => 8,
        SectionId::Elements => 9,
        SectionId::Codes => 10,
        SectionId::Segments => 11,
    }
}

fn may_follow(last: u8, id: SectionId) -> bool
    ensures { result ≡ follows last id }
{
    match id {
        SectionId::Custom => true,
        _ => last < number_of_section(id),
    }
}

/// The highest number, once a section was read.
pub fn last_number(last: u8, id: SectionId) -> u8
    ensures { result ≡ last_after last id }
{
    match id {
        SectionId::Custom => last,
        _ => number_of_section(id),
    }
}

fn one_section_id(bytes: &[u8]) -> Result<(SectionId, &[u8]), Unread>
    ensures { ReadsAs (λ x. (x.0, x.1.now)) result ((one_of no_section section_ids).read bytes.now) }
{
    let Some((first, rest)) = bytes.split_first() else {
        return Err(ended(bytes));
    };
    match section_id_of(*first) {
        Some(id) => Ok((id, rest)),
        None => Err(fault(bytes, DecodeKind::Section)),
    }
}

fn read_section_id(last: u8, bytes: &[u8]) -> Result<(SectionId, &[u8]), Unread>
    ensures { ReadsAs (λ x. (x.0, x.1.now)) result ((section_id last).read bytes.now) }
{
    let (id, rest) = one_section_id(bytes)?;
    if !may_follow(last, id) {
        return Err(fault(bytes, DecodeKind::Section));
    }
    Ok((id, rest))
}

fn is_function_kind(kind: ImportKind) -> bool
    ensures { result ≡ is_function kind }
{
    matches!(kind, ImportKind::Function(_))
}

fn imported_functions(imports: &[Import]) -> usize
    ensures { result ≡ imported imports.now }
{
    let mut count = 0;
    for import in imports {
        if is_function_kind(import.kind) {
            count += 1;
        }
    }
    count
}

/// How many functions of its own a module may have beside the imported ones.
fn functions_beside(imports: &[Import]) -> u32
    ensures { result ≡ most_functions - imported imports.now }
{
    let count = imported_functions(imports);
    if count < MOST_FUNCTIONS as usize {
        MOST_FUNCTIONS - count as u32
    } else {
        0
    }
}

fn read_custom(bytes: &[u8]) -> Result<(Contents, &[u8]), Unread>
    ensures { ReadsAs (λ x. (section_of x.0, x.1.now)) result (custom.read bytes.now) }
{
    match name_bytes(bytes) {
        Ok(_) => Ok((Contents::Custom, &[])),
        Err(why) => Err(why),
    }
}

fn read_bodies<'a>(
    alloc: Global,
    so_far: &Module,
    bytes: &'a [u8],
) -> Result<(Seq<Code>, &'a [u8]), Unread>
    ensures { ReadsAs (λ x. (map body_of x.0, x.1.now)) result ((bodies (tree_of so_far.now)).read bytes.now) }
{
    let (_, rest) = exact_number(so_far.functions.len(), bytes)?;
    read_codes(
        alloc,
        so_far.types.as_slice(),
        so_far.functions.as_slice(),
        rest,
    )
}

/// The contents of a section, after the sections before it.
fn read_contents<'a>(
    alloc: Global,
    so_far: &Module,
    id: SectionId,
    bytes: &'a [u8],
) -> Result<(Contents, &'a [u8]), Unread>
    ensures { ReadsAs (λ x. (section_of x.0, x.1.now)) result ((contents (tree_of so_far.now) id).read bytes.now) }
{
    match id {
        SectionId::Custom => read_custom(bytes),
        SectionId::Types => {
            let (types, rest) = read_vector(alloc, MOST_TYPES, bytes)?;
            Ok((Contents::Types(types), rest))
        }
        SectionId::Imports => {
            let (imports, rest) = read_vector(alloc, MOST_IMPORTS, bytes)?;
            Ok((Contents::Imports(imports), rest))
        }
        SectionId::Functions => {
            let most = functions_beside(so_far.imports.as_slice());
            let (functions, rest) = read_vector(alloc, most, bytes)?;
            Ok((Contents::Functions(functions), rest))
        }
        SectionId::Tables => {
            let (tables, rest) = read_sized_vector(alloc, true, bytes)?;
            Ok((Contents::Tables(tables), rest))
        }
        SectionId::Memories => {
            let (memories, rest) = read_sized_vector(alloc, false, bytes)?;
            Ok((Contents::Memories(memories), rest))
        }
        SectionId::Globals => {
            let (globals, rest) = read_vector(alloc, MOST_GLOBALS, bytes)?;
            Ok((Contents::Globals(globals), rest))
        }
        SectionId::Exports => {
            let (exports, rest) = read_vector(alloc, MOST_EXPORTS, bytes)?;
            Ok((Contents::Exports(exports), rest))
        }
        SectionId::Start => {
            let (start, rest) = number(bytes)?;
            Ok((Contents::Start(start), rest))
        }
        SectionId::Elements => {
            let (elements, rest) = read_vector(alloc, MOST_ELEMENT_SEGMENTS, bytes)?;
            Ok((Contents::Elements(elements), rest))
        }
        SectionId::Codes => {
            let (codes, rest) = read_bodies(alloc, so_far, bytes)?;
            Ok((Contents::Codes(codes), rest))
        }
        SectionId::Segments => {
            let (segments, rest) = read_vector(alloc, MOST_DATA_SEGMENTS, bytes)?;
            Ok((Contents::Segments(segments), rest))
        }
    }
}

fn fill_section<'a>(
    alloc: Global,
    so_far: &Module,
    id: SectionId,
    whole: usize,
    size: u32,
    bytes: &'a [u8],
) -> Result<(Contents, &'a [u8]), Unread>
    ensures { ReadsAs (λ x. (section_of x.0, x.1.now)) result ((filling (misfit_of (Some whole)) size (contents (tree_of so_far.now) id)).read bytes.now) }
{
    let size = size as usize;
    if bytes.len() < size {
        return Err(ended(bytes));
    }
    let (part, after) = bytes.split_at(size);
    match read_contents(alloc, so_far, id, part) {
        Ok((contents, more)) => {
            if more.is_empty() {
                return Ok((contents, after));
            }
            Err(misfit(Some(whole), more.len() + after.len()))
        }
        Err(why) => Err(moved(Some(whole), after.len(), why)),
    }
}

/// A section, after those up to the number `last`, which say `so_far`.
pub fn read_section<'a>(
    alloc: Global,
    last: u8,
    so_far: &Module,
    bytes: &'a [u8],
) -> Result<(SectionId, Contents, &'a [u8]), Unread>
    ensures { ReadsAs (λ x. ((x.0, section_of x.1), x.2.now)) result ((section last (tree_of so_far.now)).read bytes.now) }
{
    let (id, rest) = read_section_id(last, bytes)?;
    let (size, rest) = number(rest)?;
    let (contents, after) = fill_section(alloc, so_far, id, bytes.len(), size, rest)?;
    Ok((id, contents, after))
}

/// The module of no sections.
pub fn bare_module(alloc: Global) -> Module
    ensures { tree_of result ≡ bare }
{
    Module {
        types: Seq::new(alloc),
        imports: Seq::new(alloc),
        functions: Seq::new(alloc),
        table: Seq::new(alloc),
        memory: Seq::new(alloc),
        globals: Seq::new(alloc),
        exports: Seq::new(alloc),
        start: None,
        elements: Seq::new(alloc),
        codes: Seq::new(alloc),
        segments: Seq::new(alloc),
    }
}

/// Adds what one more section says.
pub fn add_section(so_far: &mut Module, contents: Contents)
    ensures { tree_of so_far.new ≡ with_section (tree_of so_far.old) (section_of contents) }
{
    match contents {
        Contents::Custom => {}
        Contents::Types(types) => so_far.types = types,
        Contents::Imports(imports) => so_far.imports = imports,
        Contents::Functions(functions) => so_far.functions = functions,
        Contents::Tables(tables) => so_far.table = tables,
        Contents::Memories(memories) => so_far.memory = memories,
        Contents::Globals(globals) => so_far.globals = globals,
        Contents::Exports(exports) => so_far.exports = exports,
        Contents::Start(start) => so_far.start = Some(start),
        Contents::Elements(elements) => so_far.elements = elements,
        Contents::Codes(codes) => so_far.codes = codes,
        Contents::Segments(segments) => so_far.segments = segments,
    }
}
