//! Making an instance of a valid module (section 4.5.4). Each type, name, body and number that it takes is there.
ghost use Rattle.std.specs.Prelude.{◌≡◌, ◌+◌, ◌<◌, ◌≤◌, ◌&&◌, [], ◌∷◌, ◌++◌, length, map, nat_le, slice_get, fold, codes, IfOk, OnOk, true, Any};
ghost use Rattle.std.specs.List.{AllByRecursion};
ghost use Rattle.std.specs.Str.{bytes_eq};
ghost use Rattle.ante_wmem.specs.Limits.{most_memory_pages};
ghost use Rattle.ante_wtree.specs.Trees.{body_of, tree_of};
ghost use Rattle.ante_wvalid.specs.Modules.{IsValid, OutOfBounds};
ghost use Rattle.ante_wvalues.specs.PlainSteps.{values_of};
ghost use Rattle.ante_wrun.specs.Control.{instance_of, program_of};
ghost use Rattle.ante_wmeaning.specs.Instantiation.{host_place, given_as, given_functions, own, own_functions, program_in};
ghost use Rattle.ante_wmeaning.specs.Instantiation.{constant, offset_of, empty_table, most_pages, empty_memory, first_values};
ghost use Rattle.ante_wmeaning.specs.Instantiation.{elements_fit, data_fits, with_element, with_segment, named_apply, apply_in};
ghost use Rattle.ante_wrun.specs.GrantedByValidity.{Links, IsLiteral};
ghost use Rattle.ante_wrun.specs.InstanceAndCalls.{IsInstance};

use crate::control::{Function, Functions};
use ante_wmem::Memory;
use ante_wmem::limits::{MOST_MEMORY_PAGES, PAGE_SIZE};
use ante_wtree::{
    Code, Element, Export, FuncType, Global, Import, ImportKind, Init, Limits, Module, Segment,
    host_number,
};
use ante_wvalues::{Data, ValueStack, low};
use std::alloc::{AllocError, Global as Heap};

/// An instance of which no function was called.
#[derive(Drop)]
pub(crate) struct Instance<'a> {
    pub(crate) functions: Functions<'a>,
    pub(crate) data: Data,
}

fn host_place(name: &[u8]) -> Option<u32>
    ensures { result ≡ host_place name.now }
{
    host_number(name)
}

/// The host's function of an import.
fn given<'a>(types: &'a [FuncType], import: &Import) -> Function<'a>
    requires { Links types.now import.now }
    ensures { given_as types.entry.now import.now.name import.now.kind ≡ instance_of result ∷ [] }
{
    let ImportKind::Function(kind) = import.kind else {
        unreachable!()
    };
    let Some(number) = host_place(import.name.as_slice()) else {
        unreachable!()
    };
    let kind = &types[kind as usize];
    Function::Host { kind, number }
}

fn given_functions<'a>(
    alloc: Heap,
    types: &'a [FuncType],
    imports: &[Import],
) -> Result<Vec<Function<'a>>, AllocError>
    requires { AllByRecursion (Links types.now) imports.now }
    ensures { IfOk result (λ all. map instance_of all.items ≡ given_functions types.entry.now imports.now) }
{
    let mut all = Vec::new(alloc);
    let mut rest = imports;
    'imports: while let Some((import, tail)) = rest.split_first() {
        all.push(given(types, import))?;
        rest = tail;
    }
    Ok(all)
}

/// How many locals a body has beside the parameters. More than can be numbered want more memory than there is.
fn local_count(_alloc: Heap, code: &Code) -> Result<u32, AllocError>
    ensures { IfOk result (λ count. count ≡ length code.now.locals) }
{
    let count = code.locals.len();
    if count > u32::MAX as usize {
        return Err(AllocError);
    }
    Ok(count as u32)
}

fn own<'a>(
    alloc: Heap,
    types: &'a [FuncType],
    kind: u32,
    code: &'a Code,
) -> Result<Function<'a>, AllocError>
    requires { kind < length types.now }
    ensures { IfOk result (λ f. instance_of f ≡ own (slice_get types.entry.now kind) (body_of code.entry.now)) }
{
    let kind = &types[kind as usize];
    let locals = local_count(alloc, code)?;
    let body = code.body.as_slice();
    Ok(Function::Own { kind, locals, body })
}

/// Adds the module's own functions.
fn add_own<'a>(
    all: &mut Vec<Function<'a>>,
    alloc: Heap,
    types: &'a [FuncType],
    kinds: &[u32],
    codes: &'a [Code],
) -> Result<(), AllocError>
    requires types { AllByRecursion (λ kind. kind < length types.now) kinds.now }
    requires bodies { length kinds.now ≡ length codes.now }
    ensures { OnOk result (map instance_of all.new.items
        ≡ map instance_of all.old.items ++ own_functions types.entry.now kinds.now (map body_of codes.entry.now)) }
{
    let (mut kind, mut code) = (kinds, codes);
    'functions: while let Some((number, kinds)) = kind.split_first() {
        let Some((first, codes)) = code.split_first() else {
            unreachable!()
        };
        all.push(own(alloc, types, *number, first)?)?;
        kind = kinds;
        code = codes;
    }
    Ok(())
}

fn constant(init: Init) -> u64
    requires { IsLiteral init }
    ensures { result ≡ constant init }
{
    match init {
        Init::Const32(bits) => u64::from(bits),
        Init::Const64(bits) => bits,
        Init::GlobalGet(_) => unreachable!(),
    }
}

fn offset_of(init: Init) -> u32
    requires { IsLiteral init }
    ensures { result ≡ offset_of init }
{
    low(constant(init))
}

fn first_globals(alloc: Heap, globals: &[Global]) -> Result<Vec<u64>, AllocError>
    requires { AllByRecursion (λ g. IsLiteral g.init) globals.now }
    ensures { IfOk result (λ values. values.items ≡ map (λ g. constant g.init) globals.now) }
{
    let mut values = Vec::new(alloc);
    let mut rest = globals;
    'globals: while let Some((global, tail)) = rest.split_first() {
        values.push(constant(global.init))?;
        rest = tail;
    }
    Ok(values)
}

fn empty_table(alloc: Heap, limits: &[Limits]) -> Result<Vec<Option<u32>>, AllocError>
    ensures { IfOk result (λ table. table.items ≡ empty_table limits.now) }
{
    let Some(limits) = limits.first() else {
        return Ok(Vec::new(alloc));
    };
    Ok(vec![in alloc; None; limits.least as usize]?)
}

fn most_pages(most: Option<u32>) -> u32
    ensures { result ≡ most_pages most }
{
    match most {
        Some(most) if most < MOST_MEMORY_PAGES => most,
        Some(_) | None => MOST_MEMORY_PAGES,
    }
}

fn empty_memory(alloc: Heap, limits: &[Limits]) -> Result<Memory, AllocError>
    requires { Any (OutOfBounds most_memory_pages) limits.now → ⊥ }
    ensures { IfOk result (λ memory. memory ≡ empty_memory limits.now) }
{
    match limits.first() {
        Some(limits) => Memory::new(alloc, limits.least, most_pages(limits.most)),
        None => Memory::new(alloc, 0, 0),
    }
}

fn fits(at: u32, count: usize, bound: usize) -> bool
    ensures { result ≡ nat_le (at + count) bound }
{
    at as usize <= bound && count <= bound - at as usize
}

fn elements_fit(places: usize, elements: &[Element]) -> bool
    requires { AllByRecursion (λ e. IsLiteral e.offset) elements.now }
    ensures { result ≡ elements_fit places elements.now }
{
    let mut rest = elements;
    'elements: while let Some((element, tail)) = rest.split_first() {
        if !fits(offset_of(element.offset), element.functions.len(), places) {
            return false;
        }
        rest = tail;
    }
    true
}

fn data_fits(count: usize, segments: &[Segment]) -> bool
    requires { AllByRecursion (λ s. IsLiteral s.offset) segments.now }
    ensures { result ≡ data_fits count segments.now }
{
    let mut rest = segments;
    'segments: while let Some((segment, tail)) = rest.split_first() {
        if !fits(offset_of(segment.offset), segment.bytes.len(), count) {
            return false;
        }
        rest = tail;
    }
    true
}

/// Writes the numbers of a segment's functions.
fn put_element(table: &mut [Option<u32>], element: &Element)
    requires literal { IsLiteral element.now.offset }
    requires fits { offset_of element.now.offset + length element.now.functions ≤ length table.old }
    ensures { table.new ≡ with_element table.old element.now }
{
    let mut at = offset_of(element.offset) as usize;
    let mut rest = element.functions.as_slice();
    'functions: while let Some((function, tail)) = rest.split_first() {
        table[at] = Some(*function);
        at += 1;
        rest = tail;
    }
}

fn put_elements(table: &mut [Option<u32>], elements: &[Element])
    requires literal { AllByRecursion (λ e. IsLiteral e.offset) elements.now }
    requires fit { elements_fit (length table.old) elements.now ≡ true }
    ensures { table.new ≡ fold with_element table.old elements.now }
{
    let mut rest = elements;
    'elements: while let Some((element, tail)) = rest.split_first() {
        put_element(table, element);
        rest = tail;
    }
}

/// Writes a segment's bytes.
fn put_segment(memory: &mut Memory, segment: &Segment)
    requires literal { IsLiteral segment.now.offset }
    requires fits { offset_of segment.now.offset + length segment.now.bytes ≤ length memory.old.bytes }
    ensures { memory.new ≡ with_segment memory.old segment.now }
{
    if memory
        .write_bytes(offset_of(segment.offset), segment.bytes.as_slice())
        .is_err()
    {
        unreachable!();
    }
}

fn put_segments(memory: &mut Memory, segments: &[Segment])
    requires literal { AllByRecursion (λ s. IsLiteral s.offset) segments.now }
    requires fit { data_fits (length memory.old.bytes) segments.now ≡ true }
    ensures { memory.new ≡ fold with_segment memory.old segments.now }
{
    let mut rest = segments;
    'segments: while let Some((segment, tail)) = rest.split_first() {
        put_segment(memory, segment);
        rest = tail;
    }
}

fn functions_of(alloc: Heap, module: &Module) -> Result<Functions<'_>, AllocError>
    requires { IsValid (tree_of module.now) }
    ensures { IfOk result (λ f. program_of f ≡ record (program_in (tree_of module.now)) { table = empty_table module.now.table }) }
{
    let types = module.types.as_slice();
    let mut all = given_functions(alloc, types, module.imports.as_slice())?;
    add_own(
        &mut all,
        alloc,
        types,
        module.functions.as_slice(),
        module.codes.as_slice(),
    )?;
    let table = empty_table(alloc, module.table.as_slice())?;
    Ok(Functions { types, all, table })
}

fn data_of(alloc: Heap, module: &Module) -> Result<Data, AllocError>
    requires { IsValid (tree_of module.now) }
    ensures { IfOk result (λ d. values_of d ≡ record (first_values (tree_of module.now)) { memory = empty_memory module.now.memory }) }
{
    Ok(Data {
        values: ValueStack::new(alloc),
        globals: first_globals(alloc, module.globals.as_slice())?,
        memory: empty_memory(alloc, module.memory.as_slice())?,
    })
}

/// Whether all segments fit.
fn segments_fit(module: &Module, places: usize, count: usize) -> bool
    requires { IsValid (tree_of module.now) }
    ensures { result ≡ (elements_fit places module.now.elements && data_fits count module.now.segments) }
{
    elements_fit(places, module.elements.as_slice()) && data_fits(count, module.segments.as_slice())
}

/// Makes the instance, or none where a segment doesn't fit.
pub(crate) fn instantiate(alloc: Heap, module: &Module) -> Result<Option<Instance<'_>>, AllocError>
    requires { IsValid (tree_of module.now) }
    ensures { IfOk result (IsInstance (tree_of module.now)) }
{
    let mut functions = functions_of(alloc, module)?;
    let mut data = data_of(alloc, module)?;
    let places = functions.table.as_slice().len();
    let count = PAGE_SIZE * data.memory.pages() as usize;
    if !segments_fit(module, places, count) {
        return Ok(None);
    }
    put_elements(functions.table.as_mut_slice(), module.elements.as_slice());
    put_segments(&mut data.memory, module.segments.as_slice());
    Ok(Some(Instance { functions, data }))
}

fn same_bytes(one: &[u8], two: &[u8]) -> bool
    ensures { result ≡ bytes_eq one.now two.now }
{
    one == two
}

fn is_apply(export: &Export) -> bool
    ensures { result ≡ bytes_eq export.now.name (codes "apply") }
{
    same_bytes(export.name.as_slice(), b"apply")
}

fn named_apply(exports: &[Export]) -> Option<u32>
    ensures { result ≡ named_apply exports.now }
{
    let found = exports.iter().find(|export| is_apply(export));
    found.map(|export| export.index)
}

/// The number of the function that is exported as `apply`. Nothing else has this name, so its kind isn't asked.
pub(crate) fn apply_index(module: &Module) -> Option<u32>
    requires { IsValid (tree_of module.now) }
    ensures { result ≡ apply_in (tree_of module.now) }
{
    named_apply(module.exports.as_slice())
}
