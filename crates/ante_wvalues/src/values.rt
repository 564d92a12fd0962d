//! The locals and operands of all frames in one growing list.
ghost use Rattle.std.specs.Prelude.{◌≡◌, ◌+◌, ◌<◌, ◌≤◌, [], ◌∷◌, ◌++◌, length, take, drop, reverse, replicate, slice_index, slice_set, OnOk, OnErr};
ghost use Rattle.ante_wtree.specs.Types.{mask, masked};
ghost use Rattle.ante_wmeaning.specs.PlainInstructions.{top, popped};
ghost use Rattle.ante_wmeaning.specs.Arities.{arity};
ghost use Rattle.ante_wmeaning.specs.Execution.{keep, unwound, arguments};

use ante_slots::Slots;
use ante_wtree::ValueKind;
use std::alloc::{AllocError, Global};
use std::marker::Model;

/// Each frame's locals lie below its operands, and these below the next frame's locals.
#[derive(Drop)]
pub struct ValueStack {
    items: Slots,
    /// Where this frame's locals begin.
    base: usize,
    /// Where its operands begin.
    floor: usize,
}

impl Model for ValueStack {
    ghost use Rattle.std.specs.Prelude.{◌-◌, ◌≤◌, length, take, drop, reverse};
    ghost use Rattle.ante_wvalues.specs.FrameValues.{FrameValues};

    ghost Value = { FrameValues };

    ghost view = { λ s. record {
      below = take s.base s.items.items;
      locals = take (s.floor - s.base) (drop s.base s.items.items);
      stack = reverse (drop s.floor s.items.items);
    } };

    ghost invariant = { λ s. (s.base ≤ s.floor) × (s.floor ≤ length s.items.items) };
}

impl ValueStack {
    /// No values, and no room for any.
    pub fn new(alloc: Global) -> ValueStack
        ensures { result ≡ record { below = []; locals = []; stack = [] } }
    {
        ValueStack {
            items: Slots::new(alloc),
            base: 0,
            floor: 0,
        }
    }

    /// How many operands there are.
    #[inline(always)]
    pub fn height(&self) -> usize
        ensures { result ≡ length self.now.stack }
    {
        self.items.len() - self.floor
    }

    /// How many values lie below this frame's.
    pub fn below(&self) -> usize
        ensures { result ≡ length self.now.below }
    {
        self.base
    }

    /// How many locals this frame has.
    pub fn local_count(&self) -> usize
        ensures { result ≡ length self.now.locals }
    {
        self.floor - self.base
    }

    /// Makes room for a further operand.
    #[inline(always)]
    pub(crate) fn make_room(&mut self, alloc: Global) -> Result<(), AllocError>
        ensures { self.new ≡ self.old }
    {
        self.items.make_room(alloc, 1)
    }

    /// Puts a value on top, where there is room for it.
    #[inline(always)]
    pub(crate) fn push(&mut self, value: u64) -> Result<(), AllocError>
        ensures ok { OnOk result (self.new ≡ record self.old { stack = value ∷ self.old.stack }) }
        ensures err { OnErr result (self.new ≡ self.old) }
    {
        self.items.push(value)
    }

    /// Puts a value on top, where room is made for it first.
    pub fn push_with_room(&mut self, alloc: Global, value: u64) -> Result<(), AllocError>
        ensures ok { OnOk result (self.new ≡ record self.old { stack = value ∷ self.old.stack }) }
        ensures err { OnErr result (self.new ≡ self.old) }
    {
        self.make_room(alloc)?;
        self.push(value)
    }

    /// The topmost operand.
    #[inline(always)]
    pub fn top(&self) -> u64
        requires { 0 < length self.now.stack }
        ensures { result ≡ top self.now.stack }
    {
        self.items.at(self.items.len() - 1)
    }

    /// Takes the topmost operand off.
    #[inline(always)]
    pub fn pop(&mut self) -> u64
        requires { 0 < length self.old.stack }
        ensures value { result ≡ top self.old.stack }
        ensures rest { self.new ≡ record self.old { stack = popped self.old.stack } }
    {
        let last = self.items.len() - 1;
        let value = self.items.at(last);
        self.items.truncate(last);
        value
    }

    /// Puts a value in place of the topmost operand.
    #[inline(always)]
    pub(crate) fn put(&mut self, value: u64)
        requires { 0 < length self.old.stack }
        ensures { self.new ≡ record self.old { stack = value ∷ popped self.old.stack } }
    {
        let last = self.items.len() - 1;
        self.items.set(last, value);
    }

    #[inline(always)]
    pub(crate) fn local(&self, at: u32) -> u64
        requires { at < length self.now.locals }
        ensures { result ≡ slice_index self.now.locals at }
    {
        prove!(self.floor <= self.items.len());
        self.items.at(self.base + at as usize)
    }

    #[inline(always)]
    pub(crate) fn set_local(&mut self, at: u32, value: u64)
        requires { at < length self.old.locals }
        ensures { self.new ≡ record self.old { locals = slice_set self.old.locals at value } }
    {
        prove!(self.floor <= self.items.len());
        self.items.set(self.base + at as usize, value);
    }

    /// Leaves the lowest operands.
    #[inline(always)]
    pub fn keep(&mut self, height: usize)
        requires { height ≤ length self.old.stack }
        ensures { self.new ≡ record self.old { stack = keep height self.old.stack } }
    {
        prove!(height <= self.items.len() - self.floor);
        self.items.truncate(self.floor + height);
    }

    /// Leaves the results of a block on the lowest operands.
    #[inline(always)]
    pub fn unwind(&mut self, kind: Option<ValueKind>, height: usize)
        requires { height + arity kind ≤ length self.old.stack }
        ensures { self.new ≡ record self.old { stack = unwound kind height self.old.stack } }
    {
        if kind.is_none() {
            return self.keep(height);
        }
        let answer = self.top();
        prove!(height < self.items.len() - self.floor);
        let at = self.floor + height;
        self.items.set(at, answer);
        self.items.truncate(at + 1);
    }

    /// Begins a frame: so many operands are its first locals, and zeros are the others.
    pub fn enter(&mut self, alloc: Global, params: usize, zeros: u32) -> Result<(), AllocError>
        requires { params ≤ length self.old.stack }
        ensures ok { OnOk result (self.new ≡ record {
          below = self.old.below ++ (self.old.locals ++ reverse (drop params self.old.stack));
          locals = arguments params self.old.stack ++ replicate zeros 0;
          stack = [];
        }) }
        ensures err { OnErr result (self.new ≡ self.old) }
    {
        let count = self.items.len();
        self.items.add_zeros(alloc, zeros as usize)?;
        self.base = count - params;
        self.floor = self.items.len();
        Ok(())
    }

    /// Ends a frame: the values below it are those of the frame whose locals begin there and are so many, and the results
    /// go on top of its operands.
    pub fn leave(&mut self, kind: Option<ValueKind>, base: usize, locals: usize)
        requires results { arity kind ≤ length self.old.stack }
        requires within { base + locals ≤ length self.old.below }
        ensures { self.new ≡ record {
          below = take base self.old.below;
          locals = take locals (drop base self.old.below);
          stack = take (arity kind) self.old.stack ++ reverse (drop locals (drop base self.old.below));
        } }
    {
        let end = self.base;
        if kind.is_some() {
            let answer = self.top();
            self.items.set(end, answer);
            prove!(end < self.items.len());
            self.items.truncate(end + 1);
            self.base = base;
            self.floor = base + locals;
            return;
        }
        self.items.truncate(end);
        self.base = base;
        self.floor = base + locals;
    }

    /// Masks the arguments of a call, which lie below the topmost operand, to their kinds.
    pub fn mask(&mut self, kinds: &[ValueKind])
        requires { length kinds.now < length self.old.stack }
        ensures arguments { arguments (length kinds.now) (popped self.new.stack) ≡ masked kinds.now (arguments (length kinds.now) (popped self.old.stack)) }
        ensures rest { drop (length kinds.now) (popped self.new.stack) ≡ drop (length kinds.now) (popped self.old.stack) }
        ensures length { length self.new.stack ≡ length self.old.stack }
        ensures frames { (self.new.below ≡ self.old.below) × (self.new.locals ≡ self.old.locals) }
    {
        let first = self.items.len() - 1 - kinds.len();
        mask_from(&mut self.items, first, kinds);
    }

    /// The arguments of a call, below the topmost operand.
    pub fn arguments(&self, count: usize) -> &[u64]
        requires { count < length self.now.stack }
        ensures { result.now ≡ arguments count (popped self.now.stack) }
    {
        let end = self.items.len() - 1;
        &self.items.as_slice()[end - count..end]
    }

    /// Takes the topmost operand off, and the arguments below it.
    pub fn discard(&mut self, count: usize)
        requires { count < length self.old.stack }
        ensures { self.new ≡ record self.old { stack = drop count (popped self.old.stack) } }
    {
        let height = self.height();
        self.keep(height - 1 - count);
    }

    /// Puts a value in place of the topmost operand and the arguments below it.
    pub fn answer(&mut self, count: usize, value: u64)
        requires { count < length self.old.stack }
        ensures { self.new ≡ record self.old { stack = value ∷ drop count (popped self.old.stack) } }
    {
        let height = self.height();
        self.keep(height - count);
        self.put(value);
    }
}

fn mask(kind: ValueKind, value: u64) -> u64
    ensures { result ≡ mask kind value }
{
    match kind {
        ValueKind::I32 => value % (1 << 32),
        ValueKind::I64 => value,
    }
}

/// Masks as many values as there are kinds, from a place on.
fn mask_from(values: &mut Slots, first: usize, kinds: &[ValueKind])
    requires { first + length kinds.now ≤ length values.old.items }
    ensures values { let from = drop first values.old.items in
        values.new.items ≡ take first values.old.items ++ (masked kinds.now (take (length kinds.now) from) ++ drop (length kinds.now) from) }
    ensures length { length values.new.items ≡ length values.old.items }
{
    let (mut at, mut kind) = (first, kinds);
    'kinds: while let Some((next, rest)) = kind.split_first() {
        prove!(at < values.len());
        values.set(at, mask(*next, values.at(at)));
        at += 1;
        kind = rest;
    }
}
