//! A list of numbers that takes no memory while it grows within its space.
#![tactic(auto)]

ghost use Rattle.std.specs.Prelude.{◌≡◌, ◌+◌, ◌-◌, ◌<◌, ◌≤◌, ◌++◌, ◌∷◌, [], nat_lt, is_ok, length, take, replicate, slice_index, slice_set, OnOk, OnErr};

use std::alloc::{AllocError, Global};
use std::marker::Model;

/// The least number of slots that is made at once.
const LEAST: usize = 1024;

/// Numbers in slots that are all there before they are used; the list is the front of them.
#[derive(Debug, Drop)]
pub struct Slots {
    slots: Vec<u64>,
    count: usize,
}

impl Model for Slots {
    ghost use Rattle.std.specs.Prelude.{◌≤◌, length, take};
    ghost use Rattle.ante_slots.specs.Filled.{Filled};

    ghost Value = { Filled };

    ghost view = { λ s. record { items = take s.count s.slots.items; space = length s.slots.items } };

    ghost invariant = { λ s. s.count ≤ length s.slots.items };
}

impl Slots {
    /// No numbers, and no space.
    pub fn new(alloc: Global) -> Slots
        ensures { result ≡ record { items = []; space = 0 } }
    {
        Slots {
            slots: Vec::new(alloc),
            count: 0,
        }
    }

    /// How many numbers there are.
    #[inline(always)]
    pub fn len(&self) -> usize
        ensures { result ≡ length self.now.items }
    {
        self.count
    }

    /// Makes room for so many further numbers.
    pub fn make_room(&mut self, _alloc: Global, more: usize) -> Result<(), AllocError>
        ensures ok { OnOk result (length self.new.items + more ≤ self.new.space) }
        ensures err { OnErr result (self.new.space ≡ self.old.space) }
        ensures items { self.new.items ≡ self.old.items }
    {
        let size = self.slots.as_slice().len();
        if size - self.count >= more {
            return Ok(());
        }
        let wanted = self.count.saturating_add(more).saturating_mul(2);
        self.slots.resize(wanted.saturating_add(LEAST), 0)?;
        Ok(())
    }

    /// Adds a number at the end, where there is room for it.
    #[inline(always)]
    pub fn push(&mut self, value: u64) -> Result<(), AllocError>
        ensures room { is_ok result ≡ nat_lt (length self.old.items) self.old.space }
        ensures ok { OnOk result (self.new.items ≡ self.old.items ++ value ∷ []) }
        ensures err { OnErr result (self.new.items ≡ self.old.items) }
        ensures space { self.new.space ≡ self.old.space }
    {
        if self.count >= self.slots.as_slice().len() {
            return Err(AllocError);
        }
        self.slots[self.count] = value;
        self.count += 1;
        Ok(())
    }

    /// The number at this place.
    #[inline(always)]
    pub fn at(&self, at: usize) -> u64
        requires { at < length self.now.items }
        ensures { result ≡ slice_index self.now.items at }
    {
        self.slots[at]
    }

    /// Puts a number in place of another.
    #[inline(always)]
    pub fn set(&mut self, at: usize, value: u64)
        requires { at < length self.old.items }
        ensures items { self.new.items ≡ slice_set self.old.items at value }
        ensures space { self.new.space ≡ self.old.space }
    {
        self.slots[at] = value;
    }

    /// Leaves the first numbers.
    #[inline(always)]
    pub fn truncate(&mut self, count: usize)
        requires { count ≤ length self.old.items }
        ensures items { self.new.items ≡ take count self.old.items }
        ensures space { self.new.space ≡ self.old.space }
    {
        self.count = count;
    }

    /// Adds so many zeros at the end.
    pub fn add_zeros(&mut self, alloc: Global, zeros: usize) -> Result<(), AllocError>
        ensures ok { OnOk result (self.new.items ≡ self.old.items ++ replicate zeros 0) }
        ensures err { OnErr result (self.new.items ≡ self.old.items) }
    {
        self.make_room(alloc, zeros)?;
        let end = self.count + zeros;
        self.slots.as_mut_slice()[self.count..end].fill(0);
        self.count = end;
        Ok(())
    }

    /// The numbers.
    pub fn as_slice(&self) -> &[u64]
        ensures { result.now ≡ self.now.items }
    {
        &self.slots.as_slice()[..self.count]
    }
}
