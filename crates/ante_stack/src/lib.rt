//! A stack as contracts see it: the list of its items with the topmost first.
#![tactic(auto)]

ghost use Rattle.std.specs.Prelude.{◌≡◌, ◌↔◌, ◌∷◌, [], length, slice_get, drop, IsTrue, OnOk, OnErr, MatchOption};
ghost use Rattle.std.specs.Option.{option_copied};

use std::alloc::{AllocError, Global};
use std::marker::Model;

/// Items of which the last one put on is the first one taken off.
#[derive(Debug, Drop)]
pub struct Stack<T> {
    items: Vec<T>,
}

impl<T> Model for Stack<T> {
    ghost use Rattle.std.specs.Prelude.{List, reverse};
    ghost use Rattle.std.specs.Coded.{coded_list};

    ghost Value = { List T };

    ghost coded = { coded_list T.code };

    ghost view = { λ s. reverse s.items.items };
}

impl<T> Stack<T> {
    /// A stack of no items.
    pub fn new(alloc: Global) -> Stack<T>
        ensures { result ≡ [] }
    {
        Stack {
            items: Vec::new(alloc),
        }
    }

    /// How many items there are.
    pub fn len(&self) -> usize
        ensures { result ≡ length self.now }
    {
        self.items.as_slice().len()
    }

    /// Whether there are none.
    pub fn is_empty(&self) -> bool
        ensures { IsTrue result ↔ (self.now ≡ []) }
    {
        self.items.as_slice().is_empty()
    }

    /// Puts an item on top.
    pub fn push(&mut self, _alloc: Global, item: T) -> Result<(), AllocError>
    where
        T: Drop,
        ensures ok { OnOk result (self.new ≡ item ∷ self.old) }
        ensures err { OnErr result (self.new ≡ self.old) }
    {
        self.items.push(item)?;
        Ok(())
    }

    /// Takes the topmost item off, if there is one.
    pub fn pop(&mut self) -> Option<T>
        ensures { MatchOption result ((self.old ≡ []) × (self.new ≡ [])) (λ item. self.old ≡ item ∷ self.new) }
    {
        self.items.pop()
    }

    /// A copy of the topmost item, if there is one.
    pub fn top(&self) -> Option<T>
    where
        T: Copy,
        ensures { MatchOption result (self.now ≡ []) (λ item. self.now ≡ item ∷ drop 1 self.now) }
    {
        self.items.as_slice().last().copied()
    }

    /// Takes the topmost item away, if there is one.
    pub fn discard(&mut self)
    where
        T: Drop,
        ensures { self.new ≡ drop 1 self.old }
    {
        let _ = self.items.pop();
    }

    /// Takes all items away.
    pub fn clear(&mut self)
    where
        T: Drop,
        ensures { self.new ≡ [] }
    {
        self.items.clear();
    }

    /// A copy of the item with this many above it, if there is one.
    pub fn at(&self, depth: usize) -> Option<T>
    where
        T: Copy,
        ensures { result ≡ slice_get self.now depth }
    {
        let count = self.items.as_slice().len();
        if depth >= count {
            return None;
        }
        self.items.get(count - 1 - depth).copied()
    }
}
