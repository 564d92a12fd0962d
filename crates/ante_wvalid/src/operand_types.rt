ghost use Rattle.std.specs.Prelude.{◌≡◌, ◌↔◌, true, [], ◌∷◌, IsTrue, IfOk, OnOk, MatchOption};
ghost use Rattle.ante_wvalid.specs.Typing.{Operands, onto, Pops, Pushes, Turns, Anything, Dropped, Selected};
ghost use Rattle.ante_wvalid.specs.OperandStacks.{Admits, Same, Joins, Tops, Carries};

use ante_stack::Stack;
use ante_wtree::ValueKind;
use std::alloc::{AllocError, Global};

/// What is known of the stack of operands: the kinds on top, some of them unknown, and whether anything may lie below.
#[derive(Drop)]
pub struct OperandTypes {
    pub kinds: Stack<Option<ValueKind>>,
    pub bottomless: bool,
}

/// What two kinds that must agree are known to be, or nothing where they can't.
fn joined(one: Option<ValueKind>, two: Option<ValueKind>) -> Option<Option<ValueKind>>
    ensures { Joins one two result }
{
    match (one, two) {
        (None, other) => Some(other),
        (Some(kind), None) => Some(Some(kind)),
        (Some(kind), Some(other)) => {
            if kind == other {
                Some(Some(kind))
            } else {
                None
            }
        }
    }
}

impl OperandTypes {
    /// No operands.
    pub fn new(alloc: Global) -> OperandTypes
        ensures { (s : Operands) → Same (s ≡ []) (Admits result s) }
    {
        OperandTypes {
            kinds: Stack::new(alloc),
            bottomless: false,
        }
    }

    /// What is known of the topmost operand, or nothing where there is none.
    fn pop_any(&mut self) -> Option<Option<ValueKind>>
        ensures { Tops self.old result self.new }
    {
        match self.kinds.pop() {
            Some(known) => Some(known),
            None => { if self.bottomless { Some(None) } else { None } }
        }
    }

    fn push(&mut self, alloc: Global, known: Option<ValueKind>) -> Result<(), AllocError>
        ensures kinds { OnOk result (self.new.kinds ≡ known ∷ self.old.kinds) }
        ensures bottomless { OnOk result (self.new.bottomless ≡ self.old.bottomless) }
    {
        self.kinds.push(alloc, known)?;
        Ok(())
    }

    pub fn pop_kind(&mut self, kind: ValueKind) -> bool
        ensures { Carries (Pops (kind ∷ [])) result self.old self.new }
    {
        match self.pop_any() {
            None => false,
            Some(None) => true,
            Some(Some(found)) => found == kind,
        }
    }

    pub fn drop_any(&mut self) -> bool
        ensures { Carries Dropped result self.old self.new }
    {
        match self.pop_any() {
            None => false,
            Some(_) => true,
        }
    }

    pub fn select(&mut self, alloc: Global) -> Result<bool, AllocError>
        ensures { IfOk result (λ yes. Carries Selected yes self.old self.new) }
    {
        if !self.pop_kind(ValueKind::I32) {
            return Ok(false);
        }
        let Some(second) = self.pop_any() else {
            return Ok(false);
        };
        let Some(first) = self.pop_any() else {
            return Ok(false);
        };
        let Some(both) = joined(first, second) else {
            return Ok(false);
        };
        self.push(alloc, both)?;
        Ok(true)
    }

    /// The last kind is topmost.
    pub fn pop_all(&mut self, kinds: &[ValueKind]) -> bool
        ensures { Carries (Pops kinds.now) result self.old self.new }
    {
        let mut rest = kinds;
        'kinds: while let Some((kind, front)) = rest.split_last() {
            if !self.pop_kind(*kind) {
                return false;
            }
            rest = front;
        }
        true
    }

    /// The last kind becomes topmost.
    pub fn push_all(&mut self, alloc: Global, kinds: &[ValueKind]) -> Result<(), AllocError>
        ensures { OnOk result (Carries (Pushes kinds.now) true self.old self.new) }
    {
        let mut rest = kinds;
        'kinds: while let Some((kind, tail)) = rest.split_first() {
            self.push(alloc, Some(*kind))?;
            rest = tail;
        }
        Ok(())
    }

    pub fn turn(
        &mut self,
        alloc: Global,
        takes: &[ValueKind],
        gives: &[ValueKind],
    ) -> Result<bool, AllocError>
        ensures { IfOk result (λ yes. Carries (Turns takes.now gives.now) yes self.old self.new) }
    {
        if !self.pop_all(takes) {
            return Ok(false);
        }
        self.push_all(alloc, gives)?;
        Ok(true)
    }

    /// What stands after an instruction that doesn't go on.
    pub fn forget(&mut self)
        ensures { Carries Anything true self.old self.new }
    {
        self.kinds.clear();
        self.bottomless = true;
    }

    /// Whether these kinds can be all there are.
    pub fn are(&mut self, kinds: &[ValueKind]) -> bool
        ensures { IsTrue result ↔ Admits self.old (onto kinds.now []) }
    {
        if !self.pop_all(kinds) {
            return false;
        }
        self.kinds.is_empty()
    }
}
