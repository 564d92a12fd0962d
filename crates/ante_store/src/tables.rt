// The store as a run of actions is given it: to write, or to read only.
ghost use Rattle.std.specs.Prelude.{◌≡◌, ℕ, Bool, ◌<◌, length, true, false, None, Err, OnOk, OnErr, IfErr};
ghost use Rattle.ante_undo.specs.Stack.{Stack, with_top, IsAbove};
ghost use Rattle.ante_types.specs.World.{World};
ghost use Rattle.ante_store.specs.Changes.{after, refusal, IsCause};
ghost use Rattle.ante_store.specs.declared.change.WriteError.TheVariants.{WriteRefused};

use crate::change::{Change, WriteError};
use crate::store::Store;
use std::alloc::Global;

/// A store to write to, or only to read.
pub trait Tables {
    ghost writing: { Self → Bool };

    ghost stack: { Self → Stack World };

    // Which reference to a store is held: no call changes it.
    ghost lent: { Self → ℕ };

    /// Whether it may be written to.
    fn writes(&self) -> bool
        ensures { result ≡ writing self.now };

    /// The store as it stands.
    fn store(&self) -> &Store
        ensures { result.now ≡ stack self.now };

    /// Makes the change in the newest session, or leaves all as it was.
    fn write(&mut self, alloc: Global, change: Change) -> Result<(), WriteError>
        requires session { writing self.old ≡ true → 0 < length (stack self.old).under }
        requires above { writing self.old ≡ true → IsAbove 1 (stack self.old) }
        ensures writing { writing self.new ≡ writing self.old }
        ensures lent { lent self.new ≡ lent self.old }
        ensures reading { writing self.old ≡ false → result ≡ Err WriteRefused }
        ensures granted { OnOk result (refusal change (stack self.old).top ≡ None) }
        ensures ok { OnOk result (stack self.new ≡ with_top (after change (stack self.old).top) (stack self.old)) }
        ensures cause { writing self.old ≡ true → IfErr result (IsCause change (stack self.old).top) }
        ensures err { OnErr result (stack self.new ≡ stack self.old) };
}

/// A store to write to.
#[derive(Drop)]
pub struct Writing<'a>(pub &'a mut Store);

/// A store to read only.
#[derive(Drop)]
pub struct Reading<'a>(pub &'a Store);

impl Tables for Writing<'_> {
    ghost writing = { λ s. true };

    ghost stack = { λ s. s.0.now };

    ghost lent = { λ s. s.0.ghost_name };

    fn writes(&self) -> bool {
        true
    }

    fn store(&self) -> &Store {
        &*self.0
    }

    fn write(&mut self, alloc: Global, change: Change) -> Result<(), WriteError> {
        self.0.change(alloc, change)
    }
}

impl Tables for Reading<'_> {
    ghost writing = { λ s. false };

    ghost stack = { λ s. s.0.now };

    ghost lent = { λ s. 0 };

    fn writes(&self) -> bool {
        false
    }

    fn store(&self) -> &Store {
        self.0
    }

    fn write(&mut self, _alloc: Global, _change: Change) -> Result<(), WriteError> {
        Err(WriteError::WriteRefused)
    }
}
