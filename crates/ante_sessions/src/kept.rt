ghost use Rattle.std.specs.Prelude.{◌≡◌};

use crate::sessions::Sessions;
use std::alloc::{AllocError, Global};
use std::marker::{Model, PhantomData};

/// How a value is seen, and the rule that it keeps.
pub trait Rule<S: Sessions> {
    /// What the value is seen as.
    type Shown;

    ghost shown: { S.Map → Self.Shown };

    ghost holds: { S.Map → Type 0 };
}

/// A value that is seen through a function and keeps a rule. The rule holds of the top, of what each session began with
/// and of what is on the shelf, so that no session call can break it.
#[derive(Drop)]
pub struct Kept<S: Sessions, R: Rule<S>> {
    pub inner: S,
    pub rule: PhantomData<R>,
}

impl<S: Sessions, R: Rule<S>> Model for Kept<S, R> {
    ghost use Rattle.ante_undo.specs.Stack.{Stack};
    ghost use Rattle.ante_sessions.specs.Seen.{map_stack, Throughout};

    ghost Value = { Stack R.Shown };

    ghost view = { λ s. map_stack R.shown (S.stack s.inner) };

    ghost invariant = { λ s. Throughout R.holds (S.stack s.inner) };
}

impl<S: Sessions, R: Rule<S>> Sessions for Kept<S, R> {
    type Map = R::Shown;

    ghost stack = { λ s. s };

    fn begin(&mut self, alloc: Global) -> Result<u64, AllocError> {
        self.inner.begin(alloc)
    }

    fn undo(&mut self) {
        self.inner.undo();
    }

    fn squash(&mut self) {
        self.inner.squash();
    }

    fn commit(&mut self, revision: u64) {
        self.inner.commit(revision);
    }

    fn shelve(&mut self, revision: u64) {
        self.inner.shelve(revision);
    }

    fn unshelve(&mut self) {
        self.inner.unshelve();
    }

    fn drop_shelf(&mut self) {
        self.inner.drop_shelf();
    }

    fn revision(&self) -> u64 {
        self.inner.revision()
    }

    fn sessions(&self) -> u64 {
        self.inner.sessions()
    }
}
