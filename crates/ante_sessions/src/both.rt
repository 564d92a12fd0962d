ghost use Rattle.std.specs.Prelude.{◌≡◌};

use crate::sessions::Sessions;
use std::alloc::{AllocError, Global};
use std::marker::Model;

/// Two values that are in the same sessions. Contracts see one stack of pairs.
#[derive(Drop)]
pub struct Both<A: Sessions, B: Sessions> {
    pub first: A,
    pub second: B,
}

impl<A: Sessions, B: Sessions> Model for Both<A, B> {
    ghost use Rattle.ante_undo.specs.Stack.{Stack};
    ghost use Rattle.ante_sessions.specs.Zipped.{zip_stacks, Alike};

    ghost Value = { Stack (A.Map × B.Map) };

    ghost view = { λ s. zip_stacks (A.stack s.first) (B.stack s.second) };

    ghost invariant = { λ s. Alike (A.stack s.first) (B.stack s.second) };
}

impl<A: Sessions, B: Sessions> Sessions for Both<A, B> {
    type Map = (A::Map, B::Map);

    ghost stack = { λ s. s };

    // A refusal by the second takes the first one's session back, which needs no memory.
    fn begin(&mut self, alloc: Global) -> Result<u64, AllocError> {
        let revision = self.first.begin(alloc)?;
        match self.second.begin(alloc) {
            Ok(_) => Ok(revision),
            Err(refused) => {
                self.first.undo();
                Err(refused)
            }
        }
    }

    fn undo(&mut self) {
        self.first.undo();
        self.second.undo();
    }

    fn squash(&mut self) {
        self.first.squash();
        self.second.squash();
    }

    fn commit(&mut self, revision: u64) {
        self.first.commit(revision);
        self.second.commit(revision);
    }

    fn shelve(&mut self, revision: u64) {
        self.first.shelve(revision);
        self.second.shelve(revision);
    }

    fn unshelve(&mut self) {
        self.first.unshelve();
        self.second.unshelve();
    }

    fn drop_shelf(&mut self) {
        self.first.drop_shelf();
        self.second.drop_shelf();
    }

    fn revision(&self) -> u64 {
        self.first.revision()
    }

    fn sessions(&self) -> u64 {
        self.first.sessions()
    }
}
