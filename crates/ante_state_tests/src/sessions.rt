// The session calls as steps of a script, for whatever has them.
ghost use Rattle.std.specs.Prelude.{◌≡◌, ◌≤◌, ◌+◌, ◌<◌, IsTrue, None, OnOk};
ghost use Rattle.std.specs.Option.{option_map};
ghost use Rattle.ante_undo.specs.Stack.{IsAbove};

use ante_sessions::Sessions;
use std::alloc::{AllocError, Global};

// One call, with the revision that `begin` is to answer.
#[derive(Clone, Copy, Debug)]
pub(crate) enum Call {
    Begin(u64),
    Undo,
    Squash,
    Commit(u64),
    Shelve(u64),
    Unshelve,
    DropShelf,
}

// What a value is written as.
pub(crate) trait Written {
    fn write(&self, text: &mut String) -> Result<(), AllocError>;
}

// A value in sessions, with the revision of its shelf while one is out.
#[derive(Drop)]
pub(crate) struct Trial<S: Sessions> {
    pub(crate) state: S,
    pub(crate) shelf: Option<u64>,
    ghost tied: { option_map (λ s. s.revision) (S.stack state).shelf ≡ shelf },
}

impl<S: Sessions> Trial<S> {
    // Whether so many sessions have begun since the shelf was made.
    pub(crate) fn is_above(&self, sessions: u64) -> bool
        ensures { IsTrue result → IsAbove sessions (S.stack self.now.state) }
    {
        let revision = self.state.revision();
        match self.shelf {
            Some(shelf) => shelf <= revision && sessions <= revision - shelf,
            None => true,
        }
    }

    // Makes the call, and says whether its conditions held and it answered what it is to answer.
    pub(crate) fn call(&mut self, alloc: Global, call: Call) -> Result<bool, AllocError> {
        match call {
            Call::Begin(revision) => Ok(self.begin(alloc)? == Some(revision)),
            Call::Undo => Ok(self.undo()),
            Call::Squash => Ok(self.squash()),
            Call::Commit(revision) => Ok(self.commit(revision)),
            Call::Shelve(revision) => Ok(self.shelve(revision)),
            Call::Unshelve => Ok(self.unshelve()),
            Call::DropShelf => Ok(self.drop_shelf()),
        }
    }

    fn begin(&mut self, alloc: Global) -> Result<Option<u64>, AllocError> {
        if self.state.revision() >= 1000 {
            return Ok(None);
        }
        match self.state.begin(alloc) {
            Ok(revision) => Ok(Some(revision)),
            Err(refused) => Err(refused),
        }
    }

    fn undo(&mut self) -> bool {
        if self.state.sessions() > 0 && self.is_above(1) {
            self.state.undo();
            true
        } else {
            false
        }
    }

    fn squash(&mut self) -> bool {
        if self.state.sessions() > 1 && self.is_above(2) {
            self.state.squash();
            true
        } else {
            false
        }
    }

    fn commit(&mut self, revision: u64) -> bool {
        if self.shelf.is_none() {
            self.state.commit(revision);
            true
        } else {
            false
        }
    }

    fn shelve(&mut self, revision: u64) -> bool {
        let now = self.state.revision();
        if self.shelf.is_none() && revision <= now && now - revision <= self.state.sessions() {
            self.state.shelve(revision);
            self.shelf = Some(revision);
            true
        } else {
            false
        }
    }

    fn unshelve(&mut self) -> bool {
        if self.shelf.is_some() {
            self.state.unshelve();
            self.shelf = None;
            true
        } else {
            false
        }
    }

    fn drop_shelf(&mut self) -> bool {
        if self.shelf.is_some() {
            self.state.drop_shelf();
            self.shelf = None;
            true
        } else {
            false
        }
    }
}

// All values of the stack, the top first. Each is written as it stands, and its session is taken back.
pub(crate) fn write_stack<S: Sessions + Written>(
    trial: &mut Trial<S>,
    text: &mut String,
) -> Result<(), AllocError> {
    trial.state.write(text)?;
    for _ in 0..100 {
        if !trial.undo() {
            break;
        }
        text.push_str(" |")?;
        trial.state.write(text)?;
    }
    Ok(())
}
