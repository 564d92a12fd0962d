// Recent transactions and references.
ghost use Rattle.std.specs.Prelude.{◌≡◌, [], ◌<◌, ◌^◌, OnOk, OnErr};
ghost use Rattle.std.specs.Ordering.{nat_cmp};
ghost use Rattle.ante_undo.specs.Stack.{opened, with_top, IsAbove};
ghost use Rattle.ante_undo.specs.Entries.{changed};
ghost use Rattle.ante_objects.specs.Objects.{there_if};

use ante_pack::Digest;
use ante_sessions::{Both, Entries, Sessions, set_entry};
use ante_state::RecentKey;
use ante_undo::Layered;
use std::alloc::{AllocError, Global};
use std::marker::Model;

// Contracts see a stack of pairs: the recent transactions, and the ids by the low 16 bits of the blocks' numbers.
#[derive(Drop)]
pub struct History {
    both: Both<Layered<RecentKey, ()>, Layered<u16, Digest>>,
}

impl Model for History {
    ghost use Rattle.std.specs.Prelude.{ℕ, List};
    ghost use Rattle.ante_undo.specs.Stack.{Stack};
    ghost use Rattle.ante_state.specs.declared.objects.RecentKey.{RecentKey};

    ghost Value = { Stack (List (RecentKey × Unit {0}) × List (ℕ × List ℕ)) };

    ghost view = { λ s. s.both };
}

impl History {
    pub(crate) fn new(alloc: Global, revision: u64) -> History
        requires small { revision < 2 ^ 63 }
        ensures { result ≡ opened ([], []) revision }
    {
        History {
            both: Both {
                first: Layered::new(alloc, revision),
                second: Layered::new(alloc, revision),
            },
        }
    }

    pub(crate) fn recent(&self) -> &Layered<RecentKey, ()>
        ensures { result.now.top ≡ self.now.top.0 }
    {
        &self.both.first
    }

    pub(crate) fn references(&self) -> &Layered<u16, Digest>
        ensures { result.now.top ≡ self.now.top.1 }
    {
        &self.both.second
    }

    pub(crate) fn set_recent(
        &mut self,
        alloc: Global,
        key: RecentKey,
        there: bool,
    ) -> Result<(), AllocError>
        requires above { IsAbove 1 self.old }
        ensures ok { OnOk result (self.new ≡ with_top (changed ⟦<RecentKey as Ord>⟧.cmp self.old.top.0 key (there_if there), self.old.top.1) self.old) }
        ensures err { OnErr result (self.new ≡ self.old) }
    {
        let value = if there { Some(()) } else { None };
        set_entry(alloc, &mut self.both.first, key, value)
    }

    pub(crate) fn set_reference(
        &mut self,
        alloc: Global,
        low: u16,
        id: Option<Digest>,
    ) -> Result<(), AllocError>
        requires above { IsAbove 1 self.old }
        ensures ok { OnOk result (self.new ≡ with_top (self.old.top.0, changed nat_cmp self.old.top.1 low id) self.old) }
        ensures err { OnErr result (self.new ≡ self.old) }
    {
        set_entry(alloc, &mut self.both.second, low, id)
    }
}

impl Sessions for History {
    type Map = (Entries<RecentKey, ()>, Entries<u16, Digest>);

    ghost stack = { λ s. s };

    fn begin(&mut self, alloc: Global) -> Result<u64, AllocError> {
        self.both.begin(alloc)
    }

    fn undo(&mut self) {
        self.both.undo();
    }

    fn squash(&mut self) {
        self.both.squash();
    }

    fn commit(&mut self, revision: u64) {
        self.both.commit(revision);
    }

    fn shelve(&mut self, revision: u64) {
        self.both.shelve(revision);
    }

    fn unshelve(&mut self) {
        self.both.unshelve();
    }

    fn drop_shelf(&mut self) {
        self.both.drop_shelf();
    }

    fn revision(&self) -> u64 {
        self.both.revision()
    }

    fn sessions(&self) -> u64 {
        self.both.sessions()
    }
}
