ghost use Rattle.std.specs.Prelude.{◌≡◌, ℕ, ◌+◌, ◌^◌, ◌<◌, ◌≤◌, length, IfSome, IsSome, IsNone, IfOk, OnOk, OnErr};
ghost use Rattle.ante_undo.specs.Stack.{Stack, with_top, begun, committed, IsSquashed, without_shelf, IsShelved, IsUnshelved, IsAbove, IsSound};

use ante_undo::Layered;
use std::alloc::{AllocError, Global};
use std::marker::Model;

/// A map as contracts name it: the list of its entries, in the order of their keys. None is ever made.
#[derive(Drop)]
pub struct Entries<K, V> {
    items: Vec<(K, V)>,
}

impl<K, V> Model for Entries<K, V> {
    ghost use Rattle.std.specs.Prelude.{List};
    ghost use Rattle.std.specs.Coded.{coded_list};

    ghost Value = { List (K × V) };

    ghost view = { λ s. s.items.items };
}

/// What has the session calls. Contracts see a stack of whole values: the top is the value as it is, and each open
/// session has under it the value that it began with.
pub trait Sessions: Drop {
    /// What the stack is made of.
    type Map;

    ghost stack: { Self → Stack Self.Map };

    /// Begins a session, and answers its revision.
    fn begin(&mut self, alloc: Global) -> Result<u64, AllocError>
        requires small { (stack self.old).revision + 1 < 2 ^ 63 }
        ensures revision { IfOk result (λ revision. revision ≡ (stack self.old).revision + 1) }
        ensures ok { OnOk result (stack self.new ≡ begun (stack self.old)) }
        ensures above { OnOk result (IsAbove 1 (stack self.new)) }
        ensures err { OnErr result (stack self.new ≡ stack self.old) };

    /// Takes back all that the newest session did, and ends it.
    fn undo(&mut self)
        requires session { 0 < length (stack self.old).under }
        requires above { IsAbove 1 (stack self.old) }
        ensures { stack self.old ≡ with_top (stack self.old).top (begun (stack self.new)) };

    /// Makes the newest session a part of the one below it.
    fn squash(&mut self)
        requires sessions { 2 ≤ length (stack self.old).under }
        requires above { IsAbove 2 (stack self.old) }
        ensures { IsSquashed (stack self.old) (stack self.new) };

    /// Closes every session whose revision is at most the given one: it can no longer be taken back.
    fn commit(&mut self, revision: u64)
        requires no_shelf { IsNone (stack self.old).shelf }
        ensures { stack self.new ≡ committed revision (stack self.old) };

    /// Moves the sessions above the revision to the shelf.
    fn shelve(&mut self, revision: u64)
        requires no_shelf { IsNone (stack self.old).shelf }
        requires from { (stack self.old).revision ≤ revision + length (stack self.old).under }
        requires to { revision ≤ (stack self.old).revision }
        ensures { IsShelved revision (stack self.old) (stack self.new) };

    /// Drops the sessions begun since the shelf was made, and puts those on the shelf back.
    fn unshelve(&mut self)
        requires shelf { IsSome (stack self.old).shelf }
        ensures { IsUnshelved (stack self.old) (stack self.new) };

    /// Forgets the sessions on the shelf.
    fn drop_shelf(&mut self)
        requires shelf { IsSome (stack self.old).shelf }
        ensures { stack self.new ≡ without_shelf (stack self.old) };

    /// The revision of the newest session. Where none is open, the next one to begin has the number after it.
    fn revision(&self) -> u64
        ensures revision { result ≡ (stack self.now).revision }
        ensures sound { IsSound (stack self.now) };

    /// How many sessions are open.
    fn sessions(&self) -> u64
        ensures count { result ≡ length (stack self.now).under }
        ensures sound { IsSound (stack self.now) };
}

impl<K: Ord + Copy, V: Drop> Sessions for Layered<K, V> {
    type Map = Entries<K, V>;

    ghost stack = { λ s. s };

    fn begin(&mut self, alloc: Global) -> Result<u64, AllocError> {
        self.begin(alloc)
    }

    fn undo(&mut self) {
        self.undo();
    }

    fn squash(&mut self) {
        self.squash();
    }

    fn commit(&mut self, revision: u64) {
        self.commit(revision);
    }

    fn shelve(&mut self, revision: u64) {
        self.shelve(revision);
    }

    fn unshelve(&mut self) {
        self.unshelve();
    }

    fn drop_shelf(&mut self) {
        self.drop_shelf();
    }

    fn revision(&self) -> u64 {
        self.revision()
    }

    fn sessions(&self) -> u64 {
        self.sessions()
    }
}
