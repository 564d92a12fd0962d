ghost use Rattle.std.specs.Prelude.{◌≡◌, [], ◌<◌, ◌^◌};
ghost use Rattle.ante_undo.specs.Stack.{opened};
ghost use Rattle.ante_objects.specs.Shown.{shown_objects};

use crate::authorities::Authorities;
use crate::history::History;
use ante_pack::{Digest, Level, Name};
use ante_sessions::{Both, Entries, Kept, Rule, Sessions};
use ante_state::{AccountRow, LinkKey, PermissionRow, RecentKey};
use ante_undo::Layered;
use std::alloc::{AllocError, Global};
use std::marker::{Model, PhantomData};

// Two of the parts are structs of their own: five maps in one chain of pairs take too long to check.
pub(crate) type Parts = Both<Both<Authorities, Layered<Name, AccountRow>>, History>;

/// The objects as contracts name them. None is ever made.
pub struct ObjectsMap {
    pub accounts: Entries<Name, AccountRow>,
    pub permissions: Entries<Level, PermissionRow>,
    /// The permission that each link asks for.
    pub links: Entries<LinkKey, Name>,
    pub recent: Entries<RecentKey, ()>,
    /// The id of the block by the low 16 bits of its number.
    pub references: Entries<u16, Digest>,
}

/// What holds of each map of objects.
pub struct ObjectsRule;

impl Rule<Parts> for ObjectsRule {
    type Shown = ObjectsMap;

    ghost shown = { shown_objects };

    ghost holds = { λ m. Unit {0} };
}

/// Accounts, permissions, links, recent transactions and references, under nested sessions.
#[derive(Drop)]
pub struct Objects {
    pub(crate) kept: Kept<Parts, ObjectsRule>,
}

impl Model for Objects {
    ghost use Rattle.ante_undo.specs.Stack.{Stack};
    ghost use Rattle.ante_objects.specs.declared.objects.ObjectsMap.{ObjectsMap};

    ghost Value = { Stack ObjectsMap };

    ghost view = { λ s. s.kept };
}

impl Objects {
    /// No object, at the revision.
    pub fn new(alloc: Global, revision: u64) -> Objects
        requires small { revision < 2 ^ 63 }
        ensures { result ≡ opened (record { accounts = []; permissions = []; links = []; recent = []; references = [] }) revision }
    {
        let authorities = Both {
            first: Authorities::new(alloc, revision),
            second: Layered::new(alloc, revision),
        };
        Objects {
            kept: Kept {
                inner: Both {
                    first: authorities,
                    second: History::new(alloc, revision),
                },
                rule: PhantomData,
            },
        }
    }

    pub(crate) fn accounts(&self) -> &Layered<Name, AccountRow>
        ensures { result.now.top ≡ self.now.top.accounts }
    {
        &self.kept.inner.first.second
    }

    pub(crate) fn permissions(&self) -> &Layered<Level, PermissionRow>
        ensures { result.now.top ≡ self.now.top.permissions }
    {
        self.kept.inner.first.first.permissions()
    }

    pub(crate) fn links(&self) -> &Layered<LinkKey, Name>
        ensures { result.now.top ≡ self.now.top.links }
    {
        self.kept.inner.first.first.links()
    }

    pub(crate) fn all_recent(&self) -> &Layered<RecentKey, ()>
        ensures { result.now.top ≡ self.now.top.recent }
    {
        self.kept.inner.second.recent()
    }

    pub(crate) fn references(&self) -> &Layered<u16, Digest>
        ensures { result.now.top ≡ self.now.top.references }
    {
        self.kept.inner.second.references()
    }
}

impl Sessions for Objects {
    type Map = ObjectsMap;

    ghost stack = { λ s. s };

    fn begin(&mut self, alloc: Global) -> Result<u64, AllocError> {
        self.kept.begin(alloc)
    }

    fn undo(&mut self) {
        self.kept.undo();
    }

    fn squash(&mut self) {
        self.kept.squash();
    }

    fn commit(&mut self, revision: u64) {
        self.kept.commit(revision);
    }

    fn shelve(&mut self, revision: u64) {
        self.kept.shelve(revision);
    }

    fn unshelve(&mut self) {
        self.kept.unshelve();
    }

    fn drop_shelf(&mut self) {
        self.kept.drop_shelf();
    }

    fn revision(&self) -> u64 {
        self.kept.revision()
    }

    fn sessions(&self) -> u64 {
        self.kept.sessions()
    }
}
