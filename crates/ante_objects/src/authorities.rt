// Permissions and links.
ghost use Rattle.std.specs.Prelude.{◌≡◌, [], ◌<◌, ◌^◌, OnOk, OnErr};
ghost use Rattle.ante_undo.specs.Stack.{opened, with_top, IsAbove};
ghost use Rattle.ante_undo.specs.Entries.{changed};

use ante_pack::{Level, Name};
use ante_sessions::{Both, Entries, Sessions, set_entry};
use ante_state::{LinkKey, PermissionRow};
use ante_undo::Layered;
use std::alloc::{AllocError, Global};
use std::marker::Model;

// Contracts see a stack of pairs: the permissions, and what each link asks for.
#[derive(Drop)]
pub struct Authorities {
    both: Both<Layered<Level, PermissionRow>, Layered<LinkKey, Name>>,
}

impl Model for Authorities {
    ghost use Rattle.std.specs.Prelude.{List};
    ghost use Rattle.ante_undo.specs.Stack.{Stack};
    ghost use Rattle.ante_pack.specs.declared.names.Name.{Name};
    ghost use Rattle.ante_pack.specs.declared.authority.Level.{Level};
    ghost use Rattle.ante_state.specs.declared.objects.PermissionRow.{PermissionRow};
    ghost use Rattle.ante_state.specs.declared.objects.LinkKey.{LinkKey};

    ghost Value = { Stack (List (Level × PermissionRow) × List (LinkKey × Name)) };

    ghost view = { λ s. s.both };
}

impl Authorities {
    pub(crate) fn new(alloc: Global, revision: u64) -> Authorities
        requires small { revision < 2 ^ 63 }
        ensures { result ≡ opened ([], []) revision }
    {
        Authorities {
            both: Both {
                first: Layered::new(alloc, revision),
                second: Layered::new(alloc, revision),
            },
        }
    }

    pub(crate) fn permissions(&self) -> &Layered<Level, PermissionRow>
        ensures { result.now.top ≡ self.now.top.0 }
    {
        &self.both.first
    }

    pub(crate) fn links(&self) -> &Layered<LinkKey, Name>
        ensures { result.now.top ≡ self.now.top.1 }
    {
        &self.both.second
    }

    pub(crate) fn set_permission(
        &mut self,
        alloc: Global,
        level: Level,
        row: Option<PermissionRow>,
    ) -> Result<(), AllocError>
        requires above { IsAbove 1 self.old }
        ensures ok { OnOk result (self.new ≡ with_top (changed ⟦<Level as Ord>⟧.cmp self.old.top.0 level row, self.old.top.1) self.old) }
        ensures err { OnErr result (self.new ≡ self.old) }
    {
        set_entry(alloc, &mut self.both.first, level, row)
    }

    pub(crate) fn set_link(
        &mut self,
        alloc: Global,
        key: LinkKey,
        requirement: Option<Name>,
    ) -> Result<(), AllocError>
        requires above { IsAbove 1 self.old }
        ensures ok { OnOk result (self.new ≡ with_top (self.old.top.0, changed ⟦<LinkKey as Ord>⟧.cmp self.old.top.1 key requirement) self.old) }
        ensures err { OnErr result (self.new ≡ self.old) }
    {
        set_entry(alloc, &mut self.both.second, key, requirement)
    }
}

impl Sessions for Authorities {
    type Map = (Entries<Level, PermissionRow>, Entries<LinkKey, Name>);

    ghost stack = { λ s. s };

    fn begin(&mut self, alloc: Global) -> Result<u64, AllocError> {
        self.both.begin(alloc)
    }

    fn undo(&mut self) {
        self.both.undo();
    }

    fn squash(&mut self) {
        self.both.squash();
    }

    fn commit(&mut self, revision: u64) {
        self.both.commit(revision);
    }

    fn shelve(&mut self, revision: u64) {
        self.both.shelve(revision);
    }

    fn unshelve(&mut self) {
        self.both.unshelve();
    }

    fn drop_shelf(&mut self) {
        self.both.drop_shelf();
    }

    fn revision(&self) -> u64 {
        self.both.revision()
    }

    fn sessions(&self) -> u64 {
        self.both.sessions()
    }
}
