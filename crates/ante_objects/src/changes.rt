// Changes of objects: each puts an object at its key, or takes it away.
ghost use Rattle.std.specs.Prelude.{◌≡◌, OnOk, OnErr};
ghost use Rattle.ante_undo.specs.Stack.{with_top, IsAbove};
ghost use Rattle.ante_objects.specs.Objects.{link_key, recent_key, account_set, permission_set, link_set, recent_set, reference_set};

use crate::objects::Objects;
use ante_pack::{Digest, Level, Name};
use ante_sessions::set_entry;
use ante_state::{AccountRow, LinkKey, PermissionRow, RecentKey};
use std::alloc::{AllocError, Global};

impl Objects {
    /// Puts the account, or takes it away.
    pub fn set_account(
        &mut self,
        alloc: Global,
        name: Name,
        row: Option<AccountRow>,
    ) -> Result<(), AllocError>
        requires above { IsAbove 1 self.old }
        ensures ok { OnOk result (self.new ≡ with_top (account_set name row self.old.top) self.old) }
        ensures err { OnErr result (self.new ≡ self.old) }
    {
        let first = &mut self.kept.inner.first;
        set_entry(alloc, &mut first.second, name, row)
    }

    /// Puts the permission, or takes it away.
    pub fn set_permission(
        &mut self,
        alloc: Global,
        level: Level,
        row: Option<PermissionRow>,
    ) -> Result<(), AllocError>
        requires above { IsAbove 1 self.old }
        ensures ok { OnOk result (self.new ≡ with_top (permission_set level row self.old.top) self.old) }
        ensures err { OnErr result (self.new ≡ self.old) }
    {
        let first = &mut self.kept.inner.first;
        first.first.set_permission(alloc, level, row)
    }

    /// Links the permission to the contract's action, or takes the link away.
    pub fn set_link(
        &mut self,
        alloc: Global,
        account: Name,
        code: Name,
        action: Name,
        requirement: Option<Name>,
    ) -> Result<(), AllocError>
        requires above { IsAbove 1 self.old }
        ensures ok { OnOk result (self.new ≡ with_top (link_set (link_key (account, code, action)) requirement self.old.top) self.old) }
        ensures err { OnErr result (self.new ≡ self.old) }
    {
        let key = LinkKey {
            account,
            code,
            action,
        };
        let first = &mut self.kept.inner.first;
        first.first.set_link(alloc, key, requirement)
    }

    /// Counts the transaction among the recent ones, or no longer.
    pub fn set_recent(
        &mut self,
        alloc: Global,
        expiration: u32,
        id: Digest,
        there: bool,
    ) -> Result<(), AllocError>
        requires above { IsAbove 1 self.old }
        ensures ok { OnOk result (self.new ≡ with_top (recent_set (recent_key (expiration, id)) there self.old.top) self.old) }
        ensures err { OnErr result (self.new ≡ self.old) }
    {
        let key = RecentKey { expiration, id };
        let parts = &mut self.kept.inner;
        parts.second.set_recent(alloc, key, there)
    }

    /// Puts the id at the low 16 bits of its block's number, or takes what stands there away.
    pub fn set_reference(
        &mut self,
        alloc: Global,
        low: u16,
        id: Option<Digest>,
    ) -> Result<(), AllocError>
        requires above { IsAbove 1 self.old }
        ensures ok { OnOk result (self.new ≡ with_top (reference_set low id self.old.top) self.old) }
        ensures err { OnErr result (self.new ≡ self.old) }
    {
        let parts = &mut self.kept.inner;
        parts.second.set_reference(alloc, low, id)
    }
}
