// Whether something asks for a permission.
ghost use Rattle.std.specs.Prelude.{◌≡◌, nat_lt};
ghost use Rattle.ante_objects.specs.Objects.{is_child, has_child, asks_for, has_link_to};

use crate::lookups::keyed;
use crate::objects::Objects;
use ante_pack::{Level, Name};
use ante_sessions::next_entry;
use ante_state::{LinkKey, PermissionRow, total_order};

impl Objects {
    /// Whether a permission of the level's account has the level's permission as its parent.
    pub fn has_child(&self, level: Level) -> bool
        ensures { result ≡ has_child level self.now.top.permissions }
    {
        total_order::<Level>();
        let start = Level {
            actor: level.actor,
            permission: Name(0),
        };
        let mut next = keyed(self.permissions().at_or_after(&start));
        while let Some((at, row)) = next {
            if is_past(level.actor, at.actor) {
                return false;
            }
            if is_child(level, at, row) {
                return true;
            }
            next = self.next_permission(Some(at));
        }
        false
    }

    /// Whether a link of the level's account asks for the level's permission.
    pub fn has_link_to(&self, level: Level) -> bool
        ensures { result ≡ has_link_to level self.now.top.links }
    {
        total_order::<LinkKey>();
        let start = LinkKey {
            account: level.actor,
            code: Name(0),
            action: Name(0),
        };
        let mut next = keyed(self.links().at_or_after(&start));
        while let Some((at, requirement)) = next {
            if is_past(level.actor, at.account) {
                return false;
            }
            if asks_for(level, at, *requirement) {
                return true;
            }
            next = keyed(next_entry(self.links(), Some(at)));
        }
        false
    }
}

fn is_child(level: Level, at: Level, row: &PermissionRow) -> bool
    ensures { result ≡ is_child level (at, row.now) }
{
    at.actor == level.actor && row.parent == level.permission
}

fn asks_for(level: Level, at: LinkKey, requirement: Name) -> bool
    ensures { result ≡ asks_for level (at, requirement) }
{
    at.account == level.actor && requirement == level.permission
}

// Whether the other account comes after the account.
fn is_past(account: Name, other: Name) -> bool
    ensures { result ≡ nat_lt account.0 other.0 }
{
    account.0 < other.0
}
