// The walk from a permission up to its ancestors.
ghost use Rattle.std.specs.Prelude.{◌≡◌, ◌≤◌, length};
ghost use Rattle.ante_execution.specs.Authorities.{is_or_is_above};

use crate::lookups::parent;
use ante_pack::{Level, Name};
use ante_store::Store;

// No world has more permissions, since each is billed and all bills together are at most so much.
const MOST_PERMISSIONS: u64 = 1 << 62;

// Whether the permission is `least` or an ancestor of it. Where parents form a loop the walk comes back to a name that was
// marked, and ends there; names are marked at steps that double, so that a mark comes to lie in the loop.
pub(crate) fn is_or_is_above(store: &Store, level: Level, least: Name) -> bool
    ensures { result ≡ is_or_is_above level.actor level.permission least store.now.top }
{
    store.worlds_hold();
    let mut name = least;
    let mut mark = least;
    'ancestors: for steps in 0..MOST_PERMISSIONS {
        if name == level.permission {
            return true;
        }
        let above = Level {
            actor: level.actor,
            permission: name,
        };
        let Some(next) = parent(store, above) else {
            return false;
        };
        name = next;
        if name == mark {
            return false;
        }
        if steps.is_power_of_two() {
            mark = name;
        }
    }
    name == level.permission
}
