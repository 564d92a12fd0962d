// A change at one key of a map.
ghost use Rattle.std.specs.Prelude.{◌≡◌, OnOk, OnErr};
ghost use Rattle.ante_undo.specs.Stack.{with_top, IsAbove};
ghost use Rattle.ante_undo.specs.Entries.{changed};

use ante_undo::Layered;
use std::alloc::{AllocError, Global};

/// Puts the value at the key, or takes away what stands there.
pub fn set_entry<K: Ord + Copy, V: Drop>(
    alloc: Global,
    map: &mut Layered<K, V>,
    key: K,
    value: Option<V>,
) -> Result<(), AllocError>
    requires above { IsAbove 1 map.old }
    ensures ok { OnOk result (map.new ≡ with_top (changed K.cmp map.old.top key value) map.old) }
    ensures err { OnErr result (map.new ≡ map.old) }
{
    match value {
        Some(value) => match map.put(alloc, key, value) {
            Ok(()) => Ok(()),
            Err(refused) => Err(refused.1),
        },
        None => match map.remove(alloc, &key) {
            Ok(_) => Ok(()),
            Err(refused) => Err(refused),
        },
    }
}
