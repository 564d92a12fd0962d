// Going over a map in the order of its keys.
ghost use Rattle.std.specs.Prelude.{◌≡◌, IsTrue};
ghost use Rattle.std.specs.Option.{option_map};
ghost use Rattle.std.specs.Map.Iter.{deref_pair};
ghost use Rattle.std.specs.FinMap.Entries.{is_sorted};
ghost use Rattle.ante_undo.specs.Entries.{first_entry};
ghost use Rattle.ante_sessions.specs.Walk.{past};

use ante_undo::Layered;

/// The first entry after a key, or the first of all.
pub fn next_entry<'a, K: Ord + Copy, V: Drop>(
    map: &'a Layered<K, V>,
    after: Option<K>,
) -> Option<(&'a K, &'a V)>
    ensures next { option_map deref_pair result ≡ first_entry (past K.cmp after map.now.top) }
    ensures ordered { IsTrue (is_sorted K.cmp map.now.top) }
{
    match after {
        Some(key) => map.after(&key),
        None => map.first(),
    }
}
