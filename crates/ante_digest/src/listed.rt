// The lists of the digest, each a map that is gone through in the order of its keys.
ghost use Rattle.std.specs.Prelude.{◌≡◌, ℕ, List, ◌%◌, ◌^◌, length, IsTrue};
ghost use Rattle.std.specs.List.{flat_map};
ghost use Rattle.std.specs.Option.{option_map};
ghost use Rattle.std.specs.FinMap.Entries.{is_sorted};
ghost use Rattle.ante_undo.specs.Entries.{first_entry};
ghost use Rattle.ante_sessions.specs.Walk.{past};
ghost use Rattle.ante_digest.specs.Feeds.{Feeds, piece_of};
ghost use Rattle.ante_digest.specs.Entries.{counted};
ghost use Rattle.ante_pack.specs.Forms.{varuint};

use crate::feeding::feed_varuint;
use ante_state::total_order;
use sha2::Sha256;

/// A kind of entries that the digest lists.
pub(crate) trait Listed {
    type Key: Ord + Copy;

    type Value;

    ghost entries: { Self → List (Self.Key × Self.Value) };

    ghost packed: { Self.Key × Self.Value → List ℕ };

    /// The first key after the given one, or the first of all.
    fn next_key(&self, after: &Option<Self::Key>) -> Option<Self::Key>
        ensures next { result ≡ option_map (λ e. e.0) (first_entry (past Self.Key.cmp after.now (entries self.now))) }
        ensures ordered { IsTrue (is_sorted Self.Key.cmp (entries self.now)) };

    /// The same, and its entry is fed into the hasher.
    fn feed_next(&self, after: &Option<Self::Key>, hasher: &mut Sha256) -> Option<Self::Key>
        ensures next { result ≡ option_map (λ e. e.0) (first_entry (past Self.Key.cmp after.now (entries self.now))) }
        ensures fed { Feeds hasher.old hasher.new (piece_of packed (first_entry (past Self.Key.cmp after.now (entries self.now)))) }
        ensures ordered { IsTrue (is_sorted Self.Key.cmp (entries self.now)) };
}

/// How many entries there are, or the remainder where it is more than fits.
fn count_of<L: Listed>(map: &L) -> u32
    ensures { result ≡ length (L.entries map.now) % 2 ^ 32 }
{
    total_order::<L::Key>();
    let mut count: u32 = 0;
    let mut at = map.next_key(&None);
    while at.is_some() {
        count = count.wrapping_add(1);
        at = map.next_key(&at);
    }
    count
}

fn feed_entries<L: Listed>(hasher: &mut Sha256, map: &L)
    ensures { Feeds hasher.old hasher.new (flat_map L.packed (L.entries map.now)) }
{
    total_order::<L::Key>();
    let mut at = map.feed_next(&None, hasher);
    while at.is_some() {
        at = map.feed_next(&at, hasher);
    }
}

/// The count of the entries, and then the entries.
#[tactic(auto, using(crate::proofs::Fed::onto))]
pub(crate) fn feed_list<L: Listed>(hasher: &mut Sha256, map: &L)
    ensures { Feeds hasher.old hasher.new (counted L.packed (L.entries map.now)) }
{
    feed_varuint(hasher, count_of(map));
    feed_entries(hasher, map);
}
