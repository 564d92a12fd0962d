// Objects by their keys, and the walks over them in order.
ghost use Rattle.std.specs.Prelude.{◌≡◌, is_some, IsTrue};
ghost use Rattle.std.specs.Option.{option_map, option_copied};
ghost use Rattle.std.specs.Ordering.{nat_cmp};
ghost use Rattle.std.specs.Map.Iter.{deref_pair};
ghost use Rattle.std.specs.FinMap.Entries.{find, is_sorted};
ghost use Rattle.ante_undo.specs.Entries.{first_entry};
ghost use Rattle.ante_sessions.specs.Walk.{past};
ghost use Rattle.ante_objects.specs.Objects.{link_key, shown_link, recent_key, shown_recent};

use crate::objects::Objects;
use ante_pack::{Digest, Level, Name};
use ante_sessions::next_entry;
use ante_state::{AccountRow, LinkKey, PermissionRow, RecentKey};

impl Objects {
    /// The account.
    pub fn account(&self, name: Name) -> Option<&AccountRow>
        ensures { option_copied result ≡ find ⟦<Name as Ord>⟧.cmp name self.now.top.accounts }
    {
        self.accounts().get(&name)
    }

    /// The permission.
    pub fn permission(&self, level: Level) -> Option<&PermissionRow>
        ensures { option_copied result ≡ find ⟦<Level as Ord>⟧.cmp level self.now.top.permissions }
    {
        self.permissions().get(&level)
    }

    /// The permission that the account has linked to the contract's action.
    pub fn link(&self, account: Name, code: Name, action: Name) -> Option<Name>
        ensures { result ≡ find ⟦<LinkKey as Ord>⟧.cmp (record { account = account; code = code; action = action }) self.now.top.links }
    {
        let key = LinkKey {
            account,
            code,
            action,
        };
        self.links().get(&key).copied()
    }

    /// Whether the transaction is a recent one.
    pub fn recent(&self, expiration: u32, id: &Digest) -> bool
        ensures { result ≡ is_some (find ⟦<RecentKey as Ord>⟧.cmp (record { expiration = expiration; id = id.now }) self.now.top.recent) }
    {
        let key = RecentKey {
            expiration,
            id: *id,
        };
        self.all_recent().get(&key).is_some()
    }

    /// The id at the low 16 bits of a block's number.
    pub fn reference(&self, low: u16) -> Option<Digest>
        ensures { result ≡ find nat_cmp low self.now.top.references }
    {
        self.references().get(&low).copied()
    }

    /// The first account after the given one, or the first of all.
    pub fn next_account(&self, after: Option<Name>) -> Option<(Name, &AccountRow)>
        ensures next { option_map (λ e. (e.0, e.1.now)) result ≡ first_entry (past ⟦<Name as Ord>⟧.cmp after self.now.top.accounts) }
        ensures ordered { IsTrue (is_sorted ⟦<Name as Ord>⟧.cmp self.now.top.accounts) }
    {
        keyed(next_entry(self.accounts(), after))
    }

    /// The first permission after the given one, or the first of all.
    pub fn next_permission(&self, after: Option<Level>) -> Option<(Level, &PermissionRow)>
        ensures next { option_map (λ e. (e.0, e.1.now)) result ≡ first_entry (past ⟦<Level as Ord>⟧.cmp after self.now.top.permissions) }
        ensures ordered { IsTrue (is_sorted ⟦<Level as Ord>⟧.cmp self.now.top.permissions) }
    {
        keyed(next_entry(self.permissions(), after))
    }

    /// The first link after the given account, contract and action, or the first of all, with the permission that it asks
    /// for.
    pub fn next_link(&self, after: Option<(Name, Name, Name)>) -> Option<((Name, Name, Name), Name)>
        ensures next { result ≡ option_map shown_link (first_entry (past ⟦<LinkKey as Ord>⟧.cmp (option_map link_key after) self.now.top.links)) }
        ensures ordered { IsTrue (is_sorted ⟦<LinkKey as Ord>⟧.cmp self.now.top.links) }
    {
        let after = match after {
            Some(link) => Some(link_key(link)),
            None => None,
        };
        match next_entry(self.links(), after) {
            Some((at, required)) => Some(((at.account, at.code, at.action), *required)),
            None => None,
        }
    }

    /// The first recent transaction after the given expiration and id, or the first of all.
    pub fn next_recent(&self, after: Option<(u32, Digest)>) -> Option<(u32, Digest)>
        ensures next { result ≡ option_map shown_recent (first_entry (past ⟦<RecentKey as Ord>⟧.cmp (option_map recent_key after) self.now.top.recent)) }
        ensures ordered { IsTrue (is_sorted ⟦<RecentKey as Ord>⟧.cmp self.now.top.recent) }
    {
        let after = match after {
            Some(recent) => Some(recent_key(recent)),
            None => None,
        };
        match next_entry(self.all_recent(), after) {
            Some((at, _)) => Some((at.expiration, at.id)),
            None => None,
        }
    }

    /// The first reference after the given number, or the first of all.
    pub fn next_reference(&self, after: Option<u16>) -> Option<(u16, Digest)>
        ensures next { result ≡ first_entry (past nat_cmp after self.now.top.references) }
        ensures ordered { IsTrue (is_sorted nat_cmp self.now.top.references) }
    {
        match next_entry(self.references(), after) {
            Some((low, id)) => Some((*low, *id)),
            None => None,
        }
    }
}

// An entry with a copy of its key.
pub(crate) fn keyed<'a, K: Copy, V>(entry: Option<(&K, &'a V)>) -> Option<(K, &'a V)>
    ensures { option_map (λ e. (e.0, e.1.now)) result ≡ option_map deref_pair entry.entry }
{
    match entry {
        Some((key, value)) => Some((*key, value)),
        None => None,
    }
}

fn link_key(link: (Name, Name, Name)) -> LinkKey
    ensures { result ≡ link_key link }
{
    LinkKey {
        account: link.0,
        code: link.1,
        action: link.2,
    }
}

fn recent_key(recent: (u32, Digest)) -> RecentKey
    ensures { result ≡ recent_key recent }
{
    let (expiration, id) = recent;
    RecentKey { expiration, id }
}
