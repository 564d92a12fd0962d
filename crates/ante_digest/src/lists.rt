// The kinds of entries that the digest lists.
ghost use Rattle.std.specs.Prelude.{◌≡◌, Some, None};
ghost use Rattle.std.specs.Option.{option_map};
ghost use Rattle.ante_objects.specs.Objects.{link_key, recent_key};
ghost use Rattle.ante_digest.specs.Entries.{packed_account, packed_permission, packed_link, packed_share};
ghost use Rattle.ante_digest.specs.Entries.{packed_recent, packed_reference, packed_table, packed_row};

use crate::entries::{
    feed_account, feed_index_row, feed_link, feed_permission, feed_recent, feed_reference,
    feed_row, feed_share, feed_table,
};
use crate::feeding::Fed;
use crate::listed::Listed;
use ante_objects::Objects;
use ante_pack::{Digest, Level, Name, TableKey};
use ante_ram::{Share, Usage};
use ante_rows::Rows;
use ante_secidx::{SecIndex, SecKey};
use ante_state::{
    AccountRow, IndexKey, LinkKey, PermissionRow, PrimaryRow, RecentKey, RowKey, TableRow,
};
use sha2::Sha256;

#[derive(Clone, Copy)]
pub(crate) struct Accounts<'a>(pub &'a Objects);

impl<'a> Listed for Accounts<'a> {
    type Key = Name;

    type Value = AccountRow;

    ghost entries = { λ s. s.0.now.top.accounts };

    ghost packed = { packed_account };

    fn next_key(&self, after: &Option<Name>) -> Option<Name> {
        match self.0.next_account(*after) {
            Some((name, _)) => Some(name),
            None => None,
        }
    }

    fn feed_next(&self, after: &Option<Name>, hasher: &mut Sha256) -> Option<Name> {
        match self.0.next_account(*after) {
            Some((name, row)) => {
                feed_account(hasher, name, row);
                Some(name)
            }
            None => None,
        }
    }
}

#[derive(Clone, Copy)]
pub(crate) struct Permissions<'a>(pub &'a Objects);

impl<'a> Listed for Permissions<'a> {
    type Key = Level;

    type Value = PermissionRow;

    ghost entries = { λ s. s.0.now.top.permissions };

    ghost packed = { packed_permission };

    fn next_key(&self, after: &Option<Level>) -> Option<Level> {
        match self.0.next_permission(*after) {
            Some((level, _)) => Some(level),
            None => None,
        }
    }

    fn feed_next(&self, after: &Option<Level>, hasher: &mut Sha256) -> Option<Level> {
        match self.0.next_permission(*after) {
            Some((level, row)) => {
                feed_permission(hasher, level, row);
                Some(level)
            }
            None => None,
        }
    }
}

#[derive(Clone, Copy)]
pub(crate) struct Links<'a>(pub &'a Objects);

impl<'a> Listed for Links<'a> {
    type Key = LinkKey;

    type Value = Name;

    ghost entries = { λ s. s.0.now.top.links };

    ghost packed = { packed_link };

    fn next_key(&self, after: &Option<LinkKey>) -> Option<LinkKey> {
        match self.0.next_link(link_parts(*after)) {
            Some((link, _)) => Some(link_key(link)),
            None => None,
        }
    }

    fn feed_next(&self, after: &Option<LinkKey>, hasher: &mut Sha256) -> Option<LinkKey> {
        match self.0.next_link(link_parts(*after)) {
            Some((link, requirement)) => {
                let key = link_key(link);
                feed_link(hasher, key, requirement);
                Some(key)
            }
            None => None,
        }
    }
}

// A link's account, contract and action as a key, and back.
fn link_key(link: (Name, Name, Name)) -> LinkKey
    ensures { result ≡ link_key link }
{
    LinkKey {
        account: link.0,
        code: link.1,
        action: link.2,
    }
}

fn link_parts(key: Option<LinkKey>) -> Option<(Name, Name, Name)>
    ensures { option_map link_key result ≡ key }
{
    match key {
        Some(key) => Some((key.account, key.code, key.action)),
        None => None,
    }
}

#[derive(Clone, Copy)]
pub(crate) struct Shares<'a>(pub &'a Usage);

impl<'a> Listed for Shares<'a> {
    type Key = Name;

    type Value = Share;

    ghost entries = { λ s. s.0.now.top };

    ghost packed = { packed_share };

    fn next_key(&self, after: &Option<Name>) -> Option<Name> {
        match self.0.next_usage(*after) {
            Some((account, _, _)) => Some(account),
            None => None,
        }
    }

    fn feed_next(&self, after: &Option<Name>, hasher: &mut Sha256) -> Option<Name> {
        match self.0.next_usage(*after) {
            Some((account, used, quota)) => {
                feed_share(hasher, account, used, quota);
                Some(account)
            }
            None => None,
        }
    }
}

#[derive(Clone, Copy)]
pub(crate) struct Recent<'a>(pub &'a Objects);

impl<'a> Listed for Recent<'a> {
    type Key = RecentKey;

    type Value = ();

    ghost entries = { λ s. s.0.now.top.recent };

    ghost packed = { packed_recent };

    fn next_key(&self, after: &Option<RecentKey>) -> Option<RecentKey> {
        match self.0.next_recent(recent_parts(*after)) {
            Some(recent) => Some(recent_key(recent)),
            None => None,
        }
    }

    fn feed_next(&self, after: &Option<RecentKey>, hasher: &mut Sha256) -> Option<RecentKey> {
        match self.0.next_recent(recent_parts(*after)) {
            Some(recent) => {
                let key = recent_key(recent);
                feed_recent(hasher, key);
                Some(key)
            }
            None => None,
        }
    }
}

// An expiration and an id as a key, and back.
fn recent_key(recent: (u32, Digest)) -> RecentKey
    ensures { result ≡ recent_key recent }
{
    let (expiration, id) = recent;
    RecentKey { expiration, id }
}

fn recent_parts(key: Option<RecentKey>) -> Option<(u32, Digest)>
    ensures { option_map recent_key result ≡ key }
{
    match key {
        Some(key) => {
            let RecentKey { expiration, id } = key;
            Some((expiration, id))
        }
        None => None,
    }
}

#[derive(Clone, Copy)]
pub(crate) struct References<'a>(pub &'a Objects);

impl<'a> Listed for References<'a> {
    type Key = u16;

    type Value = Digest;

    ghost entries = { λ s. s.0.now.top.references };

    ghost packed = { packed_reference };

    fn next_key(&self, after: &Option<u16>) -> Option<u16> {
        match self.0.next_reference(*after) {
            Some(reference) => Some(reference.0),
            None => None,
        }
    }

    fn feed_next(&self, after: &Option<u16>, hasher: &mut Sha256) -> Option<u16> {
        match self.0.next_reference(*after) {
            Some(reference) => {
                feed_reference(hasher, reference);
                Some(reference.0)
            }
            None => None,
        }
    }
}

#[derive(Clone, Copy)]
pub(crate) struct Tables<'a>(pub &'a Rows);

impl<'a> Listed for Tables<'a> {
    type Key = TableKey;

    type Value = TableRow;

    ghost entries = { λ s. s.0.now.top.tables };

    ghost packed = { packed_table };

    fn next_key(&self, after: &Option<TableKey>) -> Option<TableKey> {
        match self.0.next_table(*after) {
            Some((key, _)) => Some(key),
            None => None,
        }
    }

    fn feed_next(&self, after: &Option<TableKey>, hasher: &mut Sha256) -> Option<TableKey> {
        match self.0.next_table(*after) {
            Some((key, row)) => {
                feed_table(hasher, key, row);
                Some(key)
            }
            None => None,
        }
    }
}

#[derive(Clone, Copy)]
pub(crate) struct AllRows<'a>(pub &'a Rows);

impl<'a> Listed for AllRows<'a> {
    type Key = RowKey;

    type Value = PrimaryRow;

    ghost entries = { λ s. s.0.now.top.rows };

    ghost packed = { packed_row };

    fn next_key(&self, after: &Option<RowKey>) -> Option<RowKey> {
        match self.0.next_row(*after) {
            Some((key, _)) => Some(key),
            None => None,
        }
    }

    fn feed_next(&self, after: &Option<RowKey>, hasher: &mut Sha256) -> Option<RowKey> {
        match self.0.next_row(*after) {
            Some((key, row)) => {
                feed_row(hasher, key, row);
                Some(key)
            }
            None => None,
        }
    }
}

#[derive(Clone, Copy)]
pub(crate) struct IndexRows<'a, K: SecKey>(pub &'a SecIndex<K>);

impl<'a, K: SecKey + Fed> Listed for IndexRows<'a, K> {
    ghost use Rattle.ante_digest.specs.Entries.{packed_index_row};

    type Key = IndexKey<K>;

    type Value = Name;

    ghost entries = { λ s. s.0.now.top };

    ghost packed = { packed_index_row K.packed };

    fn next_key(&self, after: &Option<IndexKey<K>>) -> Option<IndexKey<K>> {
        match self.0.next_row(*after) {
            Some((key, _)) => Some(key),
            None => None,
        }
    }

    fn feed_next(&self, after: &Option<IndexKey<K>>, hasher: &mut Sha256) -> Option<IndexKey<K>> {
        match self.0.next_row(*after) {
            Some((key, payer)) => {
                feed_index_row(hasher, &key, payer);
                Some(key)
            }
            None => None,
        }
    }
}
