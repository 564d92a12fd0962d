// Feeding the entries of the state's maps.
ghost use Rattle.std.specs.Prelude.{◌≡◌};
ghost use Rattle.ante_pack.specs.Packed as forms;
ghost use Rattle.ante_digest.specs.Feeds.{Feeds};
ghost use Rattle.ante_digest.specs.Entries as entries;

use crate::feeding::{
    Fed, feed_digest, feed_key, feed_name, feed_seq, feed_sized, feed_u8, feed_u16, feed_u32,
    feed_u64, feed_u128,
};
use ante_pack::{
    Authority, Digest, Key256, KeyWeight, Level, LevelWeight, Name, TableKey, WaitWeight,
};
use ante_state::{
    AccountRow, IndexKey, LinkKey, PermissionRow, PrimaryRow, RecentKey, RowKey, TableRow,
};
use sha2::Sha256;

impl Fed for KeyWeight {
    ghost use Rattle.ante_pack.specs.Packed.{key_weight};

    ghost packed = { key_weight.spell };

    #[tactic(auto, using(crate::proofs::Fed::onto), unfolding(ante_pack::specs::Packed::key_weight))]
    fn feed(&self, hasher: &mut Sha256) {
        feed_key(hasher, &self.key);
        feed_u16(hasher, self.weight);
    }
}

impl Fed for LevelWeight {
    ghost use Rattle.ante_pack.specs.Packed.{level_weight};

    ghost packed = { level_weight.spell };

    #[tactic(auto, using(crate::proofs::Fed::onto), unfolding(ante_pack::specs::Packed::level_weight))]
    fn feed(&self, hasher: &mut Sha256) {
        feed_level(hasher, self.level);
        feed_u16(hasher, self.weight);
    }
}

impl Fed for WaitWeight {
    ghost use Rattle.ante_pack.specs.Packed.{wait_weight};

    ghost packed = { wait_weight.spell };

    #[tactic(auto, using(crate::proofs::Fed::onto), unfolding(ante_pack::specs::Packed::wait_weight))]
    fn feed(&self, hasher: &mut Sha256) {
        feed_u32(hasher, self.seconds);
        feed_u16(hasher, self.weight);
    }
}

impl Fed for u64 {
    ghost use Rattle.ante_pack.specs.Packed.{u64};

    ghost packed = { u64.spell };

    fn feed(&self, hasher: &mut Sha256) {
        feed_u64(hasher, *self);
    }
}

impl Fed for u128 {
    ghost use Rattle.ante_digest.specs.Entries.{packed_key128};

    ghost packed = { packed_key128 };

    fn feed(&self, hasher: &mut Sha256) {
        feed_u128(hasher, *self);
    }
}

impl Fed for Key256 {
    ghost use Rattle.ante_digest.specs.Entries.{packed_key256};

    ghost packed = { packed_key256 };

    #[tactic(auto, using(crate::proofs::Fed::onto))]
    fn feed(&self, hasher: &mut Sha256) {
        feed_u128(hasher, self.first);
        feed_u128(hasher, self.second);
    }
}

#[tactic(auto, using(crate::proofs::Fed::onto), unfolding(ante_pack::specs::Packed::level))]
fn feed_level(hasher: &mut Sha256, level: Level)
    ensures { Feeds hasher.old hasher.new (forms.level.spell level) }
{
    feed_name(hasher, level.actor);
    feed_name(hasher, level.permission);
}

#[tactic(auto, using(crate::proofs::Fed::onto))]
fn feed_authority(hasher: &mut Sha256, authority: &Authority)
    ensures { Feeds hasher.old hasher.new (entries.packed_authority authority.now) }
{
    feed_u32(hasher, authority.threshold);
    feed_seq(hasher, &authority.keys);
    feed_seq(hasher, &authority.accounts);
    feed_seq(hasher, &authority.waits);
}

#[tactic(auto, using(crate::proofs::Fed::onto))]
fn feed_table_key(hasher: &mut Sha256, key: TableKey)
    ensures { Feeds hasher.old hasher.new (entries.packed_table_key key) }
{
    feed_name(hasher, key.code);
    feed_name(hasher, key.scope);
    feed_name(hasher, key.table);
}

fn flag(is_set: bool) -> u8
    ensures { result ≡ entries.flag is_set }
{
    if is_set { 1 } else { 0 }
}

#[tactic(auto, using(crate::proofs::Fed::onto))]
pub(crate) fn feed_account(hasher: &mut Sha256, name: Name, row: &AccountRow)
    ensures { Feeds hasher.old hasher.new (entries.packed_account (name, row.now)) }
{
    feed_name(hasher, name);
    feed_name(hasher, row.payer);
    feed_u8(hasher, flag(row.privileged));
    feed_sized(hasher, row.code.as_slice());
    feed_sized(hasher, row.abi.as_slice());
}

#[tactic(auto, using(crate::proofs::Fed::onto))]
pub(crate) fn feed_permission(hasher: &mut Sha256, level: Level, row: &PermissionRow)
    ensures { Feeds hasher.old hasher.new (entries.packed_permission (level, row.now)) }
{
    feed_level(hasher, level);
    feed_name(hasher, row.parent);
    feed_authority(hasher, &row.authority);
}

#[tactic(auto, using(crate::proofs::Fed::onto))]
pub(crate) fn feed_link(hasher: &mut Sha256, key: LinkKey, requirement: Name)
    ensures { Feeds hasher.old hasher.new (entries.packed_link (key, requirement)) }
{
    feed_name(hasher, key.account);
    feed_name(hasher, key.code);
    feed_name(hasher, key.action);
    feed_name(hasher, requirement);
}

#[tactic(auto, using(crate::proofs::Fed::onto))]
pub(crate) fn feed_share(hasher: &mut Sha256, account: Name, used: u64, quota: i64)
    ensures { Feeds hasher.old hasher.new (entries.packed_share (account, record { used = used; quota = quota })) }
{
    feed_name(hasher, account);
    feed_u64(hasher, used);
    feed_u64(hasher, quota.cast_unsigned());
}

#[tactic(auto, using(crate::proofs::Fed::onto))]
pub(crate) fn feed_recent(hasher: &mut Sha256, key: RecentKey)
    ensures { Feeds hasher.old hasher.new (entries.packed_recent (key, tt)) }
{
    feed_u32(hasher, key.expiration);
    feed_digest(hasher, &key.id);
}

#[tactic(auto, using(crate::proofs::Fed::onto))]
pub(crate) fn feed_reference(hasher: &mut Sha256, reference: (u16, Digest))
    ensures { Feeds hasher.old hasher.new (entries.packed_reference reference) }
{
    let (low, id) = reference;
    feed_u16(hasher, low);
    feed_digest(hasher, &id);
}

#[tactic(auto, using(crate::proofs::Fed::onto))]
pub(crate) fn feed_table(hasher: &mut Sha256, key: TableKey, row: &TableRow)
    ensures { Feeds hasher.old hasher.new (entries.packed_table (key, row.now)) }
{
    feed_table_key(hasher, key);
    feed_name(hasher, row.payer);
    feed_u32(hasher, row.count);
}

#[tactic(auto, using(crate::proofs::Fed::onto))]
pub(crate) fn feed_row(hasher: &mut Sha256, key: RowKey, row: &PrimaryRow)
    ensures { Feeds hasher.old hasher.new (entries.packed_row (key, row.now)) }
{
    feed_table_key(hasher, key.table);
    feed_u64(hasher, key.primary);
    feed_name(hasher, row.payer);
    feed_sized(hasher, row.bytes.as_slice());
}

#[tactic(auto, using(crate::proofs::Fed::onto))]
pub(crate) fn feed_index_row<K: Fed>(hasher: &mut Sha256, key: &IndexKey<K>, payer: Name)
    ensures { Feeds hasher.old hasher.new (entries.packed_index_row K.packed (key.now, payer)) }
{
    feed_table_key(hasher, key.table);
    key.key.feed(hasher);
    feed_u64(hasher, key.primary);
    feed_name(hasher, payer);
}
