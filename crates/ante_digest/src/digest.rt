ghost use Rattle.std.specs.Prelude.{◌≡◌};
ghost use Rattle.sha2.specs.Sha256.{sha256};
ghost use Rattle.ante_digest.specs.Feeds.{Feeds};
ghost use Rattle.ante_digest.specs.Digest.{packed_holders, packed_history, packed_indexes, packed_lists, lists_in};

use crate::listed::feed_list;
use crate::lists::{
    Accounts, AllRows, IndexRows, Links, Permissions, Recent, References, Shares, Tables,
};
use ante_objects::Objects;
use ante_ram::Usage;
use ante_rows::Rows;
use ante_secidx::Indexes;
use sha2::{Digest, Sha256};

/// The SHA-256 of all lists of the state, each a varuint count and the entries in the order of their keys: accounts,
/// permissions, links, usage, recent transactions, references, tables, primary rows, and the rows of secondary indexes of
/// 64, 128 and 256 bits.
pub fn digest_of_parts(objects: &Objects, usage: &Usage, rows: &Rows, indexes: &Indexes) -> [u8; 32]
    ensures { result ≡ sha256 (packed_lists (lists_in objects.now.top usage.now.top rows.now.top indexes.now.top)) }
{
    let mut hasher = Sha256::new();
    feed_holders(&mut hasher, objects, usage);
    feed_history(&mut hasher, objects, rows);
    feed_indexes(&mut hasher, indexes);
    hasher.finalize()
}

#[tactic(auto, using(crate::proofs::Fed::onto))]
fn feed_holders(hasher: &mut Sha256, objects: &Objects, usage: &Usage)
    ensures { Feeds hasher.old hasher.new (packed_holders objects.now.top.accounts objects.now.top.permissions objects.now.top.links usage.now.top) }
{
    feed_list(hasher, &Accounts(objects));
    feed_list(hasher, &Permissions(objects));
    feed_list(hasher, &Links(objects));
    feed_list(hasher, &Shares(usage));
}

#[tactic(auto, using(crate::proofs::Fed::onto))]
fn feed_history(hasher: &mut Sha256, objects: &Objects, rows: &Rows)
    ensures { Feeds hasher.old hasher.new (packed_history objects.now.top.recent objects.now.top.references rows.now.top.tables rows.now.top.rows) }
{
    feed_list(hasher, &Recent(objects));
    feed_list(hasher, &References(objects));
    feed_list(hasher, &Tables(rows));
    feed_list(hasher, &AllRows(rows));
}

#[tactic(auto, using(crate::proofs::Fed::onto))]
fn feed_indexes(hasher: &mut Sha256, indexes: &Indexes)
    ensures { Feeds hasher.old hasher.new (packed_indexes indexes.now.top.index64 indexes.now.top.index128 indexes.now.top.index256) }
{
    feed_list(hasher, &IndexRows(indexes.index64()));
    feed_list(hasher, &IndexRows(indexes.index128()));
    feed_list(hasher, &IndexRows(indexes.index256()));
}
