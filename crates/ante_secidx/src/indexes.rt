// The secondary indexes of the three widths.
ghost use Rattle.std.specs.Prelude.{◌≡◌, [], ◌<◌, ◌^◌};
ghost use Rattle.ante_undo.specs.Stack.{opened};
ghost use Rattle.ante_secidx.specs.Widths.{shown_indexes};

use crate::index::SecIndex;
use ante_pack::{Key256, Name};
use ante_sessions::{Both, Entries, Kept, Rule, Sessions};
use ante_state::IndexKey;
use std::alloc::{AllocError, Global};
use std::marker::{Model, PhantomData};

/// The rows of all secondary indexes as contracts name them. None is ever made.
pub struct IndexesMap {
    pub index64: Entries<IndexKey<u64>, Name>,
    pub index128: Entries<IndexKey<u128>, Name>,
    pub index256: Entries<IndexKey<Key256>, Name>,
}

pub(crate) type ThreeParts = Both<Both<SecIndex<u64>, SecIndex<u128>>, SecIndex<Key256>>;

/// How the three indexes are seen.
pub struct IndexesRule;

impl Rule<ThreeParts> for IndexesRule {
    type Shown = IndexesMap;

    ghost shown = { shown_indexes };

    ghost holds = { λ m. Unit {0} };
}

/// The secondary indexes of 64, 128 and 256 bits in the same sessions.
#[derive(Drop)]
pub struct Indexes {
    pub(crate) kept: Kept<ThreeParts, IndexesRule>,
}

impl Model for Indexes {
    ghost use Rattle.ante_undo.specs.Stack.{Stack};
    ghost use Rattle.ante_secidx.specs.declared.indexes.IndexesMap.{IndexesMap};

    ghost Value = { Stack IndexesMap };

    ghost view = { λ s. s.kept };
}

impl Indexes {
    /// No row of any width, at the revision.
    pub fn new(alloc: Global, revision: u64) -> Indexes
        requires small { revision < 2 ^ 63 }
        ensures { result ≡ opened (record { index64 = []; index128 = []; index256 = [] }) revision }
    {
        let narrow = Both {
            first: SecIndex::new(alloc, revision),
            second: SecIndex::new(alloc, revision),
        };
        Indexes {
            kept: Kept {
                inner: Both {
                    first: narrow,
                    second: SecIndex::new(alloc, revision),
                },
                rule: PhantomData,
            },
        }
    }

    /// The rows by keys of 64 bits.
    pub fn index64(&self) -> &SecIndex<u64>
        ensures { result.now.top ≡ self.now.top.index64 }
    {
        &self.kept.inner.first.first
    }

    /// The rows by keys of 128 bits.
    pub fn index128(&self) -> &SecIndex<u128>
        ensures { result.now.top ≡ self.now.top.index128 }
    {
        &self.kept.inner.first.second
    }

    /// The rows by keys of 256 bits.
    pub fn index256(&self) -> &SecIndex<Key256>
        ensures { result.now.top ≡ self.now.top.index256 }
    {
        &self.kept.inner.second
    }
}

impl Sessions for Indexes {
    type Map = IndexesMap;

    ghost stack = { λ s. s };

    fn begin(&mut self, alloc: Global) -> Result<u64, AllocError> {
        self.kept.begin(alloc)
    }

    fn undo(&mut self) {
        self.kept.undo();
    }

    fn squash(&mut self) {
        self.kept.squash();
    }

    fn commit(&mut self, revision: u64) {
        self.kept.commit(revision);
    }

    fn shelve(&mut self, revision: u64) {
        self.kept.shelve(revision);
    }

    fn unshelve(&mut self) {
        self.kept.unshelve();
    }

    fn drop_shelf(&mut self) {
        self.kept.drop_shelf();
    }

    fn revision(&self) -> u64 {
        self.kept.revision()
    }

    fn sessions(&self) -> u64 {
        self.kept.sessions()
    }
}
