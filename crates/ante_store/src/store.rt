ghost use Rattle.std.specs.Prelude.{◌≡◌, ◌<◌, length, true, None, OnOk, OnErr, IfErr};
ghost use Rattle.std.specs.FinMap.Entries.{find};
ghost use Rattle.ante_undo.specs.Stack.{opened, with_top, under_top, IsAbove};
ghost use Rattle.ante_sessions.specs.Seen.{Throughout};
ghost use Rattle.ante_pack.specs.declared.names.Name.{Name};
ghost use Rattle.ante_state.specs.Orders.{name_order};
ghost use Rattle.ante_types.specs.World.{used};
ghost use Rattle.ante_ram.specs.Usage.{used_of};
ghost use Rattle.ante_store.specs.Bills.{quotas_of};
ghost use Rattle.ante_store.specs.Changes.{after, refusal, IsCause};
ghost use Rattle.ante_store.specs.Worlds.{world_of, IsBilled, IsWorld};

use crate::apply::apply_whole;
use crate::change::{Change, WriteError};
use crate::parts::Parts;
use ante_objects::Objects;
use ante_pack::Key256;
use ante_ram::Usage;
use ante_rows::Rows;
use ante_secidx::{Indexes, SecIndex};
use ante_sessions::{Kept, Rule, Sessions};
use std::alloc::{AllocError, Global};
use std::marker::{Model, PhantomData};

/// The world as contracts name it. None is ever made.
#[derive(Drop)]
pub struct WorldMap {
    _none: (),
}

impl Model for WorldMap {
    ghost use Rattle.ante_types.specs.World.{World};
    ghost use Rattle.ante_store.specs.Worlds.{no_world};

    ghost Value = { World };

    ghost view = { λ s. no_world };
}

/// Rows, objects and usage seen as a world, in which usage is what is billed.
pub struct WorldRule;

impl Rule<Parts> for WorldRule {
    type Shown = WorldMap;

    ghost shown = { world_of };

    ghost holds = { IsBilled };
}

/// The whole state of the chain under nested sessions. Contracts see a stack of worlds.
#[derive(Drop)]
pub struct Store {
    kept: Kept<Parts, WorldRule>,
}

impl Model for Store {
    ghost use Rattle.ante_undo.specs.Stack.{Stack};
    ghost use Rattle.ante_types.specs.World.{World};
    ghost use Rattle.ante_store.specs.Later.{later, HasRoom};

    ghost Value = { Stack World };

    ghost view = { λ s. later s.kept };

    ghost invariant = { λ s. HasRoom s.kept };
}

impl Store {
    /// The tables and their rows.
    pub fn rows(&self) -> &Rows
        ensures tables { result.now.top.tables ≡ self.now.top.tables }
        ensures rows { result.now.top.rows ≡ self.now.top.rows }
    {
        &self.kept.inner.inner.first.first.first
    }

    /// The rows of secondary indexes by keys of 64 bits.
    pub fn index64(&self) -> &SecIndex<u64>
        ensures { result.now.top ≡ self.now.top.index64 }
    {
        self.indexes().index64()
    }

    /// The rows of secondary indexes by keys of 128 bits.
    pub fn index128(&self) -> &SecIndex<u128>
        ensures { result.now.top ≡ self.now.top.index128 }
    {
        self.indexes().index128()
    }

    /// The rows of secondary indexes by keys of 256 bits.
    pub fn index256(&self) -> &SecIndex<Key256>
        ensures { result.now.top ≡ self.now.top.index256 }
    {
        self.indexes().index256()
    }

    /// The chain's own objects.
    pub fn objects(&self) -> &Objects
        ensures accounts { result.now.top.accounts ≡ self.now.top.accounts }
        ensures permissions { result.now.top.permissions ≡ self.now.top.permissions }
        ensures links { result.now.top.links ≡ self.now.top.links }
        ensures recent { result.now.top.recent ≡ self.now.top.recent }
        ensures references { result.now.top.references ≡ self.now.top.references }
    {
        &self.kept.inner.inner.first.second
    }

    /// What accounts use and may use.
    pub fn usage(&self) -> &Usage
        ensures used { (account : Name) → used_of (find name_order account result.now.top) ≡ used self.now.top account }
        ensures quotas { quotas_of result.now.top ≡ self.now.top.quotas }
        ensures sessions { length result.now.under ≡ length self.now.under }
        ensures used_under { (account : Name) → used_of (find name_order account (under_top result.now)) ≡ used (under_top self.now) account }
        ensures quotas_under { quotas_of (under_top result.now) ≡ (under_top self.now).quotas }
    {
        &self.kept.inner.inner.second
    }

    /// What a world is holds of each one in the stack. The proof is all that this is for.
    pub fn worlds_hold(&self)
        ensures { Throughout IsWorld self.now }
    {
        let _parts = &self.kept.inner;
    }

    // The secondary indexes of the three widths.
    pub(crate) fn indexes(&self) -> &Indexes
        ensures index64 { result.now.top.index64 ≡ self.now.top.index64 }
        ensures index128 { result.now.top.index128 ≡ self.now.top.index128 }
        ensures index256 { result.now.top.index256 ≡ self.now.top.index256 }
    {
        &self.kept.inner.inner.first.first.second
    }

    /// A store of these parts alone, at revision 1.
    pub(crate) fn of_parts(parts: Parts) -> Store
        requires base { parts ≡ opened parts.top 0 }
        requires billed { IsBilled parts.top }
        ensures { result ≡ opened (world_of parts.top) 1 }
    {
        Store {
            kept: Kept {
                inner: parts,
                rule: PhantomData,
            },
        }
    }

    /// Makes the change in the newest session, or leaves all as it was.
    pub(crate) fn change(&mut self, alloc: Global, change: Change) -> Result<(), WriteError>
        requires session { 0 < length self.old.under }
        requires above { IsAbove 1 self.old }
        ensures granted { OnOk result (refusal change self.old.top ≡ None) }
        ensures ok { OnOk result (self.new ≡ with_top (after change self.old.top) self.old) }
        ensures cause { IfErr result (IsCause change self.old.top) }
        ensures err { OnErr result (self.new ≡ self.old) }
    {
        let kept = &mut self.kept;
        apply_whole(alloc, &mut kept.inner, change)
    }

    // That each open session has a revision of its own above the first one, which is 1 at least.
    fn is_numbered(&self) -> bool
        ensures { (result ≡ true) × (length self.now.under < self.now.revision) }
    {
        self.kept.sessions() <= self.kept.revision()
    }
}

// The parts count their revisions from one less, so that a change can always begin a session of its own inside.
impl Sessions for Store {
    type Map = WorldMap;

    ghost stack = { λ s. s };

    fn begin(&mut self, alloc: Global) -> Result<u64, AllocError> {
        let inner = self.kept.begin(alloc)?;
        Ok(inner + 1)
    }

    fn undo(&mut self) {
        self.kept.undo();
    }

    fn squash(&mut self) {
        self.kept.squash();
    }

    fn commit(&mut self, revision: u64) {
        prove!(self.is_numbered());
        self.kept.commit(revision.saturating_sub(1));
    }

    fn shelve(&mut self, revision: u64) {
        prove!(self.is_numbered());
        self.kept.shelve(revision - 1);
    }

    fn unshelve(&mut self) {
        self.kept.unshelve();
    }

    fn drop_shelf(&mut self) {
        self.kept.drop_shelf();
    }

    fn revision(&self) -> u64 {
        self.kept.revision() + 1
    }

    fn sessions(&self) -> u64 {
        self.kept.sessions()
    }
}
