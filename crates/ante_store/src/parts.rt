// What the store is made of.
ghost use Rattle.std.specs.Prelude.{◌≡◌, ◌<◌, ◌^◌};
ghost use Rattle.ante_undo.specs.Stack.{opened};
ghost use Rattle.ante_store.specs.Shown.{no_maps, shown_maps};

use ante_objects::{Objects, ObjectsMap};
use ante_pack::Name;
use ante_ram::{Share, Usage};
use ante_rows::{Rows, RowsMap};
use ante_secidx::{Indexes, IndexesMap};
use ante_sessions::{Both, Entries, Kept, Rule};
use std::alloc::Global;
use std::marker::PhantomData;

/// The maps of the store as contracts name them. None is ever made.
pub struct Maps {
    pub rows: RowsMap,
    pub indexes: IndexesMap,
    pub objects: ObjectsMap,
    pub usage: Entries<Name, Share>,
}

/// What holds of the maps of a store.
pub struct MapsRule;

/// The rows of all kinds in the same sessions.
pub(crate) type Kinds = Both<Rows, Indexes>;

type AllMaps = Both<Both<Kinds, Objects>, Usage>;

impl Rule<AllMaps> for MapsRule {
    type Shown = Maps;

    ghost shown = { shown_maps };

    ghost holds = { λ m. Unit {0} };
}

/// Rows, objects and usage in the same sessions.
pub(crate) type Parts = Kept<AllMaps, MapsRule>;

/// Nothing at all, at the revision.
pub(crate) fn no_parts(alloc: Global, revision: u64) -> Parts
    requires small { revision < 2 ^ 63 }
    ensures { result ≡ opened no_maps revision }
{
    let kinds = Both {
        first: Rows::new(alloc, revision),
        second: Indexes::new(alloc, revision),
    };
    let both = Both {
        first: kinds,
        second: Objects::new(alloc, revision),
    };
    Kept {
        inner: Both {
            first: both,
            second: Usage::new(alloc, revision),
        },
        rule: PhantomData,
    }
}
