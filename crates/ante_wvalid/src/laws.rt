//! What holds of the definitions themselves, whatever the code does. The functions do nothing: their contracts are the
//! laws.

ghost use Rattle.ante_wtree.specs.Trees.{Tree};
ghost use Rattle.ante_wvalid.specs.Refusals.{HasOneFirst};

/// A module has one first kind at most.
pub fn one_first_kind()
    ensures { (m : Tree) → HasOneFirst m }
{}
