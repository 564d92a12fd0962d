//! What holds of the packed state itself, whatever the code does. The function does nothing: its contract is the law.

ghost use Rattle.std.specs.Prelude.{◌≡◌};
ghost use Rattle.ante_pack.specs.declared.authority.Authority.{Authority};
ghost use Rattle.ante_pack.specs.Packed.{authority};
ghost use Rattle.ante_digest.specs.Entries.{packed_authority};

/// An authority that has a spelling stands in the state as it is spelled.
pub fn authorities_are_spelled()
    ensures { (a : Authority) → authority.Fits a → packed_authority a ≡ authority.spell a }
{}
