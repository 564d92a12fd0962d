//! What holds of the packed forms and of the keys' order, whatever the code does. The functions do nothing: their
//! contracts are the laws.

ghost use Rattle.std.specs.Prelude.{◌≡◌};
ghost use Rattle.ante_pack.specs.Forms.{HasOneSpelling, varuint};
ghost use Rattle.ante_pack.specs.Packed.{key};
ghost use Rattle.ante_pack.specs.KeyOrder.{key256_order};

use crate::names::Key256;
use crate::packed::Packed;

/// No spelling of a value begins another spelling of the same type, and each value has one.
pub fn one_spelling<T: Packed>()
    ensures { HasOneSpelling T.form }
{}

/// The same of the fields that are no types of their own.
pub fn fields_have_one_spelling()
    ensures varuint { HasOneSpelling varuint }
    ensures key { HasOneSpelling key }
{}

/// 256-bit keys are ordered by their first word, and then by the second.
pub fn keys_are_ordered()
    ensures { ⟦<Key256 as Ord>⟧.cmp ≡ key256_order }
{}
