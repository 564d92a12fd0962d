//! Whether types are the same, and the result of one (section 2.3.3).
ghost use Rattle.std.specs.Prelude.{◌≡◌, ◌&&◌, ◌↔◌, IsTrue};
ghost use Rattle.ante_wtree.specs.Types.{result_of, same_kinds};

use crate::instructions::ValueKind;
use crate::modules::FuncType;

/// The first of the results. Valid types have one at most.
#[inline]
pub fn result_of(kinds: &[ValueKind]) -> Option<ValueKind>
    ensures { result ≡ result_of kinds.now }
{
    kinds.first().copied()
}

/// Whether these kinds are the same, one by one.
#[inline]
pub fn same_kinds(one: &[ValueKind], two: &[ValueKind]) -> bool
    ensures test { result ≡ same_kinds one.now two.now }
    ensures equal { IsTrue result ↔ (one.now ≡ two.now) }
{
    one == two
}

/// Whether a type has these parameters and these results.
#[inline]
pub fn same_type(found: &FuncType, params: &[ValueKind], results: &[ValueKind]) -> bool
    ensures test { result ≡ (same_kinds found.now.params params.now && same_kinds found.now.results results.now) }
    ensures equal { IsTrue result ↔ ((found.now.params ≡ params.now) × (found.now.results ≡ results.now)) }
{
    same_kinds(found.params.as_slice(), params) && same_kinds(found.results.as_slice(), results)
}
