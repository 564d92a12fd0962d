//! What holds of the host's table, whatever the code does. The functions do nothing: their contracts are the laws.
ghost use Rattle.std.specs.Prelude.{◌≡◌, ℕ, List, Some};
ghost use Rattle.ante_wtree.specs.Intrinsics.{name_at};

/// A name has one number at most.
pub fn one_number_a_name()
    ensures { (m n : ℕ) (name : List ℕ) → name_at m ≡ Some name → name_at n ≡ Some name → m ≡ n }
{}
