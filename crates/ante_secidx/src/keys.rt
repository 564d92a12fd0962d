// What can be a secondary key.
ghost use Rattle.std.specs.Prelude.{◌≡◌, ℕ, ◌≤◌, false};
ghost use Rattle.std.specs.Ordering.{is_gt};
ghost use Rattle.std.specs.FinMap.{IsAntisymmetric};
ghost use Rattle.ante_secidx.specs.Keys.{greatest_64, greatest_128, IsKey256};

use ante_pack::Key256;

/// What can be a secondary key: numbers of 64 and of 128 bits, and 256-bit keys.
pub trait SecKey: Ord + Copy {
    /// The key is within its bits.
    ghost fits: { Self → Type 0 };

    /// The greatest key.
    fn greatest() -> Self
        ensures { (key : Self) → fits key → is_gt (Self.cmp key result) ≡ false };

    /// Each key is within its bits. The proof is all that this is for.
    fn is_within(self)
        ensures { fits self };

    /// Keys that tie are one.
    ghost exact: { IsAntisymmetric Self.cmp };
}

impl SecKey for u64 {
    ghost use Rattle.std.specs.FinMap.{nat_cmp-IsAntisymmetric};

    ghost fits = { λ key. key ≤ greatest_64 };

    fn greatest() -> u64 {
        u64::MAX
    }

    fn is_within(self) {}

    ghost exact = { nat_cmp-IsAntisymmetric };
}

impl SecKey for u128 {
    ghost use Rattle.std.specs.FinMap.{nat_cmp-IsAntisymmetric};

    ghost fits = { λ key. key ≤ greatest_128 };

    fn greatest() -> u128 {
        u128::MAX
    }

    fn is_within(self) {}

    ghost exact = { nat_cmp-IsAntisymmetric };
}

impl SecKey for Key256 {
    ghost use Rattle.ante_secidx.specs.Keys.{key256_exact};

    ghost fits = { IsKey256 };

    fn greatest() -> Key256 {
        Key256 {
            first: u128::MAX,
            second: u128::MAX,
        }
    }

    fn is_within(self) {}

    ghost exact = { key256_exact };
}
