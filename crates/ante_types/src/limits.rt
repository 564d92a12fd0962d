//! The limits of the chain.
ghost use Rattle.std.specs.Prelude.{◌≡◌};
ghost use Rattle.ante_types.specs.Limits.{most_transaction_bytes, most_transaction_steps};

/// The bytes of a packed transaction, together with its signatures where it has some.
pub const MOST_TRANSACTION_BYTES: usize = 1_500_000;

/// The steps that all runs of a transaction may take together.
pub const MOST_TRANSACTION_STEPS: u64 = 10_000_000;

/// A law: the constants are the definitions of their names.
pub fn chain_limits()
    ensures bytes { MOST_TRANSACTION_BYTES ≡ most_transaction_bytes }
    ensures steps { MOST_TRANSACTION_STEPS ≡ most_transaction_steps }
{}
