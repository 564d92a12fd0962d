// Lists in strict order.
ghost use Rattle.std.specs.Prelude.{◌≡◌};
ghost use Rattle.std.specs.declared.cmp.Ordering.{Ordering};
ghost use Rattle.std.specs.Ordering.{is_lt};
ghost use Rattle.ante_execution.specs.GenesisRules as genesis;
ghost use Rattle.ante_execution.specs.Native.Rules.{key_order, account_order, rises};

use ante_pack::{KeyWeight, LevelWeight};
use ante_types::GenesisAccount;

/// An item of a list that must rise.
pub(crate) trait Rising {
    ghost order: { Self → Self → Ordering };

    fn is_below(&self, other: &Self) -> bool
        ensures { result ≡ is_lt (order self.now other.now) };
}

impl Rising for KeyWeight {
    ghost order = { key_order };

    fn is_below(&self, other: &KeyWeight) -> bool {
        self.key.cmp(&other.key).is_lt()
    }
}

impl Rising for LevelWeight {
    ghost order = { account_order };

    fn is_below(&self, other: &LevelWeight) -> bool {
        self.level.cmp(&other.level).is_lt()
    }
}

impl Rising for GenesisAccount {
    ghost order = { genesis.account_order };

    fn is_below(&self, other: &GenesisAccount) -> bool {
        self.name.cmp(&other.name).is_lt()
    }
}

/// Whether each item is below the next.
pub(crate) fn rises<R: Rising>(items: &[R]) -> bool
    ensures { result ≡ rises R.order items.now }
{
    let Some((first, others)) = items.split_first() else {
        return true;
    };
    let mut last = first;
    let mut rest = others;
    'all: while let Some((next, others)) = rest.split_first() {
        if !last.is_below(next) {
            return false;
        }
        last = next;
        rest = others;
    }
    true
}
