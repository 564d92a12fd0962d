// What the usage of accounts is kept in.
ghost use Rattle.std.specs.Prelude.{◌≡◌, Some, OnOk, OnErr, Bool, ◌==◌, ◌&&◌};
ghost use Rattle.std.specs.Ordering.{nat_cmp};
ghost use Rattle.ante_undo.specs.Stack.{with_top, IsAbove};
ghost use Rattle.ante_undo.specs.Entries.{changed};
ghost use Rattle.ante_state.specs.Orders.{name_order};
ghost use Rattle.ante_ram.specs.Usage.{is_free, with_share};
ghost use Rattle.ante_ram.specs.Total.{IsSummed};

use ante_pack::Name;
use ante_sessions::{Both, Entries, Rule};
use ante_undo::Layered;
use std::alloc::{AllocError, Global};

/// What an account uses and may use, in bytes. The quota -1 is none.
#[derive(Clone, Copy, Debug, PartialEq, Eq)]
pub struct Share {
    pub used: u64,
    pub quota: i64,
}

impl Share {
    // Whether it is what an account has that nothing is said of.
    pub(crate) fn is_free(self) -> bool
        ensures { result ≡ is_free self.used self.quota }
    {
        self.used == 0 && self.quota == -1
    }
}

// What all accounts but one use. The sum of all usage is kept this way so that writing it changes nothing
// else: first the rest beside an account is written down, and then the account's own share.
#[derive(Clone, Copy, Debug, PartialEq, Eq)]
pub struct Rest {
    pub account: Name,
    pub used: u64,
}

// The shares, and the rest at the key 0.
pub(crate) type Parts = Both<Layered<Name, Share>, Layered<u64, Rest>>;

// Only the shares are seen.
/// What holds of usage and of its sum.
pub struct UsageRule;

impl Rule<Parts> for UsageRule {
    type Shown = Entries<Name, Share>;

    ghost shown = { λ m. m.0 };

    ghost holds = { IsSummed ⟦<Name as Ord>⟧.cmp };
}

// Writes down what all others use.
pub(crate) fn put_rest(parts: &mut Parts, alloc: Global, rest: Rest) -> Result<(), AllocError>
    requires above { IsAbove 1 parts.old }
    ensures ok { OnOk result (parts.new ≡ with_top (parts.old.top.0, changed nat_cmp parts.old.top.1 0 (Some rest)) parts.old) }
    ensures err { OnErr result (parts.new ≡ parts.old) }
{
    match parts.second.put(alloc, 0, rest) {
        Ok(()) => Ok(()),
        Err(refused) => Err(refused.1),
    }
}

// Writes the account's share.
pub(crate) fn put_share(
    parts: &mut Parts,
    alloc: Global,
    account: Name,
    share: Share,
) -> Result<(), AllocError>
    requires above { IsAbove 1 parts.old }
    ensures ok { OnOk result (parts.new ≡ with_top (with_share name_order account share.used share.quota parts.old.top.0, parts.old.top.1) parts.old) }
    ensures err { OnErr result (parts.new ≡ parts.old) }
{
    if share.is_free() {
        match parts.first.remove(alloc, &account) {
            Ok(_) => Ok(()),
            Err(refused) => Err(refused),
        }
    } else {
        match parts.first.put(alloc, account, share) {
            Ok(()) => Ok(()),
            Err(refused) => Err(refused.1),
        }
    }
}
