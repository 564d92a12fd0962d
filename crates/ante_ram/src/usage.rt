ghost use Rattle.std.specs.Prelude.{◌≡◌, ℕ, ℤ, pos, negsuc, ◌+◌, ◌-◌, ◌^◌, ◌<◌, ◌≤◌, ◌↔◌, not, [], length, T, IsTrue};
ghost use Rattle.std.specs.Prelude.{Some, None, Err, IfSome, OnSome, OnOk, OnErr, IfOk, IfErr};
ghost use Rattle.std.specs.List.{AllByRecursion};
ghost use Rattle.std.specs.Option.{option_map};
ghost use Rattle.std.specs.FinMap.{IsAntisymmetric};
ghost use Rattle.std.specs.FinMap.Entries.{find, is_sorted};
ghost use Rattle.ante_undo.specs.Stack.{opened, with_top, begun, committed, under_top, IsSquashed, without_shelf, IsShelved, IsUnshelved, IsAbove, IsSound};
ghost use Rattle.ante_undo.specs.Entries.{first_entry};
ghost use Rattle.ante_sessions.specs.Walk.{past};
ghost use Rattle.ante_state.specs.Billing.{most_usage};
ghost use Rattle.ante_ram.specs.Usage.{used_of, quota_of, usage_sum, is_free, moved, fall, exceeds, shown_share};
ghost use Rattle.ante_ram.specs.Usage.{with_share, with_change, with_quota, first_over};
ghost use Rattle.ante_ram.specs.Least.{over_at, lesser_over, least_over};
ghost use Rattle.ante_ram.specs.declared.usage.RamFault.TheVariants.{OutOfMemory, RamTotal};

use crate::parts::{Parts, Rest, Share, UsageRule, put_rest, put_share};
use ante_pack::Name;
use ante_sessions::{Both, Entries, Kept, Sessions, next_entry};
use ante_state::billing::MOST_USAGE;
use ante_state::total_order;
use ante_undo::Layered;
use std::alloc::{AllocError, Global};
use std::collections::LinkedList;
use std::marker::{Model, PhantomData};
use thiserror::Error;

/// Why usage can't be changed.
#[derive(Clone, Copy, Debug, PartialEq, Eq, Error)]
pub enum RamFault {
    #[error("out of memory")]
    OutOfMemory,
    /// All usage together would pass 2^62.
    #[error("all accounts together would use more than 2^62 bytes")]
    RamTotal,
}

/// The memory that accounts use and may use, under nested sessions.
///
/// Contracts see a stack of maps from accounts to shares. An account that uses nothing and has no quota has no entry.
#[derive(Drop)]
pub struct Usage {
    kept: Kept<Parts, UsageRule>,
}

impl Model for Usage {
    ghost use Rattle.std.specs.Prelude.{List};
    ghost use Rattle.ante_undo.specs.Stack.{Stack};
    ghost use Rattle.ante_pack.specs.declared.names.Name.{Name};
    ghost use Rattle.ante_ram.specs.declared.parts.Share.{Share};

    ghost Value = { Stack (List (Name × Share)) };

    ghost view = { λ s. s.kept };
}

impl Usage {
    /// No usage and no quota, at the revision.
    pub fn new(alloc: Global, revision: u64) -> Usage
        requires small { revision < 2 ^ 63 }
        ensures { result ≡ opened [] revision }
    {
        Usage {
            kept: Kept {
                inner: Both {
                    first: Layered::new(alloc, revision),
                    second: Layered::new(alloc, revision),
                },
                rule: PhantomData,
            },
        }
    }

    /// The bytes that the account uses.
    pub fn used(&self, account: Name) -> u64
        ensures { result ≡ used_of (find ⟦<Name as Ord>⟧.cmp account self.now.top) }
    {
        self.share(account).used
    }

    /// The bytes that the account may use, or -1.
    pub fn quota(&self, account: Name) -> i64
        ensures { result ≡ quota_of (find ⟦<Name as Ord>⟧.cmp account self.now.top) }
    {
        self.share(account).quota
    }

    /// Changes what the account uses. A negative change needs that much usage.
    pub fn add(&mut self, alloc: Global, account: Name, change: i64) -> Result<(), RamFault>
        requires above { IsAbove 1 self.old }
        requires falls { fall change ≤ used_of (find ⟦<Name as Ord>⟧.cmp account self.old.top) }
        ensures ok { OnOk result (self.new ≡ with_top (with_change ⟦<Name as Ord>⟧.cmp account change self.old.top) self.old) }
        ensures total { (result ≡ Err RamTotal) ↔ (most_usage < moved change (usage_sum self.old.top)) }
        ensures err { OnErr result (self.new ≡ self.old) }
    {
        let share = self.share(account);
        let others = self.others(account);
        let used = changed_usage(share.used, change);
        if others + used > MOST_USAGE {
            return Err(RamFault::RamTotal);
        }
        let share = Share {
            used,
            quota: share.quota,
        };
        match self.write(alloc, account, others, share) {
            Ok(()) => Ok(()),
            Err(_) => Err(RamFault::OutOfMemory),
        }
    }

    /// Sets what the account may use; -1 is no quota.
    pub fn set_quota(&mut self, alloc: Global, account: Name, quota: i64) -> Result<(), RamFault>
        requires above { IsAbove 1 self.old }
        ensures ok { OnOk result (self.new ≡ with_top (with_quota ⟦<Name as Ord>⟧.cmp account quota self.old.top) self.old) }
        ensures fault { IfErr result (λ fault. fault ≡ OutOfMemory) }
        ensures err { OnErr result (self.new ≡ self.old) }
    {
        let share = Share {
            used: self.used(account),
            quota,
        };
        let others = self.others(account);
        match self.write(alloc, account, others, share) {
            Ok(()) => Ok(()),
            Err(_) => Err(RamFault::OutOfMemory),
        }
    }

    /// The least account that uses more than when the newest session began, and more than its quota, with its usage
    /// and its quota. The quota -1 is none.
    pub fn first_over(&self) -> Option<(Name, u64, i64)>
        requires session { 0 < length self.now.under }
        ensures { result ≡ first_over ⟦<Name as Ord>⟧.cmp (under_top self.now) self.now.top }
    {
        total_order::<Name>();
        exact_names();
        self.entries_hold();
        self.least_over(self.kept.inner.first.replaced())
    }

    // The least account that is over, of those that were changed.
    fn least_over(&self, changes: &LinkedList<(Name, Option<Share>)>) -> Option<(Name, u64, i64)>
        requires session { 0 < length self.now.under }
        ensures { result ≡ least_over ⟦<Name as Ord>⟧.cmp (under_top self.now) self.now.top None changes.now }
    {
        let mut least = None;
        for change in changes {
            least = self.lesser_over(least, change.0);
        }
        least
    }

    // The least so far, or the account, if it is over and less.
    fn lesser_over(
        &self,
        least: Option<(Name, u64, i64)>,
        account: Name,
    ) -> Option<(Name, u64, i64)>
        requires session { 0 < length self.now.under }
        ensures { result ≡ lesser_over ⟦<Name as Ord>⟧.cmp (under_top self.now) self.now.top least account }
    {
        match least {
            Some(found) => {
                if found.0.cmp(&account).is_gt() {
                    self.over_at(account).or(least)
                } else {
                    least
                }
            }
            None => self.over_at(account),
        }
    }

    // The account with its usage and its quota, if it is over. What it used before is looked up last, since that look-up
    // goes through the session's changes.
    fn over_at(&self, account: Name) -> Option<(Name, u64, i64)>
        requires session { 0 < length self.now.under }
        ensures { result ≡ over_at ⟦<Name as Ord>⟧.cmp (under_top self.now) self.now.top account }
    {
        let share = self.share(account);
        if exceeds(share.used, share.quota) && share.used > self.used_before(account) {
            Some((account, share.used, share.quota))
        } else {
            None
        }
    }

    // What the account used when the newest session began.
    fn used_before(&self, account: Name) -> u64
        requires session { 0 < length self.now.under }
        ensures { result ≡ used_of (find ⟦<Name as Ord>⟧.cmp account (under_top self.now)) }
    {
        match self.kept.inner.first.under(&account) {
            Some(share) => share.used,
            None => 0,
        }
    }

    /// The first account after the given one, or the first of all, with its usage and its quota. An account that uses
    /// nothing and has no quota is passed over.
    pub fn next_usage(&self, after: Option<Name>) -> Option<(Name, u64, i64)>
        ensures next { result ≡ option_map shown_share (first_entry (past ⟦<Name as Ord>⟧.cmp after self.now.top)) }
        ensures counted { IfSome result (λ e. IsTrue (not (is_free e.1 e.2))) }
        ensures ordered { IsTrue (is_sorted ⟦<Name as Ord>⟧.cmp self.now.top) }
    {
        match next_entry(&self.kept.inner.first, after) {
            Some((account, share)) => Some(shown(account, share)),
            None => None,
        }
    }

    /// Each account with an entry uses something or has a quota, and the accounts rise. The proof is all that this is for.
    pub fn entries_hold(&self)
        ensures counted { AllByRecursion (λ e. T (not (is_free e.1.used e.1.quota))) self.now.top }
        ensures ordered { T (is_sorted ⟦<Name as Ord>⟧.cmp self.now.top) }
    {
        let _shares = &self.kept.inner.first;
    }

    // What all other accounts use.
    fn others(&self, account: Name) -> u64
        ensures others { result + used_of (find ⟦<Name as Ord>⟧.cmp account self.now.top) ≡ usage_sum self.now.top }
        ensures small { usage_sum self.now.top ≤ most_usage }
    {
        let rest = self.rest();
        rest.used + self.used(rest.account) - self.used(account)
    }

    // What is written down of the rest.
    fn rest(&self) -> Rest
        ensures total { result.used + used_of (find ⟦<Name as Ord>⟧.cmp result.account self.now.top) ≡ usage_sum self.now.top }
        ensures small { usage_sum self.now.top ≤ most_usage }
    {
        match self.kept.inner.second.get(&0) {
            Some(rest) => *rest,
            None => Rest {
                account: Name(0),
                used: 0,
            },
        }
    }

    // Writes an account's share, where the others use so much.
    fn write(
        &mut self,
        alloc: Global,
        account: Name,
        others: u64,
        share: Share,
    ) -> Result<(), AllocError>
        requires above { IsAbove 1 self.old }
        requires others { others + used_of (find ⟦<Name as Ord>⟧.cmp account self.old.top) ≡ usage_sum self.old.top }
        requires small { others + share.used ≤ most_usage }
        ensures ok { OnOk result (self.new ≡ with_top (with_share ⟦<Name as Ord>⟧.cmp account share.used share.quota self.old.top) self.old) }
        ensures err { OnErr result (self.new ≡ self.old) }
    {
        total_order::<Name>();
        let rest = Rest {
            account,
            used: others,
        };
        let parts = &mut self.kept.inner;
        put_rest(parts, alloc, rest)?;
        put_share(parts, alloc, account, share)
    }

    fn share(&self, account: Name) -> Share
        ensures used { result.used ≡ used_of (find ⟦<Name as Ord>⟧.cmp account self.now.top) }
        ensures quota { result.quota ≡ quota_of (find ⟦<Name as Ord>⟧.cmp account self.now.top) }
    {
        match self.kept.inner.first.get(&account) {
            Some(share) => *share,
            None => Share { used: 0, quota: -1 },
        }
    }
}

// Names that tie are equal. The proof is all that this is for.
fn exact_names()
    ensures { IsAntisymmetric ⟦<Name as Ord>⟧.cmp }
{}

// Usage after a change of it.
fn changed_usage(used: u64, change: i64) -> u64
    requires falls { fall change ≤ used }
    requires small { used ≤ most_usage }
    ensures { result ≡ moved change used }
{
    if change < 0 {
        used - change.unsigned_abs()
    } else {
        used + change.unsigned_abs()
    }
}

fn shown(account: &Name, share: &Share) -> (Name, u64, i64)
    ensures { result ≡ shown_share (account.now, share.now) }
{
    (*account, share.used, share.quota)
}

// Whether more than the quota is used.
fn exceeds(used: u64, quota: i64) -> bool
    ensures { result ≡ exceeds used quota }
{
    if quota < 0 {
        quota != -1
    } else {
        used > quota.unsigned_abs()
    }
}

impl Sessions for Usage {
    type Map = Entries<Name, Share>;

    ghost stack = { λ s. s };

    fn begin(&mut self, alloc: Global) -> Result<u64, AllocError> {
        self.kept.begin(alloc)
    }

    fn undo(&mut self) {
        self.kept.undo();
    }

    fn squash(&mut self) {
        self.kept.squash();
    }

    fn commit(&mut self, revision: u64) {
        self.kept.commit(revision);
    }

    fn shelve(&mut self, revision: u64) {
        self.kept.shelve(revision);
    }

    fn unshelve(&mut self) {
        self.kept.unshelve();
    }

    fn drop_shelf(&mut self) {
        self.kept.drop_shelf();
    }

    fn revision(&self) -> u64 {
        self.kept.revision()
    }

    fn sessions(&self) -> u64 {
        self.kept.sessions()
    }
}
