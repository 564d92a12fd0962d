//! A pool of numbered jobs that threads claim without waiting, and a bell that ends the claiming.
//!
//! `specs/Seats.antt` says what a seat knows and what each call makes of it, `specs/Standing.antt` the rule that holds
//! of the two words and all seats between any two steps, and `specs/Pools.antt` what contracts see of a pool, its
//! seats and its end.
#![tactic(auto)]

ghost use Rattle.std.specs.Prelude.{◌≡◌, ℕ, ◌<◌, ◌≤◌, ◌^◌, false, All, IsOk, IfOk, IfSome};
ghost use Rattle.ante_pool.specs.declared.Looked.TheVariants.{Rung};
ghost use Rattle.ante_pool.specs.declared.Ringing.TheVariants.{Lost};
ghost use Rattle.ante_pool.specs.Seats.{whole_share, first_seat, kept_half, new_half, joined, after_claim, after_look, after_ring, IsOnce, AllBelow};
ghost use Rattle.ante_pool.specs.Pools.{IsSeatOf, IsTruth};

#[cfg(test)]
mod tests;
mod words;

use atomic_table::{Seat, Table};
use std::alloc::{AllocError, Global};
use std::marker::Model;
use words::{Draw, Glance, Halves, Known, Merged, Strike, Words};

/// What a look at the bell finds.
#[derive(Clone, Copy, Debug, PartialEq, Eq)]
pub enum Looked {
    /// It wasn't rung.
    Running,
    /// It was rung, with this moment.
    Rung { at: u64 },
}

/// What ringing does.
#[derive(Clone, Copy, Debug, PartialEq, Eq)]
pub enum Ringing {
    /// The bell is rung with the moment that was given.
    Won,
    /// It was rung before, with this moment.
    Lost { at: u64 },
}

/// What a closed pool leaves.
#[derive(Clone, Copy, Debug, PartialEq, Eq)]
pub struct PoolEnd {
    /// How often a number was asked for.
    pub drawn: u64,
    /// The moment that the bell was rung with.
    pub rung: Option<u64>,
}

/// Jobs numbered from 0, and a bell. Threads share it by `&`, each with a seat of its own.
#[derive(Drop)]
pub struct Pool {
    table: Table<(), Known, u32, Words, Global>,
    jobs: u32,
}

impl Model for Pool {
    ghost use Rattle.std.specs.Prelude.{◌≡◌};
    ghost use Rattle.ante_pool.specs.Pools.{PoolView};

    ghost Value = { PoolView };

    ghost view = { λ p. record { table = p.table.shared.table_id; jobs = p.jobs } };

    ghost invariant = { λ p. (p.table.shared.table_id.words ≡ 2) × (p.table.shared.table_id.slots ≡ 0) × (p.table.shared.key ≡ p.jobs) };
}

/// A thread's part of a pool. It has no bytes.
#[derive(Drop)]
pub struct PoolSeat {
    seat: Seat<(), Known>,
}

impl Model for PoolSeat {
    ghost use Rattle.std.specs.Prelude.{◌≡◌, ◌<◌, []};
    ghost use Rattle.ante_pool.specs.Pools.{SeatView};

    ghost Value = { SeatView };

    ghost view = { λ s. record { table = s.seat.table_id; known = s.seat.me.0 } };

    ghost invariant = { λ s. (s.seat.me.1 ≡ []) × (0 < s.seat.me.0.share) };
}

impl Pool {
    /// A pool of so many jobs, and its first seat, which has the whole share.
    pub fn new(alloc: Global, jobs: u32) -> Result<(Pool, PoolSeat), AllocError>
        ensures { IfOk result (λ made. (made.0.jobs ≡ jobs) × IsSeatOf made.0 made.1 × (made.1.known ≡ first_seat jobs)) }
    {
        let (table, seat) = Table::of_words(alloc, &[0, 0], &jobs)?;
        Ok((Pool { table, jobs }, PoolSeat { seat }))
    }

    /// A seat for another thread, with half the share of this one, rounded down.
    pub fn split(&self, _alloc: Global, seat: &mut PoolSeat) -> Result<PoolSeat, AllocError>
        requires here { IsSeatOf self.now seat.old }
        requires share { 2 ≤ seat.old.known.share }
        ensures ok { IsOk result }
        ensures here { IsSeatOf self.now seat.new × IfOk result (λ other. IsSeatOf self.now other) }
        ensures kept { seat.new.known ≡ kept_half seat.old.known }
        ensures other { IfOk result (λ other. other.known ≡ new_half seat.old.known) }
    {
        Ok(PoolSeat {
            seat: self.table.shared.split_seat::<Halves>(&mut seat.seat),
        })
    }

    /// Gives all that the other seat has to this one.
    pub fn join(&self, into: &mut PoolSeat, other: PoolSeat)
        requires here { IsSeatOf self.now into.old }
        requires other { IsSeatOf self.now other }
        ensures here { IsSeatOf self.now into.new }
        ensures known { into.new.known ≡ joined into.old.known other.known }
    {
        let PoolSeat { seat: other } = other;
        self.table.shared.join_seat::<Merged>(&mut into.seat, other);
    }

    /// A job that nobody claimed before, or `None` where none is left. The seat is then ended.
    pub fn claim(&self, seat: &mut PoolSeat) -> Option<u32>
        requires here { IsSeatOf self.now seat.old }
        requires going { seat.old.known.ended ≡ false }
        ensures here { IsSeatOf self.now seat.new }
        ensures known { seat.new.known ≡ after_claim seat.old.known result }
        ensures job { IfSome result (λ n. n < self.now.jobs) }
        ensures once { IsOnce seat.new.known.numbers }
        ensures rises { IfSome result (λ n. AllBelow n seat.old.known.numbers) }
    {
        let found = self.table.shared.fetch_add::<Draw>(&mut seat.seat, 0, 1);
        if found < self.jobs as u64 {
            Some(found as u32)
        } else {
            None
        }
    }

    /// Whether the bell was rung, and with which moment. All that a pool's seats are told is one moment.
    pub fn look(&self, seat: &mut PoolSeat) -> Looked
        requires here { IsSeatOf self.now seat.old }
        ensures here { IsSeatOf self.now seat.new }
        ensures known { seat.new.known ≡ after_look seat.old.known result }
        ensures agrees { All (λ m. result ≡ Rung m) seat.old.known.moments }
        ensures once { IsOnce seat.new.known.numbers }
    {
        let found = self.table.shared.load::<Glance>(&mut seat.seat, 1);
        if found == 0 {
            Looked::Running
        } else {
            Looked::Rung { at: found - 1 }
        }
    }

    /// Rings the bell with the moment, in microseconds, unless it was rung before.
    pub fn ring(&self, seat: &mut PoolSeat, moment: u64) -> Ringing
        requires here { IsSeatOf self.now seat.old }
        requires moment { moment < 2 ^ 63 }
        ensures here { IsSeatOf self.now seat.new }
        ensures known { seat.new.known ≡ after_ring seat.old.known moment result }
        ensures agrees { All (λ m. result ≡ Lost m) seat.old.known.moments }
    {
        let found = self
            .table
            .shared
            .compare_exchange::<Strike>(&mut seat.seat, 1, 0, moment + 1);
        if found == 0 {
            Ringing::Won
        } else {
            Ringing::Lost { at: found - 1 }
        }
    }

    /// Ends the pool. The seat has the whole share, so all others were joined into it.
    pub fn close(self, seat: PoolSeat) -> PoolEnd
        requires here { IsSeatOf self seat }
        requires share { seat.known.share ≡ whole_share }
        ensures { IsTruth self.jobs seat.known result }
    {
        let Pool { table, jobs: _ } = self;
        let PoolSeat { seat } = seat;
        let closed = table.close_with(seat);
        let drawn = closed.word(0);
        let bell = closed.word(1);
        closed.free();
        let rung = if bell == 0 { None } else { Some(bell - 1) };
        PoolEnd { drawn, rung }
    }
}
