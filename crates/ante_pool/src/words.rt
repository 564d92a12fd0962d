//! What a seat knows, the rule over the pool's two words and all seats, and what each step tells its seat.
use atomic_table::{Join, Play, Split, TableRule};
use std::collections::LinkedList;

/// What a seat knows. It stands in proofs alone: no value of it is made.
pub struct Known {
    /// How many jobs the pool hands out.
    pub jobs: u64,
    /// Its part of the right to close the pool.
    pub share: u64,
    /// The jobs that it claimed, in their order.
    pub numbers: LinkedList<u64>,
    /// The moments that its looks and rings told it.
    pub moments: LinkedList<u64>,
    /// The moment that it rang with, where its ring was the first.
    pub won: Option<u64>,
    /// Whether it was told that no job is left.
    pub ended: bool,
}

pub struct Words;

impl TableRule<(), Known, u32> for Words {
    ghost use Rattle.ante_pool.specs.Seats.{first_seat};
    ghost use Rattle.ante_pool.specs.Standing.{Standing};

    ghost holds = { Standing };

    ghost first = { first_seat };
}

pub struct Halves;

impl Split<Known> for Halves {
    ghost use Rattle.ante_pool.specs.Seats.{kept_half, new_half};

    ghost left = { kept_half };

    ghost right = { new_half };
}

pub struct Merged;

impl Join<Known> for Merged {
    ghost use Rattle.ante_pool.specs.Seats.{joined, spent};

    ghost both = { joined };

    ghost spent = { spent };
}

pub struct Draw;

impl Play<(), Known> for Draw {
    ghost use Rattle.ante_pool.specs.Standing.{Drew};

    ghost then = { Drew };
}

pub struct Glance;

impl Play<(), Known> for Glance {
    ghost use Rattle.ante_pool.specs.Standing.{Saw};

    ghost then = { Saw };
}

pub struct Strike;

impl Play<(), Known> for Strike {
    ghost use Rattle.ante_pool.specs.Standing.{Rang};

    ghost then = { Rang };
}
