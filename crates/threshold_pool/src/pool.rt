ghost use Rattle.std.specs.Prelude.{◌≡◌, ◌+◌, ◌^◌, ◌≤◌, IfOk};
ghost use Rattle.threshold_pool.specs.Seats.{IsSeatOf, HasOwn, fresh_seat};

use crate::seat::PoolSeat;
use crate::view::View;
use atomic_table::{Table, TableRule};
use std::alloc::{AllocError, Global};
use std::marker::Model;

// What the table is told as it is made.
#[derive(Clone, Copy)]
pub struct Start {
    /// What the rest and all allotments add up to.
    pub total: u64,
    /// How many parts there are.
    pub seats: u32,
}

/// The rule of a pool: the rest and all allotments add up to the total.
pub struct OneTotal;

impl TableRule<(), View, Start> for OneTotal {
    ghost use Rattle.threshold_pool.specs.Rule.{IsPooled};
    ghost use Rattle.threshold_pool.specs.Views.{fresh};

    ghost holds = { λ start. IsPooled start.total start.seats };

    ghost first = { λ start. fresh start.total start.seats };
}

/// The rest of a total that threads share.
///
/// Contracts see which pool it is, its total and its number of seats; what its rest is at a moment
/// no contract can say.
#[derive(Drop)]
pub struct Pool {
    pub(crate) table: Table<(), View, Start, OneTotal, Global>,
}

impl Model for Pool {
    ghost use Rattle.threshold_pool.specs.Seats.{PoolState, HasOneWord, pool_of};

    ghost Value = { PoolState };

    ghost view = { λ p. pool_of p.table.shared.table_id p.table.shared.key };

    ghost invariant = { λ p. HasOneWord p.table.shared.table_id };
}

impl Pool {
    /// A pool whose rest is the total, from 1 to 10^15, and the seat that has all of its parts, of
    /// which there are 1 to 32, and holds nothing. The only error is want of memory.
    pub fn start(alloc: Global, total: u64, seats: u32) -> Result<(Pool, PoolSeat), AllocError>
        requires total { (1 ≤ total) × (total ≤ 10 ^ 15) }
        requires seats { (1 ≤ seats) × (seats ≤ 32) }
        ensures pool { IfOk result (λ r. (r.0.total ≡ total) × (r.0.seats ≡ seats)) }
        ensures seat { IfOk result (λ r. IsSeatOf r.0 r.1 × (r.1 ≡ fresh_seat r.0 seats)) }
        ensures own { IfOk result (λ r. HasOwn r.1) }
    {
        let (table, pass) = Table::of_words(alloc, &[total], &Start { total, seats })?;
        Ok((Pool { table }, PoolSeat { held: 0, pass }))
    }

    /// The rest, by the seat that has all parts. No rest that a seat was told as too little was
    /// below what the total has above all tops. It takes no memory.
    pub fn close(self, seat: PoolSeat) -> u64
        requires seat { IsSeatOf self seat }
        requires all { seat.parts ≡ self.seats }
        ensures amounts { result + seat.held ≡ self.total }
        ensures least { self.total ≤ seat.least + seat.top }
        ensures own { HasOwn seat }
    {
        let closed = self.table.close_with(seat.pass);
        let rest = closed.word(0);
        closed.free();
        rest
    }
}
