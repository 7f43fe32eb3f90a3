//! A seat's parts, cut in two and put together.
ghost use Rattle.std.specs.Prelude.{◌≡◌, ◌-◌, ◌<◌, ◌≤◌};
ghost use Rattle.threshold_pool.specs.Seats.{IsSeatOf, HasOwn, IsJoined, fresh_seat};

use crate::pool::Pool;
use crate::seat::PoolSeat;
use crate::steps::Number;
use crate::view::View;
use atomic_table::{Join, Split};
use std::marker::{Brand, PhantomData};

/// How a seat is cut, where the first keeps `N` parts.
pub struct Keep<N> {
    of: PhantomData<N>,
}

impl<N: Number> Split<View> for Keep<N> {
    ghost use Rattle.threshold_pool.specs.Views.{left_of, right_of};

    ghost left = { λ v. left_of N.value v };

    ghost right = { λ v. right_of N.value v };
}

/// How two seats become one.
pub struct Both;

impl Join<View> for Both {
    ghost use Rattle.threshold_pool.specs.Views.{joined, spent};

    ghost both = { joined };

    ghost spent = { spent };
}

impl Pool {
    /// Two seats of one: the first keeps `left` of the parts and all that the one held and did,
    /// and the second has the other parts and holds nothing. It takes no memory.
    pub fn split(&self, seat: PoolSeat, left: u32) -> (PoolSeat, PoolSeat)
        requires seat { IsSeatOf self.now seat }
        requires some { (1 ≤ left) × (left < seat.parts) }
        ensures seats { IsSeatOf self.now result.0 × IsSeatOf self.now result.1 }
        ensures first { result.0 ≡ record seat { parts = left } }
        ensures second { result.1 ≡ fresh_seat self.now (seat.parts - left) }
        ensures own { HasOwn result.0 × HasOwn result.1 }
    {
        self.cut::<Brand>(seat, left)
    }

    // The same, where proofs know the number as `N`.
    fn cut<N: Number>(&self, seat: PoolSeat, left: u32) -> (PoolSeat, PoolSeat)
        requires cut { left ≡ N.value }
        requires seat { IsSeatOf self.now seat }
        requires some { (1 ≤ left) × (left < seat.parts) }
        ensures seats { IsSeatOf self.now result.0 × IsSeatOf self.now result.1 }
        ensures first { result.0 ≡ record seat { parts = left } }
        ensures second { result.1 ≡ fresh_seat self.now (seat.parts - left) }
        ensures own { HasOwn result.0 × HasOwn result.1 }
    {
        let PoolSeat { held, mut pass } = seat;
        let others = self.table.shared.split_seat::<Keep<N>>(&mut pass);
        (
            PoolSeat { held, pass },
            PoolSeat {
                held: 0,
                pass: others,
            },
        )
    }

    /// One seat of two, with the parts, the allotments, the moves and the tops of both, and the
    /// lesser of the rests that they were told. It takes no memory.
    pub fn join(&self, a: PoolSeat, b: PoolSeat) -> PoolSeat
        requires seats { IsSeatOf self.now a × IsSeatOf self.now b }
        ensures seat { IsSeatOf self.now result }
        ensures joined { IsJoined a b result }
        ensures own { HasOwn result }
    {
        let PoolSeat { held, mut pass } = a;
        let PoolSeat {
            held: more,
            pass: others,
        } = b;
        self.table.shared.join_seat::<Both>(&mut pass, others);
        self.load(&mut pass, 0);
        PoolSeat {
            held: held + more,
            pass,
        }
    }
}
