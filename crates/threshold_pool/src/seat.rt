ghost use Rattle.std.specs.Prelude.{◌≡◌, ◌≤◌, ◌^◌};
ghost use Rattle.threshold_pool.specs.Seats.{HasOwn};

use crate::view::Pass;
use std::marker::Model;

/// Some parts of a pool, and an allotment of it.
///
/// Contracts see its parts; what it holds, which is the sum of its moves; `top`, which a Got
/// raises to what is then held, where that is more; `least`, which a Short lowers to the rest that
/// it shows; and a count of its steps. A seat that is dropped takes its allotment with it, and the
/// pool can then be dropped, but not closed.
#[derive(Drop)]
pub struct PoolSeat {
    pub(crate) held: u64,
    pub(crate) pass: Pass,
}

impl Model for PoolSeat {
    ghost use Rattle.threshold_pool.specs.Seats.{SeatState, IsAtRest, seat_state};

    ghost Value = { SeatState };

    ghost view = { λ s. seat_state s.pass.table_id s.pass.me.0 };

    ghost invariant = { λ s. IsAtRest s.held s.pass.me };
}

impl PoolSeat {
    /// Its allotment. It takes no step and no memory.
    pub fn held(&self) -> u64
        ensures held { result ≡ self.now.held }
        ensures within { result ≤ self.now.total }
        ensures limit { self.now.total ≤ 10 ^ 15 }
        ensures own { HasOwn self.now }
    {
        self.held
    }
}
