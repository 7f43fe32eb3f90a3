//! Calls by which a seat takes and gives back.
ghost use Rattle.std.specs.Prelude.{◌≡◌, ◌-◌, ◌^◌, ◌≤◌, ◌++◌, ◌∷◌, [], pos, neg_ℤ};
ghost use Rattle.threshold_pool.specs.Seats.{IsSeatOf, HasOwn};
ghost use Rattle.threshold_pool.specs.Calls.{TryAnswers, Answers};

use crate::pool::Pool;
use crate::seat::PoolSeat;
use std::sync::Wait;
use std::thread;

/// What a call that waits for nobody is answered.
#[derive(Clone, Copy, PartialEq, Eq)]
pub enum TryAllot {
    /// The seat got the amount, and holds this now.
    Got { held: u64 },
    /// The rest is below the amount.
    Short { rest: u64 },
    /// The rest was enough as it was loaded, and the exchange found another one.
    Lost { loaded: u64, found: u64 },
}

/// What a call is answered that tries until it knows.
#[derive(Clone, Copy, PartialEq, Eq)]
pub enum Allot {
    /// The seat got the amount, and holds this now.
    Got { held: u64 },
    /// The rest is below the amount.
    Short { rest: u64 },
}

impl Pool {
    /// Takes an amount of at most 10^15 out of the rest, if it is there. It waits for nobody: it
    /// loads the rest once, and exchanges it at most once. It takes no memory.
    pub fn try_allot(&self, seat: &mut PoolSeat, amount: u64) -> TryAllot
        requires seat { IsSeatOf self.now seat.old }
        requires amount { (1 ≤ amount) × (amount ≤ 10 ^ 15) }
        ensures seat { IsSeatOf self.now seat.new }
        ensures own { HasOwn seat.new }
        ensures answer { TryAnswers seat.old seat.new amount result }
    {
        let loaded = self.load(&mut seat.pass, amount);
        if loaded < amount {
            return TryAllot::Short { rest: loaded };
        }
        let found = self.take(&mut seat.pass, loaded, loaded - amount);
        if found != loaded {
            return TryAllot::Lost { loaded, found };
        }
        seat.held += amount;
        TryAllot::Got { held: seat.held }
    }

    /// Takes an amount of at most 10^15 out of the rest, or says that it isn't there. It tries
    /// while others change the rest, and nothing says that it ever ends. It takes no memory.
    pub fn allot(&self, rt: &impl Wait, seat: &mut PoolSeat, amount: u64) -> Allot
        requires seat { IsSeatOf self.now seat.old }
        requires amount { (1 ≤ amount) × (amount ≤ 10 ^ 15) }
        ensures seat { IsSeatOf self.now seat.new }
        ensures own { HasOwn seat.new }
        ensures answer { Answers seat.old seat.new amount result }
    {
        for _ in rt.forever() {
            match self.try_allot(seat, amount) {
                TryAllot::Got { held } => return Allot::Got { held },
                TryAllot::Short { rest } => return Allot::Short { rest },
                TryAllot::Lost { .. } => thread::yield_now(),
            }
        }
        unreachable!()
    }

    /// Gives back to the rest an amount that the seat holds, by one addition. It takes no memory.
    pub fn give(&self, seat: &mut PoolSeat, amount: u64)
        requires seat { IsSeatOf self.now seat.old }
        requires amount { (1 ≤ amount) × (amount ≤ seat.old.held) }
        ensures seat { IsSeatOf self.now seat.new }
        ensures own { HasOwn seat.new }
        ensures gave { seat.new ≡ record seat.old {
          own = seat.old.own ++ neg_ℤ (pos amount) ∷ [];
          held = seat.old.held - amount;
        } }
    {
        self.add(&mut seat.pass, amount);
        seat.held -= amount;
    }
}
