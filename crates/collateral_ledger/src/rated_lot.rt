ghost use Rattle.std.specs.Prelude.{◌≡◌, ◌*◌, ◌^◌, ◌≤◌, pos, ◌*ℤ◌, ◌-ℤ◌, unsigned_abs};
ghost use Rattle.std.specs.Int.{int_max};
ghost use Rattle.collateral_ledger.specs.Holdings.{IsLotValue};
ghost use Rattle.collateral_ledger.specs.Kept.{counted_of};

use crate::rates::WHOLE;
use csa_terms::mh_units::{Rate4, div_down};
use std::marker::Model;

/// A lot of collateral without its name: its place in the order in which lots were put, its value
/// in cents, and what counts of each dollar of it.
#[derive(Drop)]
pub struct RatedLot {
    place: u64,
    value: i64,
    rate: Rate4,
}

impl Model for RatedLot {
    ghost use Rattle.collateral_ledger.specs.Kept.{Rated, IsRated};

    ghost Value = { Rated };

    ghost view = { λ l. record { place = l.place; value = l.value; rate = l.rate.0 } };

    ghost invariant = { λ l.
        IsRated (record { place = l.place; value = l.value; rate = l.rate.0 }) };
}

impl RatedLot {
    /// A lot at a place, with its value in cents, of which so much of each dollar counts.
    pub fn new(place: u64, value: i64, rate: Rate4) -> RatedLot
        requires in_range { IsLotValue value }
        requires small { unsigned_abs rate.0 ≤ 10000 }
        ensures { result ≡ record { place = place; value = value; rate = rate.0 } }
    {
        RatedLot { place, value, rate }
    }

    /// Changes the value, and answers by how much more the lot counts for, below 0 where it counts
    /// for less.
    pub fn set_value(&mut self, value: i64) -> i128
        requires { IsLotValue value }
        ensures lot { self.new ≡ record self.old { value = value } }
        ensures more { result ≡ counted_of self.new -ℤ counted_of self.old }
        ensures small { unsigned_abs (counted_of self.new) ≤ 10 ^ 15 }
        ensures size { unsigned_abs result ≤ 2 * 10 ^ 15 }
    {
        let before = self.counted();
        self.value = value;
        self.counted() - before
    }

    /// What the lot counts for, rounded down to the cent.
    pub fn counted(&self) -> i128
        ensures value { result ≡ counted_of self.now }
        ensures size { unsigned_abs result ≤ 10 ^ 15 }
    {
        div_down(weighted(self.value, self.rate), i128::from(WHOLE.0))
    }
}

/// A value at a rate, in ten-thousandths of a cent, never below zero.
fn weighted(value: i64, rate: Rate4) -> i128
    requires value { IsLotValue value }
    requires rate { unsigned_abs rate.0 ≤ 10000 }
    ensures value { result ≡ int_max (value *ℤ rate.0) (pos 0) }
    ensures size { unsigned_abs result ≤ 10 ^ 19 }
{
    (i128::from(value) * i128::from(rate.0)).max(0)
}
