ghost use Rattle.std.specs.Prelude.{◌≡◌, length, Some};
ghost use Rattle.held_cell.specs.Seats.{HasOwn};

use crate::machine::Machine;
use crate::view::Pass;
use std::marker::Model;

/// Some callers of a cell, `count` of them from number `first` on. Calls are made in the name of
/// the first.
///
/// Contracts see what it has seen, which is a beginning of the cell's journal; its own, which are
/// all entries of that whose caller is one of its callers; and a count of its steps. A seat that
/// is dropped takes its callers with it, and the cell can then be dropped, but not closed.
#[derive(Drop)]
pub struct Seat<M: Machine> {
    pub(crate) first: u32,
    pub(crate) count: u32,
    pub(crate) seen_len: u32,
    pub(crate) pass: Pass<M>,
}

impl<M: Machine> Model for Seat<M> {
    ghost use Rattle.held_cell.specs.Seats.{SeatState, IsAtRest, seat_state};

    ghost Value = { SeatState M.Base M.Event M.Reply };

    ghost view = { λ s. seat_state s.pass.table_id s.pass.me.0 };

    ghost invariant = { λ s. IsAtRest M.is_legal s.first s.count s.seen_len s.pass.me };
}

impl<M: Machine> Seat<M> {
    /// How many entries this seat has seen. It takes no step, and so sees no more.
    pub fn seen_len(&self) -> u32
        ensures length { result ≡ length self.now.seen }
        ensures legal { (base : M.Base) → self.now.base ≡ Some base
            → M.is_legal base self.now.seen }
        ensures own { HasOwn self.now }
    {
        self.seen_len
    }
}
