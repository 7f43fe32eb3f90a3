//! A seat's range of callers, cut in two and put together.
ghost use Rattle.std.specs.Prelude.{◌≡◌, ◌+◌, ◌<◌};
ghost use Rattle.held_cell.specs.Seats.{HasOwn, IsSeatOf, IsJoined, left_seat, right_seat};

use crate::cell::HeldCell;
use crate::machine::Machine;
use crate::seat::Seat;
use crate::view::View;
use atomic_table::{Join, Split};
use std::marker::{Brand, PhantomData};

/// How many callers the first of two seats has. Each cut picks it.
pub trait Cut {
    ghost use Rattle.std.specs.Prelude.{ℕ};

    ghost left: { ℕ };
}

impl Cut for Brand {
    ghost left = { 0 };
}

/// How a seat is cut, at the number of `C`.
pub struct At<C> {
    of: PhantomData<C>,
}

impl<B, E, R, C: Cut> Split<View<B, E, R>> for At<C> {
    ghost use Rattle.held_cell.specs.Views.{left_of, right_of};

    ghost left = { λ v. left_of C.left v };

    ghost right = { λ v. right_of C.left v };
}

/// How two seats become one.
pub struct SideBySide;

impl<B, E, R> Join<View<B, E, R>> for SideBySide {
    ghost use Rattle.held_cell.specs.Views.{joined, spent};

    ghost both = { joined };

    ghost spent = { spent };
}

impl<M: Machine> HeldCell<M> {
    /// Two seats of one: the first has the first `left` callers, and the second the others. Each
    /// has seen what the one had, and has its own callers' entries of it. It takes no memory.
    pub fn split(&self, seat: Seat<M>, left: u32) -> (Seat<M>, Seat<M>)
        requires seat { IsSeatOf self.now seat }
        requires some { (0 < left) × (left < seat.count) }
        ensures left { result.0 ≡ left_seat left seat }
        ensures right { result.1 ≡ right_seat left seat }
        ensures own { HasOwn result.0 × HasOwn result.1 }
    {
        self.cut::<Brand>(seat, left)
    }

    // The same, where proofs know the number as `C`.
    fn cut<C: Cut>(&self, seat: Seat<M>, left: u32) -> (Seat<M>, Seat<M>)
        requires cut { left ≡ C.left }
        requires seat { IsSeatOf self.now seat }
        requires some { (0 < left) × (left < seat.count) }
        ensures left { result.0 ≡ left_seat left seat }
        ensures right { result.1 ≡ right_seat left seat }
        ensures own { HasOwn result.0 × HasOwn result.1 }
    {
        let Seat {
            first,
            count,
            seen_len,
            mut pass,
        } = seat;
        let others = self.table.shared.split_seat::<At<C>>(&mut pass);
        (
            Seat {
                first,
                count: left,
                seen_len,
                pass,
            },
            Seat {
                first: first + left,
                count: count - left,
                seen_len,
                pass: others,
            },
        )
    }

    /// One seat of two, where the callers of the second follow those of the first. Of what the two
    /// had seen, the shorter begins the longer, which is what it has seen; each caller's entries
    /// in that are those that its seat had. It takes no memory.
    pub fn join(&self, left: Seat<M>, right: Seat<M>) -> Seat<M>
        requires seats { IsSeatOf self.now left × IsSeatOf self.now right }
        requires beside { left.first + left.count ≡ right.first }
        ensures seat { IsSeatOf self.now result }
        ensures joined { IsJoined left right result }
        ensures own { HasOwn result }
    {
        let Seat {
            first,
            count,
            seen_len,
            mut pass,
        } = left;
        let Seat {
            first: _,
            count: more,
            seen_len: seen_right,
            pass: others,
        } = right;
        self.table.shared.join_seat::<SideBySide>(&mut pass, others);
        self.load(&mut pass);
        Seat {
            first,
            count: count + more,
            seen_len: seen_len.max(seen_right),
            pass,
        }
    }
}
