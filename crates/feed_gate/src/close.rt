//! Cells are closed: the seats of all callers are joined, and each set comes out with its journal.
//! It takes no memory.
ghost use Rattle.std.specs.Prelude.{◌≡◌, ◌+◌, ◌<◌, ◌≤◌, [], ◌∷◌, ◌++◌, length, map, All};
ghost use Rattle.std.specs.List.{AllZip};
ghost use Rattle.std.specs.Vec.{vec_len};
ghost use Rattle.std.specs.VecDeque.{deque_len, deque_capacity};
ghost use mathlib.Core.List.{IsPrefix};
ghost use Rattle.feed_events.specs.SetCore.HeldCell.Entries.{own_of};
ghost use Rattle.feed_events.specs.SetCore.HeldCell.Seats.{IsSeatOf, HasOwn};
ghost use Rattle.feed_gate.specs.Share.{AreCellRows, AreLasts, AreCut, Gathers, Closes, AreKeptIn};

use feed_events::set_core::SetState;
use feed_events::set_core::held_cell::{HeldCell, Seat};
use std::collections::VecDeque;

/// Closes the cells, of which each caller has a seat in its row. `room` has room for the sets, and
/// none of them.
pub(crate) fn close_sets(
    cells: Vec<HeldCell<SetState>>,
    rows: Vec<Vec<Seat<SetState>>>,
    room: VecDeque<SetState>,
) -> Vec<SetState>
    requires room { (room.items ≡ []) × (vec_len cells ≤ deque_capacity room) }
    requires some { 0 < vec_len rows }
    requires rows { AreCellRows cells.items 0 (map (λ row. row.items) rows.items) }
    requires callers { All (λ cell. cell.callers ≡ vec_len rows) cells.items }
    ensures sets { AllZip (Closes (vec_len rows)) cells.items result.items }
    ensures kept { AreKeptIn 0 (map (λ row. row.items) rows.items) result.items }
{
    let mut unclosed = cells;
    let mut left = rows;
    let mut sets = room;
    while let Some(cell) = unclosed.pop() {
        let seat = join_last(&cell, &mut left);
        let set = cell.close(seat);
        set.facts();
        sets.push_front_reserved(set);
    }
    Vec::from(sets)
}

/// Takes the last seat off each row, and joins them, which are those of all callers of the cell.
fn join_last(cell: &HeldCell<SetState>, rows: &mut [Vec<Seat<SetState>>]) -> Seat<SetState>
    requires some { 0 < length rows.old }
    requires lasts { AreLasts cell.now 0 (map (λ row. row.items) rows.old) }
    ensures cut { AreCut (map (λ row. row.items) rows.old) (map (λ row. row.items) rows.new) }
    ensures seat { IsSeatOf cell.now result × (result.first ≡ 0)
        × (result.count ≡ length rows.old) }
    ensures gathers { Gathers 0 (map (λ row. row.items) rows.old) result.seen }
{
    let (row, others) = rows.split_first_mut().unwrap();
    join_lasts(cell, last_seat(row), others)
}

/// Joins the last seats of the rows of the next callers to a seat of the callers before them.
fn join_lasts(
    cell: &HeldCell<SetState>,
    seat: Seat<SetState>,
    rows: &mut [Vec<Seat<SetState>>],
) -> Seat<SetState>
    requires seat { IsSeatOf cell.now seat × (seat.first ≡ 0) × HasOwn seat }
    requires lasts { AreLasts cell.now seat.count (map (λ row. row.items) rows.old) }
    ensures cut { AreCut (map (λ row. row.items) rows.old) (map (λ row. row.items) rows.new) }
    ensures seat { IsSeatOf cell.now result × (result.first ≡ 0)
        × (result.count ≡ seat.count + length rows.old) × HasOwn result }
    ensures begins { IsPrefix seat.seen result.seen }
    ensures own { own_of 0 seat.count result.seen ≡ seat.own }
    ensures gathers { Gathers seat.count (map (λ row. row.items) rows.old) result.seen }
{
    let Some((row, others)) = rows.split_first_mut() else {
        return seat;
    };
    let joined = cell.join(seat, last_seat(row));
    join_lasts(cell, joined, others)
}

/// Takes the last seat off a row, which has one.
fn last_seat(row: &mut Vec<Seat<SetState>>) -> Seat<SetState>
    requires { 0 < vec_len row.old }
    ensures { row.old.items ≡ row.new.items ++ result ∷ [] }
{
    row.pop().unwrap()
}
