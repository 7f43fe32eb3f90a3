//! Netting sets that callers share: a cell for each set, and a seat of each cell for every caller.
ghost use Rattle.std.specs.Prelude.{◌≡◌, ◌<◌, ◌≤◌, [], length, map, All, IfOk};
ghost use Rattle.std.specs.List.{AllZip};
ghost use Rattle.feed_events.specs.SetCore.HeldCell.Seats.{IsSeatOf, left_seat, right_seat};
ghost use Rattle.feed_gate.specs.Share.{Starts, IsUnused, AreRows};

use feed_events::crif_reader::simm_kinds::Name;
use feed_events::set_core::SetState;
use feed_events::set_core::held_cell::{HeldCell, Seat};
use std::alloc::{AllocError, Global};
use std::collections::VecDeque;

/// Sets that callers share.
pub(crate) struct Shared {
    /// The names of the sets, in their order.
    pub names: Vec<Name>,
    /// A cell for each set.
    pub cells: Vec<HeldCell<SetState>>,
    /// For each caller a seat of each cell.
    pub rows: Vec<Vec<Seat<SetState>>>,
}

/// Shares sets among callers 0 to `callers - 1`. The only error is want of memory.
pub(crate) fn share_sets(
    alloc: Global,
    sets: Vec<SetState>,
    callers: u32,
) -> Result<Shared, AllocError>
    requires empty { All (λ s. s.journal ≡ []) sets.items }
    requires callers { (1 ≤ callers) × (callers ≤ 1024) }
    ensures names { IfOk result (λ shared.
        shared.names.items ≡ map (λ s. s.terms.collect.name) sets.items) }
    ensures cells { IfOk result (λ shared. AllZip (Starts callers) sets.items shared.cells.items) }
    ensures count { IfOk result (λ shared. length shared.rows.items ≡ callers) }
    ensures rows { IfOk result (λ shared.
        AreRows shared.cells.items 0 (map (λ row. row.items) shared.rows.items)) }
{
    let names = names_of(alloc, &sets)?;
    let Started { cells, seats } = start_cells(alloc, sets, callers)?;
    let rows = share_seats(alloc, &cells, seats, callers)?;
    Ok(Shared { names, cells, rows })
}

fn names_of(alloc: Global, sets: &[SetState]) -> Result<Vec<Name>, AllocError>
    ensures { IfOk result (λ names. names.items ≡ map (λ s. s.terms.collect.name) sets.now) }
{
    let mut names = Vec::with_capacity(alloc, sets.len())?;
    for set in sets {
        names.push(set.name().copy(alloc)?)?;
    }
    Ok(names)
}

/// A cell for each set, and the seat of it that has all callers.
struct Started {
    cells: Vec<HeldCell<SetState>>,
    seats: Vec<Seat<SetState>>,
}

fn start_cells(alloc: Global, sets: Vec<SetState>, callers: u32) -> Result<Started, AllocError>
    requires empty { All (λ s. s.journal ≡ []) sets.items }
    requires callers { (1 ≤ callers) × (callers ≤ 1024) }
    ensures cells { IfOk result (λ started.
        AllZip (Starts callers) sets.items started.cells.items) }
    ensures seats { IfOk result (λ started.
        AllZip (IsUnused 0 callers) started.cells.items started.seats.items) }
{
    let mut cells = Vec::with_capacity(alloc, sets.len())?;
    let mut seats = Vec::with_capacity(alloc, sets.len())?;
    let mut waiting = VecDeque::from_vec(sets);
    while let Some(set) = waiting.pop_front() {
        let (cell, seat) = HeldCell::start(alloc, set, callers)?;
        cells.push(cell)?;
        seats.push(seat)?;
    }
    Ok(Started { cells, seats })
}

/// A seat of each cell for every caller, of the seats that have all callers.
fn share_seats(
    alloc: Global,
    cells: &[HeldCell<SetState>],
    seats: Vec<Seat<SetState>>,
    callers: u32,
) -> Result<Vec<Vec<Seat<SetState>>>, AllocError>
    requires callers { 1 ≤ callers }
    requires seats { AllZip (IsUnused 0 callers) cells.now seats.items }
    ensures count { IfOk result (λ rows. length rows.items ≡ callers) }
    ensures rows { IfOk result (λ rows. AreRows cells.now 0 (map (λ row. row.items) rows.items)) }
{
    let mut rows = Vec::with_capacity(alloc, callers as usize)?;
    let mut rest = seats;
    for _caller in 0..callers - 1 {
        let SplitSeats { first, others } = split_first(alloc, cells, rest)?;
        rows.push(first)?;
        rest = others;
    }
    rows.push(rest)?;
    Ok(rows)
}

/// Seats of the first caller alone, and seats of the callers behind it.
struct SplitSeats {
    first: Vec<Seat<SetState>>,
    others: Vec<Seat<SetState>>,
}

/// Splits the first caller off each seat.
fn split_first(
    alloc: Global,
    cells: &[HeldCell<SetState>],
    seats: Vec<Seat<SetState>>,
) -> Result<SplitSeats, AllocError>
    requires { AllZip (λ cell seat. IsSeatOf cell seat × (1 < seat.count)) cells.now seats.items }
    ensures first { IfOk result (λ split. split.first.items ≡ map (left_seat 1) seats.items) }
    ensures others { IfOk result (λ split. split.others.items ≡ map (right_seat 1) seats.items) }
{
    let mut first = Vec::with_capacity(alloc, cells.len())?;
    let mut others = Vec::with_capacity(alloc, cells.len())?;
    let mut waiting = VecDeque::from_vec(seats);
    for cell in cells {
        let (one, rest) = cell.split(waiting.pop_front().unwrap(), 1);
        first.push(one)?;
        others.push(rest)?;
    }
    Ok(SplitSeats { first, others })
}
