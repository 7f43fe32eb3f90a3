ghost use Rattle.std.specs.Prelude.{◌≡◌, ◌≤◌, [], IfOk};
ghost use Rattle.held_cell.specs.Seats.{HasOwn, IsSeatOf};

use crate::machine::Machine;
use crate::seat::Seat;
use crate::view::View;
use atomic_table::{Refused, Table, TableRule};
use std::alloc::{AllocError, Global};
use std::marker::{Model, PhantomData};
use std::snapshot::Snapshot;
use std::sync::atomic::AtomicU64;

// What the table is told as it is made.
#[derive(Drop)]
pub struct Start<M> {
    /// The machine.
    pub machine: Snapshot<M>,
    /// How many callers there are.
    pub callers: u32,
}

/// The rule of a cell: there is one legal journal, and each seat has seen a beginning of it.
pub struct OneHistory<M> {
    of: PhantomData<M>,
}

impl<M: Machine> TableRule<Option<M>, View<M::Base, M::Event, M::Reply>, Start<M>>
    for OneHistory<M> {
    ghost use Rattle.held_cell.specs.Rule.{IsKept};
    ghost use Rattle.held_cell.specs.Views.{opened};

    ghost holds = { λ start.
        IsKept M.base M.journal M.is_legal (M.base start.machine.value) start.callers };

    ghost first = { λ start. opened (M.base start.machine.value) start.callers };
}

/// A machine that threads share. One caller has it at a time.
///
/// Its word is twice the length of the journal, and one more while a caller has the machine.
/// Contracts see which cell it is, the base of its machine and the number of its callers; what it
/// holds at a moment no contract can say.
#[derive(Drop)]
pub struct HeldCell<M: Machine> {
    pub(crate) table: Table<
        Option<M>,
        View<M::Base, M::Event, M::Reply>,
        Start<M>,
        OneHistory<M>,
        Global,
    >,
    // How many callers sleep until the word changes.
    pub(crate) sleepers: AtomicU64,
    // How many calls were made since a caller went to sleep, while any slept.
    pub(crate) passed: AtomicU64,
}

impl<M: Machine> Model for HeldCell<M> {
    ghost use Rattle.std.specs.Prelude.{◌≡◌};
    ghost use Rattle.held_cell.specs.Seats.{CellState, cell_state};

    ghost Value = { CellState M.Base };

    ghost view = { λ c. cell_state c.table.shared.table_id
        (M.base c.table.shared.key.machine.value) c.table.shared.key.callers };

    ghost invariant = { λ c. (c.table.shared.table_id.words ≡ 1)
        × (c.table.shared.table_id.slots ≡ 1) };
}

impl<M: Machine> HeldCell<M> {
    /// A cell for callers 0 to `callers - 1`, of which there are 1 to 1,024, and the seat that has
    /// them all. Without memory the machine is dropped.
    pub fn start(
        alloc: Global,
        machine: M,
        callers: u32,
    ) -> Result<(HeldCell<M>, Seat<M>), AllocError>
    where
        M: Drop,
        requires empty { M.journal machine ≡ [] }
        requires callers { (1 ≤ callers) × (callers ≤ 1024) }
        ensures cell { IfOk result (λ r. (r.0.base ≡ M.base machine) × (r.0.callers ≡ callers)) }
        ensures seat { IfOk result (λ r. IsSeatOf r.0 r.1 × (r.1.first ≡ 0) × (r.1.count ≡ callers)
            × (r.1.seen ≡ []) × (r.1.own ≡ [])) }
        ensures own { IfOk result (λ r. HasOwn r.1) }
    {
        let start = Start {
            machine: Snapshot::of(&machine),
            callers,
        };
        let mut slots = Vec::with_capacity(alloc, 1)?;
        slots.push_reserved(Some(machine));
        match Table::new(alloc, &[0], slots, &start) {
            Ok((table, pass)) => Ok((
                HeldCell {
                    table,
                    sleepers: AtomicU64::new(0),
                    passed: AtomicU64::new(0),
                },
                Seat {
                    first: 0,
                    count: callers,
                    seen_len: 0,
                    pass,
                },
            )),
            Err(Refused { slots: _ }) => Err(AllocError),
        }
    }

    /// Takes the machine out, by the seat that has all callers. Its base is the one that the cell
    /// was started with, and its journal is all that the seat has seen. It takes no memory.
    pub fn close(self, seat: Seat<M>) -> M
        requires seat { IsSeatOf self seat }
        requires all { seat.count ≡ self.callers }
        ensures base { M.base result ≡ self.base }
        ensures journal { M.journal result ≡ seat.seen }
        ensures own { HasOwn seat × (seat.own ≡ seat.seen) }
        ensures legal { M.is_legal self.base seat.seen }
    {
        let HeldCell {
            table,
            sleepers: _,
            passed: _,
        } = self;
        let Seat {
            first: _,
            count: _,
            seen_len: _,
            pass,
        } = seat;
        let mut closed = table.close_with(pass);
        let machine = closed.take(0).unwrap();
        closed.free();
        machine
    }
}
