ghost use Rattle.std.specs.Prelude.{◌≡◌, ◌<◌};
ghost use Rattle.std.specs.Thread.{IsSync};
ghost use Rattle.held_cell.specs.Seats.{IsSeatOf};

use crate::multiplier::{Gate, Multiplier, WEIGHT, turn_until};
use held_cell::{Entry, HeldCell, Machine, Outcome, Seat, TryOutcome};
use std::process::Abort;
use std::sync::atomic::Ordering;
use std::sync::{Arc, Wait};
use std::test::Fail;
use std::thread::{Threads, join};

fn crosses<T: Send + Sync>(_value: &T) {}

// Of any machine that may go to another thread, the cell and its seats may go there and be shared.
fn both_cross<M: Machine + Send + Sync>(cell: &HeldCell<M>, seat: &Seat<M>)
where
    M::Base: Sync,
    M::Event: Sync,
    M::Reply: Sync,
{
    crosses(cell);
    crosses(seat);
}

type Cell = HeldCell<Multiplier>;

type Caller = Seat<Multiplier>;

const CALLS: u32 = 1_000;

// Whether these are the callers and events of a machine's entries, in order.
fn has_calls(machine: &Multiplier, expected: &[(u32, u32)]) -> bool {
    let calls = machine.calls.as_slice();
    let mut same = calls.len() == expected.len();
    for (entry, (caller, event)) in calls.iter().zip(expected) {
        same = same && entry.caller == *caller && entry.event == *event;
    }
    same
}

// A call, which is to be done: the reply, and the length of the journal after it.
fn done(rt: &(impl Abort + Wait), cell: &Cell, seat: &mut Caller, event: u32) -> (u64, u32)
    requires { IsSeatOf cell.now seat.old }
    ensures cell { IsSeatOf cell.now seat.new }
    ensures callers { (seat.new.first ≡ seat.old.first) × (seat.new.count ≡ seat.old.count) }
{
    match cell.call(rt, seat, event) {
        Outcome::Done { reply, entries } => (reply, entries),
        _ => panic!(rt; "the machine has room"),
    }
}

#[test]
fn joined_seats_have_each_call_once(rt: HostRuntime) -> Result<(), Fail> {
    let (cell, seat) = HeldCell::start(rt.alloc(), Multiplier::new(rt.alloc(), 3, None), 3)?;
    assert!(rt; seat.seen_len() == 0);
    let (mut first, mut others) = cell.split(seat, 1);
    assert!(rt; done(&rt, &cell, &mut first, 7) == (21, 1));
    assert!(rt; done(&rt, &cell, &mut others, 11) == (33, 2));
    assert!(rt; done(&rt, &cell, &mut others, 13) == (39, 3));
    assert!(rt; first.seen_len() == 1);
    let mut all = cell.join(first, others);
    assert!(rt; all.seen_len() == 3);
    match cell.call(&rt, &mut all, WEIGHT) {
        Outcome::Full {
            entries,
            weight,
            event,
        } => assert!(rt; (entries, weight, event) == (3, 31, WEIGHT)),
        _ => panic!(rt; "the machine takes no more"),
    }
    let machine = cell.close(all);
    assert!(rt; has_calls(&machine, &[(0, 7), (1, 11), (1, 13)]));
    drop(machine);
    Ok(())
}

fn call_once(rt: &(impl Abort + Wait), cell: &Cell, mut seat: Caller) -> Caller
    requires { IsSeatOf cell.now seat }
    ensures cell { IsSeatOf cell.now result }
    ensures callers { (result.first ≡ seat.first) × (result.count ≡ seat.count) }
{
    assert!(rt; done(rt, cell, &mut seat, 7) == (14, 1));
    seat
}

// Tries while another caller's step waits at the gate, and then opens it.
fn try_beside(rt: &impl Abort, gate: &Gate, cell: &Cell, mut seat: Caller) -> Caller
    requires { IsSeatOf cell.now seat }
    ensures cell { IsSeatOf cell.now result }
    ensures callers { (result.first ≡ seat.first) × (result.count ≡ seat.count) }
{
    assert!(rt; turn_until(&gate.reached), "the step comes to its gate");
    match cell.try_call(&mut seat, 5) {
        TryOutcome::Busy {
            loaded,
            found,
            event,
        } => assert!(rt; (loaded, found, event) == (1, 1, 5)),
        TryOutcome::Did(_) => panic!(rt; "the other call is in its step"),
    }
    assert!(rt; seat.seen_len() == 0);
    gate.open.store(true, Ordering::SeqCst);
    seat
}

#[test]
fn a_taken_cell_is_busy(rt: HostRuntime) -> Result<(), Fail> {
    let gate = Arc::new(rt.alloc(), Gate::shut())?;
    let machine = Multiplier::new(rt.alloc(), 2, Some(Arc::try_clone(&gate)?));
    let (cell, seat) = HeldCell::start(rt.alloc(), machine, 2)?;
    let (first, second) = cell.split(seat, 1);
    let (first, mut second) = join(
        &rt,
        || -> Caller
            requires { IsSeatOf cell first }
            ensures { IsSeatOf cell result × (result.first ≡ first.first)
                × (result.count ≡ first.count) }
        { call_once(&rt, &cell, first) },
        || -> Caller
            requires { IsSeatOf cell second }
            ensures { IsSeatOf cell result × (result.first ≡ second.first)
                × (result.count ≡ second.count) }
        { try_beside(&rt, &gate, &cell, second) },
    );
    match cell.try_call(&mut second, 5) {
        TryOutcome::Did(Outcome::Done { reply, entries }) => {
            assert!(rt; (reply, entries) == (10, 2))
        }
        _ => panic!(rt; "the cell is free"),
    }
    let all = cell.join(first, second);
    let machine = cell.close(all);
    assert!(rt; has_calls(&machine, &[(0, 7), (1, 5)]));
    drop(machine);
    Ok(())
}

// A thousand calls, with the events 0 to 999.
fn call_many(rt: &(impl Abort + Wait), cell: &Cell, mut seat: Caller) -> Caller
    requires { IsSeatOf cell.now seat }
    ensures cell { IsSeatOf cell.now result }
    ensures callers { (result.first ≡ seat.first) × (result.count ≡ seat.count) }
{
    for event in 0..CALLS {
        done(rt, cell, &mut seat, event);
    }
    seat
}

// Each caller of the seat calls in a thread of its own.
fn call_by_each<R: Threads + Wait + Abort + Sync>(
    rt: &R,
    cell: &Cell,
    seat: Caller,
    callers: u32,
) -> Caller
    requires seat { IsSeatOf cell.now seat }
    requires callers { (seat.count ≡ callers) × (0 < callers) }
    ensures cell { IsSeatOf cell.now result }
    ensures callers { (result.first ≡ seat.first) × (result.count ≡ seat.count) }
{
    if callers == 1 {
        return call_many(rt, cell, seat);
    }
    let half = callers / 2;
    let rest = callers - half;
    let (left, right) = cell.split(seat, half);
    let (left, right) = join(
        rt,
        || -> Caller
            requires { IsSync R.row × IsSeatOf cell.now left × (left.count ≡ half) × (0 < half) }
            ensures { IsSeatOf cell.entry.now result × (result.first ≡ left.first)
                × (result.count ≡ left.count) }
        { call_by_each(rt, cell, left, half) },
        || -> Caller
            requires { IsSync R.row × IsSeatOf cell.now right × (right.count ≡ rest) × (0 < rest) }
            ensures { IsSeatOf cell.entry.now result × (result.first ≡ right.first)
                × (result.count ≡ right.count) }
        { call_by_each(rt, cell, right, rest) },
    );
    cell.join(left, right)
}

/// Whether a journal has the events 0 to 999 of each of eight callers, each caller's in order, and
/// no other.
fn has_each_call_once(calls: &[Entry<u32, u64>]) -> bool {
    let mut next = [0u32; 8];
    for entry in calls {
        match next.get_mut(entry.caller as usize) {
            Some(event) if *event == entry.event => *event = entry.event.saturating_add(1),
            _ => return false,
        }
    }
    next == [CALLS; 8]
}

#[test]
fn eight_threads_lose_and_double_no_call(rt: HostRuntime) -> Result<(), Fail> {
    let (cell, seat) = HeldCell::start(rt.alloc(), Multiplier::new(rt.alloc(), 5, None), 8)?;
    let all = call_by_each(&rt, &cell, seat, 8);
    assert!(rt; all.seen_len() == 8 * CALLS);
    let machine = cell.close(all);
    assert!(rt; has_each_call_once(machine.calls.as_slice()));
    drop(machine);
    Ok(())
}
