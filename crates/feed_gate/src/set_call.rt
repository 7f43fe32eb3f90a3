//! A call on the set of a message, by the feed's seat of it.
ghost use Rattle.std.specs.Prelude.{IfOk, OnErr, length};
ghost use Rattle.feed_events.specs.SetCore.HeldCell.Seats.{IsSeatOf};
ghost use Rattle.feed_gate.specs.Seats.{AreSeats, AllSee, Sees};
ghost use Rattle.feed_gate.specs.Met.{MayBeFull, CallsSeat, MeetsFate, IsWithin};

use crate::RefusedMessage;
use crate::fate::{Call, Fate};
use feed_events::set_core::SetState;
use feed_events::set_core::held_cell::{HeldCell, Outcome, Seat};
use feed_runs::Gate;
use std::alloc::AllocError;
use std::sync::Wait;

/// Makes the call that a message comes to, between the two calls of the gate, and tells why there
/// is no entry of it, where there is none. For want of memory there is none.
pub(crate) fn make_call<R: Wait, G: Gate>(
    rt: &R,
    cells: &[HeldCell<SetState>],
    gate: &G,
    number: u32,
    seats: &mut [Seat<SetState>],
    fate: Fate,
) -> Result<Option<RefusedMessage>, AllocError>
    requires seats { AreSeats cells.now seats.old }
    requires within { IsWithin (length cells.now) fate }
    ensures meets { IfOk result (λ why. MeetsFate fate why seats.old seats.new) }
    ensures sees { OnErr result (AllSee seats.old seats.new) }
{
    match fate {
        Fate::Calls(call) => {
            let set = call.place;
            let place = set as usize;
            gate.before_call(number, set);
            let answer = call_set(rt, &cells[place], &mut seats[place], call);
            gate.after_call(number, set);
            answer
        }
        Fate::Refused(why) => Ok(Some(why)),
    }
}

/// Calls a set in the name of the seat, and waits for it.
fn call_set<R: Wait>(
    rt: &R,
    cell: &HeldCell<SetState>,
    seat: &mut Seat<SetState>,
    call: Call,
) -> Result<Option<RefusedMessage>, AllocError>
    requires { IsSeatOf cell.now seat.old }
    ensures may { IfOk result (λ why. MayBeFull call why) }
    ensures calls { IfOk result (λ why. CallsSeat call.event why seat.old seat.new) }
    ensures sees { OnErr result (Sees seat.old seat.new) }
{
    let Call { line, place, event } = call;
    match cell.call(rt, seat, event) {
        Outcome::Done { .. } => Ok(None),
        Outcome::Full {
            entries,
            weight,
            ..
        } => Ok(Some(RefusedMessage::Full {
            line,
            set: place,
            entries,
            rows: weight,
        })),
        Outcome::Memory { .. } => Err(AllocError),
    }
}
