//! A demand for collateral: the call that is made of it.
ghost use Rattle.std.specs.Prelude.{◌≡◌, ◌+◌, ◌≤◌, ◌^◌, None, Some, if◌then◌else◌};
ghost use Rattle.std.specs.Prelude.{IfOk, OnErr, pos, ◌≤ℤ◌, unsigned_abs};
ghost use Rattle.collateral_ledger.specs.CsaTerms.Calendar.{due_day};
ghost use Rattle.csa_calls.specs.CallRule.{AmountUpTo};
ghost use Rattle.set_core.specs.Answer.{is_calling_day, is_calling_range, called_for, noted};
ghost use Rattle.collateral_ledger.specs.Holdings.{IsCallAmount};
ghost use Rattle.set_core.specs.Ledger.{with_call};
ghost use Rattle.set_core.specs.Live.{Caches, DoesOn, StaysKept, traded};
ghost use Rattle.side_events.specs.declared.side_event.SideEvent.TheVariants as asked;
ghost use Rattle.set_core.specs.declared.event.Event.TheVariants as events;
ghost use Rattle.set_core.specs.declared.reply.Reply.TheVariants as replies;

use crate::asking::ask_margin;
use crate::{CallNote, Refusal, Reply};
use bucket_cache::LiveMargin;
use collateral_ledger::Ledger;
use collateral_ledger::csa_terms::{Flow, Moment, SetTerms, due_day};
use collateral_ledger::simm_kinds::MarginSide;
use csa_calls::{CallAmount, call_amount, excess};
use std::alloc::{AllocError, Global};

/// What a demand finds: the day on which a call of it is due, the margin, and what is booked,
/// in cents.
#[derive(Clone, Copy)]
struct Demand {
    due: i32,
    margin: i128,
    booked: i128,
}

/// The greatest margin on which a call is made, and the greatest size of what is booked, in cents.
const MOST_CALLING: u128 = 400_000_000_000_000_000;

/// Answers a demand of a side at a moment, by its ledger. For want of memory the trades and the
/// ledger stand, and what is kept of the margin.
pub(crate) fn ask_call(
    alloc: Global,
    live: &mut LiveMargin,
    ledger: &mut Ledger,
    side: MarginSide,
    moment: Moment,
) -> Result<Reply, AllocError>
    requires { ledger.old.added ≤ 65535 }
    ensures does { IfOk result (λ reply. DoesOn side (traded live.old)
        (traded live.new) ledger.old ledger.new (asked.AskCall moment) reply) }
    ensures caches { IfOk result
        (Caches live.old live.new (events.OnSide side (asked.AskCall moment))) }
    ensures trades { OnErr result (traded live.new ≡ traded live.old) }
    ensures stays { OnErr result (StaysKept live.old live.new) }
    ensures collateral { OnErr result (ledger.new ≡ ledger.old) }
{
    let Some(due) = due(moment, ledger.terms()) else {
        return Ok(Reply::Refused(Refusal::DayRange(moment.day())));
    };
    let margin = ask_margin(alloc, live, side)?.total.0;
    let booked = ledger.booked();
    let demand = Demand {
        due,
        margin,
        booked,
    };
    call_on(ledger, demand)
}

/// The day on which a call at the moment is due; None where the moment's year isn't 1 to 9000.
fn due(moment: Moment, terms: &SetTerms) -> Option<i32>
    ensures { result
        ≡ (if is_calling_day moment.day then Some (due_day moment terms.now) else None) }
{
    due_day(moment, terms).ok()
}

/// Makes the call that a demand gives, where it gives one. For want of memory nothing changes.
fn call_on(ledger: &mut Ledger, demand: Demand) -> Result<Reply, AllocError>
    requires few { ledger.old.added ≤ 65535 }
    requires margin_from { pos 0 ≤ℤ demand.margin }
    requires margin_to { demand.margin ≤ℤ pos (10 ^ 21) }
    requires booked_in_range { unsigned_abs demand.booked ≤ 10 ^ 23 }
    ensures value { IfOk result (λ reply. reply ≡ noted ledger.old.added demand.due demand.margin
        demand.booked (called_for demand.margin demand.booked ledger.old.terms)) }
    ensures after { IfOk result (λ reply. ledger.new ≡ with_call ledger.old reply) }
    ensures unchanged { OnErr result (ledger.new ≡ ledger.old) }
{
    match called_for(demand.margin, demand.booked, ledger.terms()) {
        CallAmount::Delivery(amount) => add(ledger, demand, Flow::Delivery, amount),
        CallAmount::Return(amount) => add(ledger, demand, Flow::Return, amount),
        CallAmount::Nothing(excess) => Ok(Reply::NoCall {
            excess,
            margin: demand.margin,
            booked: demand.booked,
        }),
    }
}

/// What is called for; past the calling range nothing.
fn called_for(margin: i128, booked: i128, terms: &SetTerms) -> CallAmount
    requires margin_from { pos 0 ≤ℤ margin }
    requires margin_to { margin ≤ℤ pos (10 ^ 21) }
    requires booked_in_range { unsigned_abs booked ≤ 10 ^ 23 }
    ensures value { result ≡ called_for margin booked terms.now }
    ensures amount { AmountUpTo (pos (10 ^ 18)) result }
{
    if is_calling_range(margin, booked) {
        call_amount(margin, booked, terms)
    } else {
        CallAmount::Nothing(excess(margin, booked, terms))
    }
}

fn is_calling_range(margin: i128, booked: i128) -> bool
    ensures { result ≡ is_calling_range margin booked }
{
    margin <= MOST_CALLING as i128 && booked.unsigned_abs() <= MOST_CALLING
}

/// Adds a call to the ledger. For want of memory nothing changes.
fn add(ledger: &mut Ledger, demand: Demand, flow: Flow, amount: i64) -> Result<Reply, AllocError>
    requires few { ledger.old.added ≤ 65535 }
    requires amount { IsCallAmount amount }
    ensures value { IfOk result (λ reply. reply ≡ replies.Called (record {
      number = ledger.old.added + 1;
      flow = flow;
      amount = amount;
      due = demand.due;
      margin = demand.margin;
      booked = demand.booked;
    })) }
    ensures after { IfOk result (λ reply. ledger.new ≡ with_call ledger.old reply) }
    ensures unchanged { OnErr result (ledger.new ≡ ledger.old) }
{
    let number = ledger.add_call(flow, amount)?;
    Ok(Reply::Called(CallNote {
        number,
        flow,
        amount,
        due: demand.due,
        margin: demand.margin,
        booked: demand.booked,
    }))
}
