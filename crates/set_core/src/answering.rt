//! What a live margin and the ledgers make of an event, each kind by a function of its own.
ghost use Rattle.std.specs.Prelude.{◌≡◌, ◌+◌, ◌<◌, ◌≤◌, true, false, IfOk, IsErr, IsOk, OnErr};
ghost use Rattle.collateral_ledger.specs.SimmKinds.declared.margin_side.MarginSide.{MarginSide};
ghost use Rattle.set_core.specs.Events.{if_side};
ghost use Rattle.set_core.specs.Ledger.{ledger_on};
ghost use Rattle.set_core.specs.Reserved.{is_at_hand, LeavesRoom};
ghost use Rattle.set_core.specs.Live.{BookReplies, Caches, Does, DoesOn, StaysKept, traded};
ghost use Rattle.set_core.specs.declared.ledgers.Ledgers.{Ledgers};
ghost use Rattle.set_core.specs.declared.event.Event.TheVariants as events;

use crate::asking::ask_margin;
use crate::calling::ask_call;
use crate::collateral::{close, mark, put, take};
use crate::ledgers::Ledgers;
use crate::put_by::PutBy;
use crate::{Event, Refusal, Reply, SharedMargin};
use bucket_cache::{BookFault, LiveMargin, WithdrawFault};
use collateral_ledger::Ledger;
use collateral_ledger::simm_kinds::{Batch, MarginSide, Name};
use params_file::ParamText;
use side_events::SideEvent;
use std::alloc::{AllocError, Global};

/// Answers an event as `answer` does, and gives its reply twice: to the caller, and to the journal.
pub(crate) fn answer_twice(
    alloc: Global,
    live: &mut LiveMargin,
    ledgers: &mut Ledgers,
    put_by: &mut PutBy,
    event: &Event,
) -> Result<(Reply, Reply), AllocError>
    requires { (side : MarginSide) → (ledger_on side ledgers.old).added ≤ 65535 }
    ensures same { IfOk result (λ both. both.1 ≡ both.0) }
    ensures does { IfOk result (λ both.
        Does (traded live.old) (traded live.new) ledgers.old ledgers.new event.now both.0) }
    ensures caches { IfOk result (λ both. Caches live.old live.new event.now both.0) }
    ensures trades { OnErr result (traded live.new ≡ traded live.old) }
    ensures stays { OnErr result (StaysKept live.old live.new) }
    ensures collateral { OnErr result (ledgers.new ≡ ledgers.old) }

    // a margin takes room that was put by where there is no memory for it
    ensures room { 1 < put_by.old
        → if_side (is_at_hand live.old.is_fresh) false event.now ≡ true → IsOk result }
    ensures taken { put_by.old ≤ put_by.new + 2 }
    ensures none_taken { OnErr result (1 < put_by.old → put_by.new ≡ put_by.old) }
{
    let reply = answer(alloc, live, ledgers, put_by, event)?;
    let kept = reply.share(put_by)?;
    Ok((reply, kept))
}

/// Answers an event, and changes the live margin and the ledger of its side as its reply says. For
/// want of memory the trades and the ledgers stand, and what is kept of the margin.
fn answer(
    alloc: Global,
    live: &mut LiveMargin,
    ledgers: &mut Ledgers,
    put_by: &mut PutBy,
    event: &Event,
) -> Result<Reply, AllocError>
    requires { (side : MarginSide) → (ledger_on side ledgers.old).added ≤ 65535 }
    ensures does { IfOk result (λ reply.
        Does (traded live.old) (traded live.new) ledgers.old ledgers.new event.now reply) }
    ensures caches { IfOk result (Caches live.old live.new event.now) }
    ensures trades { OnErr result (traded live.new ≡ traded live.old) }
    ensures stays { OnErr result (StaysKept live.old live.new) }
    ensures collateral { OnErr result (ledgers.new ≡ ledgers.old) }

    ensures room { 0 < put_by.old
        → if_side (is_at_hand live.old.is_fresh) false event.now ≡ true → IsOk result }
    ensures left { LeavesRoom 1 put_by.old put_by.new result }
{
    match event {
        Event::Submit(batch) => submit(alloc, live, batch),
        Event::Withdraw(names) => withdraw(alloc, live, names.as_slice()),
        Event::Tables(text) => replace_tables(alloc, live, text),
        Event::OnSide { side, event } => {
            answer_side(alloc, live, ledgers.on_mut(*side), put_by, *side, event)
        }
    }
}

/// Answers an event of a side by its ledger.
fn answer_side(
    alloc: Global,
    live: &mut LiveMargin,
    ledger: &mut Ledger,
    put_by: &mut PutBy,
    side: MarginSide,
    event: &SideEvent,
) -> Result<Reply, AllocError>
    requires { ledger.old.added ≤ 65535 }
    ensures does { IfOk result (λ reply.
        DoesOn side (traded live.old) (traded live.new) ledger.old ledger.new event.now reply) }
    ensures caches { IfOk result (Caches live.old live.new (events.OnSide side event.now)) }
    ensures trades { OnErr result (traded live.new ≡ traded live.old) }
    ensures stays { OnErr result (StaysKept live.old live.new) }
    ensures collateral { OnErr result (ledger.new ≡ ledger.old) }

    ensures room { 0 < put_by.old → is_at_hand live.old.is_fresh event.now ≡ true → IsOk result }
    ensures left { LeavesRoom 1 put_by.old put_by.new result }
{
    match event {
        SideEvent::PutLot {
            lot,
            class,
            value,
            currency,
        } => put(alloc, ledger, lot, class, *value, *currency),
        SideEvent::TakeLot { lot } => take(ledger, lot),
        SideEvent::MarkLot { lot, value } => mark(ledger, lot, *value),
        SideEvent::CloseCall { number } => close(ledger, *number),
        SideEvent::AskMargin => {
            let parts = ask_margin(alloc, live, side)?;
            Ok(Reply::Margin(SharedMargin::make(alloc, put_by, parts)?))
        }
        SideEvent::AskCall { moment } => ask_call(alloc, live, ledger, side, *moment),
    }
}

fn submit(alloc: Global, live: &mut LiveMargin, batch: &Batch) -> Result<Reply, AllocError>
    ensures does { IfOk result (λ reply. (h : Ledgers)
        → Does (traded live.old) (traded live.new) h h (events.Submit batch.now) reply) }
    ensures caches { IfOk result (Caches live.old live.new (events.Submit batch.now)) }
    ensures unchanged { OnErr result (live.new ≡ live.old) }
{
    let change = live.submit(alloc, batch);
    book_reply(change)
}

fn withdraw(alloc: Global, live: &mut LiveMargin, names: &[Name]) -> Result<Reply, AllocError>
    ensures does { IfOk result (λ reply. (h : Ledgers)
        → Does (traded live.old) (traded live.new) h h (events.Withdraw names.now) reply) }
    ensures caches { IfOk result (Caches live.old live.new (events.Withdraw names.now)) }
    ensures unchanged { OnErr result (live.new ≡ live.old) }
{
    match live.withdraw(alloc, names) {
        Ok(()) => Ok(Reply::Accepted),
        Err(WithdrawFault::UnknownTrade { place }) => {
            Ok(Reply::Refused(Refusal::UnknownTrade { place }))
        }
        Err(WithdrawFault::Memory) => Err(AllocError),
    }
}

fn replace_tables(
    alloc: Global,
    live: &mut LiveMargin,
    text: &ParamText,
) -> Result<Reply, AllocError>
    ensures does { IfOk result (λ reply. (h : Ledgers)
        → Does (traded live.old) (traded live.new) h h (events.Tables text.now) reply) }
    ensures caches { IfOk result (Caches live.old live.new (events.Tables text.now)) }
    ensures unchanged { OnErr result (live.new ≡ live.old) }
{
    let change = live.replace_tables(alloc, text.params());
    book_reply(change)
}

/// The reply to a change of the book, or of its tables, that was made or refused.
fn book_reply(change: Result<(), BookFault>) -> Result<Reply, AllocError>
    ensures replies { IfOk result (BookReplies change) }
    ensures refused { OnErr result (IsErr change) }
{
    match change {
        Ok(()) => Ok(Reply::Accepted),
        Err(BookFault::BucketUnknown { trade, row }) => {
            Ok(Reply::Refused(Refusal::BucketUnknown { trade, row }))
        }
        Err(BookFault::Range(fault)) => Ok(Reply::Refused(Refusal::Range(fault))),
        Err(BookFault::Memory) => Err(AllocError),
    }
}
