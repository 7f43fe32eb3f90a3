//! Room that is put by for entries of a set. Under `rt try --test --fail-alloc N` the Nth request
//! for memory is refused: where it comes behind the room that is put by, each of the events that
//! want no other is answered all the same.
use crate::makers::name;
use crate::set_core_calls::{Step, apply, is_text, set};
use crif_reader::simm_kinds::MarginSide;
use set_core::csa_terms::LotCurrency;
use set_core::side_events::SideEvent;
use set_core::{Event, Reply, SetState};
use std::process::Abort;

/// Answers an event beside the trades; `None` where there is no room or no memory for it.
fn answer(set: &mut SetState, side: MarginSide, event: SideEvent) -> Option<Reply> {
    set.apply(0, Event::OnSide { side, event }).ok()
}

fn put_lot(rt: &(impl Abort + AllocGlobal), set: &mut SetState, side: MarginSide) {
    let put = SideEvent::PutLot {
        lot: name(rt, "L1"),
        class: name(rt, "CASH"),
        value: 10_000,
        currency: LotCurrency::Same,
    };
    let accepted = is_accepted(answer(set, side, put));
    assert!(rt; accepted, "a lot is put");
}

/// A set with a lot on each side and an outstanding call of one, whose margins are known.
fn set_in_use(rt: &(impl Abort + AllocGlobal)) -> SetState {
    let mut set = set(rt);
    put_lot(rt, &mut set, MarginSide::Collect);
    put_lot(rt, &mut set, MarginSide::Post);
    drop(apply(rt, &mut set, Step::Submit("EUR", "1000")));
    drop(apply(rt, &mut set, Step::Call(MarginSide::Post)));
    set
}

fn is_accepted(reply: Option<Reply>) -> bool {
    matches!(reply, Some(Reply::Accepted))
}

/// Whether the reply is a margin of this total, in cents.
fn is_margin(reply: Option<Reply>, total: i128) -> bool {
    match reply {
        Some(Reply::Margin(margin)) => margin.parts().total.0 == total,
        _ => false,
    }
}

fn reserve(rt: &(impl Abort + AllocGlobal), set: &mut SetState, count: u32) {
    set.reserve_entries(count).ok().expect(rt, "memory");
    assert!(rt; set.spare() >= count);
}

#[test]
fn a_new_set_answers_four_events_in_room_that_was_put_by(rt: HostRuntime) {
    let mut set = set(&rt);
    reserve(&rt, &mut set, 4);
    let events = [
        (MarginSide::Collect, SideEvent::AskMargin, "MARGIN\t0.00"),
        (MarginSide::Post, SideEvent::AskMargin, "MARGIN\t0.00"),
        (
            MarginSide::Post,
            SideEvent::TakeLot {
                lot: name(&rt, "L1"),
            },
            "REFUSED\t5",
        ),
        (
            MarginSide::Collect,
            SideEvent::CloseCall { number: 1 },
            "REFUSED\t7",
        ),
    ];
    for (side, event, text) in events {
        let reply = answer(&mut set, side, event).expect(&rt, "room that was put by");
        assert!(rt; is_text(&rt, &reply, text), "{text}");
        drop(reply);
    }
    assert!(rt; set.entries() == 4);
    drop(set);
}

/// A lot of a side is marked and taken.
fn mark_and_take(rt: &(impl Abort + AllocGlobal), set: &mut SetState, side: MarginSide) {
    let mark = SideEvent::MarkLot {
        lot: name(rt, "L1"),
        value: 20_000,
    };
    let take = SideEvent::TakeLot {
        lot: name(rt, "L1"),
    };
    reserve(rt, set, 2);
    let is_marked = is_accepted(answer(set, side, mark));
    let is_taken = is_accepted(answer(set, side, take));
    assert!(rt; is_marked, "a lot is marked");
    assert!(rt; is_taken, "a lot is taken");
}

#[test]
fn lots_calls_and_known_margins_take_no_other_room(rt: HostRuntime) {
    let mut set = set_in_use(&rt);
    mark_and_take(&rt, &mut set, MarginSide::Collect);
    mark_and_take(&rt, &mut set, MarginSide::Post);
    reserve(&rt, &mut set, 3);
    let close = SideEvent::CloseCall { number: 1 };
    let is_collected = is_margin(
        answer(&mut set, MarginSide::Collect, SideEvent::AskMargin),
        740_000,
    );
    let is_posted = is_margin(
        answer(&mut set, MarginSide::Post, SideEvent::AskMargin),
        740_000,
    );
    let is_closed = is_accepted(answer(&mut set, MarginSide::Post, close));
    assert!(rt; is_collected, "the margin of the one side is told");
    assert!(rt; is_posted, "the margin of the other side is told");
    assert!(rt; is_closed, "a call is closed");
    assert!(rt; set.spare() == 0);
    drop(set);
}
