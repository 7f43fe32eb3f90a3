//! Steps on a set, their replies as texts, and what it keeps then.
use crate::makers::{batch, both_terms, name, params};
use crif_reader::mh_units::Text;
use crif_reader::simm_kinds::{Listed, MarginSide};
use set_core::csa_terms::Moment;
use set_core::side_events::SideEvent;
use set_core::{Event, Reply, SetState, reply_text};
use std::process::Abort;

pub fn set(rt: &(impl Abort + AllocGlobal)) -> SetState {
    SetState::new(rt.alloc(), params(rt), both_terms(rt))
        .ok()
        .expect(rt, "memory")
}

/// What is done to a set.
#[derive(Clone, Copy)]
pub enum Step {
    /// A batch of a trade T1 with one row of this currency and amount.
    Submit(&'static str, &'static str),
    /// A withdrawal of one name.
    Withdraw(&'static str),
    /// The margin of a side.
    Ask(MarginSide),
    /// A demand of a side on a Friday morning.
    Call(MarginSide),
}

pub fn other_side(side: MarginSide) -> MarginSide {
    match side {
        MarginSide::Collect => MarginSide::Post,
        MarginSide::Post => MarginSide::Collect,
    }
}

/// A demand on a Friday morning.
pub fn demand(rt: &impl Abort) -> SideEvent {
    SideEvent::AskCall {
        moment: Moment::read(b"2024-03-01T10:00").expect(rt, "a moment"),
    }
}

fn event(rt: &(impl Abort + AllocGlobal), step: Step) -> Event {
    match step {
        Step::Submit(currency, amount) => Event::Submit(batch(rt, "T1", currency, amount)),
        Step::Withdraw(trade) => withdrawal(rt, trade),
        Step::Ask(side) => Event::OnSide {
            side,
            event: SideEvent::AskMargin,
        },
        Step::Call(side) => Event::OnSide {
            side,
            event: demand(rt),
        },
    }
}

fn withdrawal(rt: &(impl Abort + AllocGlobal), trade: &str) -> Event {
    let mut names = Listed::new(rt.alloc());
    names.push(name(rt, trade)).ok().expect(rt, "memory");
    Event::Withdraw(names)
}

pub fn apply(rt: &(impl Abort + AllocGlobal), set: &mut SetState, step: Step) -> Reply {
    let event = event(rt, step);
    set.apply(2, event).ok().expect(rt, "room and memory")
}

/// A set's reply to an event, in printed text.
pub fn reply_to(rt: &(impl Abort + AllocGlobal), set: &mut SetState, event: Event) -> Text {
    let reply = set.apply(0, event).ok().expect(rt, "room and memory");
    reply_text(rt.alloc(), &reply).ok().expect(rt, "memory")
}

pub fn is_text(rt: &(impl Abort + AllocGlobal), reply: &Reply, text: &str) -> bool {
    let printed = reply_text(rt.alloc(), reply).ok().expect(rt, "memory");
    printed.as_slice() == text.as_bytes()
}

/// Steps, their replies in printed text, how many values of buckets are not kept then, and whether
/// the margin is known.
static STEPS: [(Step, &str, u32, bool); 9] = [
    (Step::Submit("EUR", "1000"), "OK", 1, false),
    (Step::Withdraw("T9"), "REFUSED\t1\t1", 1, false),
    (Step::Ask(MarginSide::Post), "MARGIN\t7400.00", 0, true),
    (Step::Ask(MarginSide::Collect), "MARGIN\t7400.00", 0, true),
    (Step::Withdraw("T9"), "REFUSED\t1\t1", 0, true),
    (
        Step::Submit("BRL", "10000000000.01"),
        "REFUSED\t3\t4\t10000000000010\t10000000000000",
        0,
        true,
    ),
    (Step::Submit("EUR", "2000"), "OK", 1, false),
    (
        Step::Call(MarginSide::Collect),
        "DELIVERY\t1\t9800.00\t2024-03-04\t14800.00\t0.00",
        0,
        true,
    ),
    (
        Step::Call(MarginSide::Post),
        "DELIVERY\t1\t13800.00\t2024-03-04\t14800.00\t0.00",
        0,
        true,
    ),
];

/// Whether so many values of buckets are not kept, and the margin is known or not.
fn keeps(set: &SetState, dirty: u32, fresh: bool) -> bool {
    set.live().dirty_count() == dirty && set.live().is_fresh() == fresh
}

#[test]
fn a_question_keeps_all_and_a_refusal_leaves_it(rt: HostRuntime) {
    let mut set = set(&rt);
    for (step, text, dirty, fresh) in &STEPS {
        let reply = apply(&rt, &mut set, *step);
        assert!(rt; is_text(&rt, &reply, text), "{text}");
        assert!(rt; keeps(&set, *dirty, *fresh), "{text}");
        drop(reply);
    }
    drop(set);
}
