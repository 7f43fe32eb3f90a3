//! Trades, tables, lots, calls and questions at random on one set. On each side it answers as a
//! set of its own does: what it posts is what a set collects whose rows are all negated, by the
//! terms by which the first one posts.
use crate::expected_book::Trade;
use crate::makers::{COLLECTED, POSTED, both_terms, name, params, read_tables, terms_of};
use crate::random::Random;
use crate::random_requests::{Request, batch_of, event, random_change};
use crate::set_core_calls::{demand, other_side, reply_to};
use crif_reader::simm_kinds::{MarginSide, Name};
use params_file::ParamText;
use set_core::csa_terms::{BothTerms, LotCurrency};
use set_core::side_events::SideEvent;
use set_core::{Event, SetState};
use std::process::Abort;

/// One set, and for each of its sides one that collects.
#[derive(Drop)]
struct Sets {
    both: SetState,
    collecting: SetState,
    posting: SetState,
}

fn set_by(rt: &(impl Abort + AllocGlobal), terms: BothTerms) -> SetState {
    SetState::new(rt.alloc(), params(rt), terms)
        .ok()
        .expect(rt, "memory")
}

fn new_sets(rt: &(impl Abort + AllocGlobal)) -> Sets {
    Sets {
        both: set_by(rt, both_terms(rt)),
        collecting: set_by(rt, terms_of(rt, COLLECTED)),
        posting: set_by(rt, terms_of(rt, POSTED)),
    }
}

const LOTS: [&str; 3] = ["L1", "L2", "L3"];

/// One that both sides take, one that is posted alone, and one that neither takes.
const CLASSES: [&str; 3] = ["CASH", "BOND", "GOLD"];

fn random_lot(rt: &(impl Abort + AllocGlobal), random: &mut Random) -> Name {
    name(rt, random.one_of(rt, &LOTS))
}

fn random_put(rt: &(impl Abort + AllocGlobal), random: &mut Random) -> SideEvent {
    SideEvent::PutLot {
        lot: random_lot(rt, random),
        class: name(rt, random.one_of(rt, &CLASSES)),
        value: i64::from(random.below(4_000_000_000)),
        currency: random.one_of(rt, &[LotCurrency::Same, LotCurrency::Other]),
    }
}

/// What is asked of a side, about its lots, its calls or its margin.
fn random_side_event(rt: &(impl Abort + AllocGlobal), random: &mut Random) -> SideEvent {
    match random.below(6) {
        0 => random_put(rt, random),
        1 => SideEvent::MarkLot {
            lot: random_lot(rt, random),
            value: i64::from(random.below(4_000_000_000)),
        },
        2 => SideEvent::TakeLot {
            lot: random_lot(rt, random),
        },
        3 => SideEvent::CloseCall {
            number: random.below(9),
        },
        4 => SideEvent::AskMargin,
        _ => demand(rt),
    }
}

/// A side of a set is asked as the set of this side is.
fn ask_side(
    rt: &(impl Abort + AllocGlobal),
    both: &mut SetState,
    side: MarginSide,
    own: &mut SetState,
    random: &mut Random,
) {
    // two equal events
    let mut again = *random;
    let event = random_side_event(rt, random);
    let told = reply_to(rt, both, Event::OnSide { side, event });
    let event = random_side_event(rt, &mut again);
    let side = MarginSide::Collect;
    let expected = reply_to(rt, own, Event::OnSide { side, event });
    assert!(rt; told.as_slice() == expected.as_slice());
    drop(expected);
    drop(told);
}

fn negated(rt: &(impl Abort + AllocGlobal), trades: &[Trade]) -> Vec<Trade> {
    let mut negated = Vec::new(rt.alloc());
    for trade in trades {
        negated.push(trade.negated()).ok().expect(rt, "memory");
    }
    negated
}

/// The event that a request is of a set whose rows are all negated.
fn negated_event(
    rt: &(impl Abort + AllocGlobal),
    tables: &[ParamText],
    request: &Request,
) -> Event {
    match request {
        Request::Submit(trades) => {
            let trades = negated(rt, trades.as_slice());
            Event::Submit(batch_of(rt, trades.as_slice()))
        }
        Request::Margin(side) => Event::OnSide {
            side: other_side(*side),
            event: SideEvent::AskMargin,
        },
        Request::Withdraw(_) | Request::Tables(_) => event(rt, tables, request),
    }
}

/// What is asked of all the sets is answered alike.
fn ask_all(
    rt: &(impl Abort + AllocGlobal),
    tables: &[ParamText],
    sets: &mut Sets,
    request: &Request,
) {
    let told = reply_to(rt, &mut sets.both, event(rt, tables, request));
    let collecting = reply_to(rt, &mut sets.collecting, event(rt, tables, request));
    let posting = reply_to(rt, &mut sets.posting, negated_event(rt, tables, request));
    assert!(rt; told.as_slice() == collecting.as_slice());
    assert!(rt; told.as_slice() == posting.as_slice());
    drop(posting);
    drop(collecting);
    drop(told);
}

fn ask_both_sides(rt: &(impl Abort + AllocGlobal), sets: &mut Sets, random: &mut Random) {
    let both = &mut sets.both;
    ask_side(rt, both, MarginSide::Collect, &mut sets.collecting, random);
    ask_side(rt, both, MarginSide::Post, &mut sets.posting, random);
}

#[test]
fn each_side_of_a_set_at_random_answers_as_a_set_of_its_own(rt: HostRuntime) {
    let tables = read_tables(&rt);
    let mut random = Random::new();
    let mut sets = new_sets(&rt);
    for number in 1..201 {
        let request = random_change(&rt, &mut random, number);
        ask_all(&rt, tables.as_slice(), &mut sets, &request);
        for _ in 0..4 {
            ask_both_sides(&rt, &mut sets, &mut random);
        }
        drop(request);
    }
    drop(sets);
    drop(tables);
}
