//! Batches, withdrawals, tables and questions at random on one set. Each is answered as a new set
//! answers it that was given the same trades at once under the same tables; what the set keeps of
//! its buckets is by the rule of what an event touches.
use crate::expected_book::{Book, Mark};
use crate::makers::{both_terms, read_tables};
use crate::random::Random;
use crate::random_places::{bucket, place_at};
use crate::random_requests::{Request, batch_of, event, random_change};
use crate::set_core_calls::{other_side, reply_to};
use crate::whatif_makers::are_same;
use crif_reader::simm_kinds::MarginSide;
use params_file::ParamText;
use params_file::simm_rules::{Breakdown, BucketMargin};
use set_core::csa_terms::BothTerms;
use set_core::side_events::SideEvent;
use set_core::{Event, Reply, SetState};
use std::process::Abort;

/// What was read once: each of the tables, and terms.
#[derive(Drop)]
struct Files {
    tables: Vec<ParamText>,
    terms: BothTerms,
}

/// A new set under the tables at a place.
fn set_under(rt: &(impl Abort + AllocGlobal), files: &Files, tables: usize) -> SetState {
    let text = files.tables.get(tables).expect(rt, "tables");
    let params = text.params().share().ok().expect(rt, "memory");
    let terms = files.terms.copy(rt.alloc()).ok().expect(rt, "memory");
    SetState::new(rt.alloc(), params, terms)
        .ok()
        .expect(rt, "memory")
}

/// A new set with the trades and the tables of a book.
fn set_of(rt: &(impl Abort + AllocGlobal), files: &Files, book: &Book) -> SetState {
    let mut set = set_under(rt, files, book.tables);
    if !book.trades.is_empty() {
        let batch = batch_of(rt, book.trades.as_slice());
        let reply = reply_to(rt, &mut set, Event::Submit(batch));
        assert!(rt; reply.as_slice() == b"OK".as_slice());
        drop(reply);
    }
    set
}

fn kept(rt: &impl Abort, set: &SetState, mark: &Mark) -> Option<BucketMargin> {
    let place = place_at(rt, mark.place);
    let bucket = bucket(place.bucket.as_bytes());
    set.live()
        .cached(place.product, place.class, mark.measure, bucket)
}

/// Whether two sets keep the same of each value.
fn keep_the_same(rt: &impl Abort, first: &SetState, second: &SetState, marks: &[Mark]) -> bool {
    for mark in marks {
        if kept(rt, first, mark) != kept(rt, second, mark) {
            return false;
        }
    }
    true
}

fn margin_told(reply: &Reply) -> Option<Breakdown> {
    match reply {
        Reply::Margin(margin) => Some(*margin.parts()),
        _ => None,
    }
}

fn margin_on(rt: &(impl Abort + AllocGlobal), set: &mut SetState, side: MarginSide) -> Breakdown {
    let event = SideEvent::AskMargin;
    let reply = set.apply(0, Event::OnSide { side, event });
    let reply = reply.ok().expect(rt, "room and memory");
    margin_told(&reply).expect(rt, "a margin")
}

/// Behind a question the margins of both sides are known, and asking for them changes nothing.
/// What is posted is what a new set collects whose rows are all negated, and what is collected is
/// what that one posts.
fn tells_both_sides(
    rt: &(impl Abort + AllocGlobal),
    files: &Files,
    set: &mut SetState,
    book: &Book,
) {
    let negated = book.negated(rt);
    let mut new = set_of(rt, files, &negated);
    assert!(rt; set.live().is_fresh());
    for side in [MarginSide::Post, MarginSide::Collect] {
        let told = margin_on(rt, set, side);
        let expected = margin_on(rt, &mut new, other_side(side));
        assert!(rt; are_same(&told, &expected));
    }
    assert!(rt; set.live().is_fresh());
    drop(new);
    drop(negated);
}

/// What is asked of the set is answered as a new set answers it, and accepted where the book
/// accepts it. After a question both keep the same.
fn ask(
    rt: &(impl Abort + AllocGlobal),
    files: &Files,
    set: &mut SetState,
    book: &mut Book,
    request: &Request,
) {
    let tables = files.tables.as_slice();
    let mut new = set_of(rt, files, book);
    let expected = reply_to(rt, &mut new, event(rt, tables, request));
    let reply = reply_to(rt, set, event(rt, tables, request));
    assert!(rt; reply.as_slice() == expected.as_slice());
    let is_refused = reply.as_slice().starts_with(b"REFUSED");
    assert_eq!(rt; is_refused, !book.accepts(request));
    if !is_refused {
        book.take_in(rt, request);
    }
    if let Request::Margin(_) = request {
        assert!(rt; keep_the_same(rt, set, &new, book.marks.as_slice()));
        tells_both_sides(rt, files, set, book);
    }
    drop(expected);
    drop(reply);
    drop(new);
}

fn has_kept(rt: &impl Abort, set: &SetState, book: &Book) {
    for mark in book.marks.as_slice() {
        assert_eq!(rt; kept(rt, set, mark).is_some(), mark.is_kept);
    }
    assert_eq!(rt; set.live().dirty_count() as usize, book.dirty_count());
}

#[test]
fn a_set_at_random_answers_as_a_new_one_does(rt: HostRuntime) {
    let files = Files {
        tables: read_tables(&rt),
        terms: both_terms(&rt),
    };
    let mut random = Random::new();
    let mut book = Book::new(&rt);
    let mut set = set_of(&rt, &files, &book);
    for number in 1..301 {
        let request = random_change(&rt, &mut random, number);
        ask(&rt, &files, &mut set, &mut book, &request);
        has_kept(&rt, &set, &book);
        drop(request);
    }
    drop(set);
    drop(book);
    drop(files);
}
