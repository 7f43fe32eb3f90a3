//! What-ifs at random of one live margin, which changes at random between them. Each figure is
//! that of a new live margin which was given just the trades of that book, and what the live
//! margin keeps stands.
use crate::expected_book::{Book, Trade, first_equity};
use crate::makers::read_tables;
use crate::random::Random;
use crate::random_requests::{
    Request, batch_of, chosen_names, names_of, random_change, random_trades,
};
use crate::whatif_makers::{are_same, live_of, margin_of, margins, totals};
use crif_reader::simm_kinds::MarginSide;
use params_file::ParamText;
use params_file::simm_rules::Breakdown;
use set_core::bucket_cache::LiveMargin;
use std::process::Abort;
use whatif::{WhatIf, WhatIfFault};

/// What is asked of a book: without the trades of some names, and with a candidate, where there
/// is one.
#[derive(Drop)]
struct Asked {
    leave: Vec<&'static str>,
    candidate: Option<Vec<Trade>>,
}

fn random_asked(rt: &(impl Abort + AllocGlobal), random: &mut Random) -> Asked {
    let leave = chosen_names(rt, random);
    let coming = chosen_names(rt, random);
    let candidate = if coming.is_empty() {
        None
    } else {
        Some(random_trades(rt, random, coming.as_slice()))
    };
    Asked { leave, candidate }
}

fn table_at<'a>(rt: &impl Abort, tables: &'a [ParamText], index: usize) -> &'a ParamText {
    tables.get(index).expect(rt, "tables")
}

/// A request that the book accepts is made of the live margin.
fn change(
    rt: &(impl Abort + AllocGlobal),
    tables: &[ParamText],
    live: &mut LiveMargin,
    request: &Request,
) {
    let is_taken = match request {
        Request::Margin(side) => {
            margin_of(rt, live, *side);
            true
        }
        Request::Submit(trades) => {
            let batch = batch_of(rt, trades.as_slice());
            live.submit(rt.alloc(), &batch).is_ok()
        }
        Request::Withdraw(names) => {
            let names = names_of(rt, names.as_slice());
            live.withdraw(rt.alloc(), names.as_slice()).is_ok()
        }
        Request::Tables(index) => {
            let text = table_at(rt, tables, *index);
            live.replace_tables(rt.alloc(), text.params()).is_ok()
        }
    };
    assert!(rt; is_taken, "what the book accepts is taken in");
}

/// The margin of a new live margin of the book's trades.
fn margin_of_book(rt: &(impl Abort + AllocGlobal), tables: &[ParamText], book: &Book) -> Breakdown {
    let params = table_at(rt, tables, book.tables).params();
    let mut live = live_of(rt, params, book.trades.as_slice());
    margin_of(rt, &mut live, MarginSide::Collect)
}

fn ask(
    rt: &(impl Abort + AllocGlobal),
    live: &LiveMargin,
    asked: &Asked,
) -> Result<WhatIf, WhatIfFault> {
    let leave = names_of(rt, asked.leave.as_slice());
    match &asked.candidate {
        Some(trades) => {
            let batch = batch_of(rt, trades.as_slice());
            margins(rt, live, leave.as_slice(), Some(&batch))
        }
        None => margins(rt, live, leave.as_slice(), None),
    }
}

fn is_unknown(fault: Option<WhatIfFault>, index: usize) -> bool {
    match fault {
        Some(WhatIfFault::UnknownTrade { place }) => place > 0 && place - 1 == index as u64,
        _ => false,
    }
}

// Whether a place, which counts from 1, is that of an index.
fn is_at(place: u32, index: usize) -> bool {
    place > 0 && place as usize - 1 == index
}

fn is_unlisted(fault: Option<WhatIfFault>, first: Option<(usize, usize)>) -> bool {
    match (fault, first) {
        (Some(WhatIfFault::BucketUnknown { trade, row }), Some((index, of_trade))) => {
            is_at(trade, index) && is_at(row, of_trade)
        }
        _ => false,
    }
}

/// The margins are those of new live margins of the book and of the book after.
fn are_from_scratch(
    rt: &(impl Abort + AllocGlobal),
    tables: &[ParamText],
    book: &Book,
    asked: &Asked,
    told: Option<WhatIf>,
) {
    let told = told.expect(rt, "margins");
    let before = margin_of_book(rt, tables, book);
    assert!(rt; are_same(&told.before, &before));
    let mut after = book.copy(rt);
    after.take_all(asked.leave.as_slice());
    if let Some(trades) = &asked.candidate {
        after.put_all(rt, trades.as_slice());
    }
    let margin = margin_of_book(rt, tables, &after);
    assert!(rt; are_same(&told.after, &margin));
    drop(after);
}

fn candidate(asked: &Asked) -> &[Trade] {
    match &asked.candidate {
        Some(trades) => trades.as_slice(),
        None => &[],
    }
}

/// A what-if is answered by the book: the first name that isn't known, then the first row that
/// isn't listed, else both margins.
fn is_answered(
    rt: &(impl Abort + AllocGlobal),
    tables: &[ParamText],
    live: &LiveMargin,
    book: &Book,
    asked: &Asked,
) {
    let told = ask(rt, live, asked);
    let coming = candidate(asked);
    if let Some(index) = book.first_unknown(asked.leave.as_slice()) {
        assert!(rt; is_unknown(told.err(), index));
    } else if book.refuses(coming) {
        assert!(rt; is_unlisted(told.err(), first_equity(coming)));
    } else {
        are_from_scratch(rt, tables, book, asked, told.ok());
    }
}

/// The total without a trade is that of a new live margin without it.
fn is_total_without(
    rt: &(impl Abort + AllocGlobal),
    tables: &[ParamText],
    book: &Book,
    name: &'static str,
    total: i128,
) {
    let mut after = book.copy(rt);
    after.take_all(&[name]);
    let margin = margin_of_book(rt, tables, &after);
    assert_eq!(rt; total, margin.total.0);
    drop(after);
}

/// So of each of these names, or the first that isn't known is told.
fn are_without_each(
    rt: &(impl Abort + AllocGlobal),
    tables: &[ParamText],
    live: &LiveMargin,
    book: &Book,
    texts: &[&'static str],
) {
    let names = names_of(rt, texts);
    let told = totals(rt, live, names.as_slice());
    if let Some(index) = book.first_unknown(texts) {
        assert!(rt; is_unknown(told.err(), index));
        return;
    }
    let told = told.ok().expect(rt, "totals");
    assert_eq!(rt; told.len(), texts.len());
    for (name, total) in texts.iter().zip(told.as_slice()) {
        is_total_without(rt, tables, book, name, total.0);
    }
    drop(told);
}

/// Each name of the book's trades.
fn names_in(rt: &(impl Abort + AllocGlobal), book: &Book) -> Vec<&'static str> {
    let mut names = Vec::new(rt.alloc());
    for trade in book.trades.as_slice() {
        names.push(trade.name).ok().expect(rt, "memory");
    }
    names
}

fn stands(rt: &impl Abort, live: &LiveMargin, book: &Book, is_fresh: bool) {
    assert_eq!(rt; live.dirty_count() as usize, book.dirty_count());
    assert_eq!(rt; live.trade_count() as usize, book.trades.len());
    assert_eq!(rt; live.is_fresh(), is_fresh);
}

#[test]
fn what_ifs_at_random_are_answered_as_new_live_margins_answer(rt: HostRuntime) {
    let tables = read_tables(&rt);
    let mut random = Random::new();
    let mut book = Book::new(&rt);
    let first = table_at(&rt, tables.as_slice(), 0);
    let mut live = live_of(&rt, first.params(), &[]);
    for number in 1..201 {
        let request = random_change(&rt, &mut random, number);
        if book.accepts(&request) {
            change(&rt, tables.as_slice(), &mut live, &request);
            book.take_in(&rt, &request);
        }
        let is_fresh = live.is_fresh();
        let asked = random_asked(&rt, &mut random);
        is_answered(&rt, tables.as_slice(), &live, &book, &asked);
        are_without_each(&rt, tables.as_slice(), &live, &book, asked.leave.as_slice());
        let names = names_in(&rt, &book);
        are_without_each(&rt, tables.as_slice(), &live, &book, names.as_slice());
        stands(&rt, &live, &book, is_fresh);
        drop(names);
        drop(asked);
        drop(request);
    }
    drop(live);
    drop(book);
    drop(tables);
}
