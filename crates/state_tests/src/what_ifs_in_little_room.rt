//! What a what-if takes of memory, and that nothing changes where there isn't enough. Under
//! `rt try --test --fail-alloc N` the Nth request is refused: where a what-if makes it, want of
//! memory is told, and the next one is answered as ever. That of one trade over a book of 100,000
//! rows makes at most one request for each trade and for each key of the book.
use crate::makers::{batch, name, params, rows};
use crate::whatif_makers::{live_of, margin_of, margins, totals};
use crif_reader::simm_kinds::{Batch, MarginSide, Name};
use set_core::bucket_cache::LiveMargin;
use std::process::Abort;
use whatif::WhatIfFault;

/// Both totals of a what-if, in cents; `None` for want of memory.
fn asked(
    rt: &(impl Abort + AllocGlobal),
    live: &LiveMargin,
    leave: &[Name],
    candidate: &Batch,
) -> Option<[i128; 2]> {
    match margins(rt, live, leave, Some(candidate)) {
        Ok(told) => Some([told.before.total.0, told.after.total.0]),
        Err(WhatIfFault::Memory) => None,
        Err(_) => {
            assert!(rt; false, "the what-if has margins");
            None
        }
    }
}

/// Whether the first total without each of these trades is so many cents; `None` for want
/// of memory.
fn is_first_total(
    rt: &impl AllocGlobal,
    live: &LiveMargin,
    names: &[Name],
    cents: i128,
) -> Option<bool> {
    match totals(rt, live, names) {
        Ok(told) => Some(told.first().is_some_and(|total| total.0 == cents)),
        Err(WhatIfFault::Memory) => None,
        Err(_) => Some(false),
    }
}

fn submit(rt: &(impl Abort + AllocGlobal), live: &mut LiveMargin, batch: &Batch) {
    let taken = live.submit(rt.alloc(), batch);
    assert!(rt; taken.is_ok(), "the batch is taken in");
}

/// T1 of 1,000 euros, whose margin is known, and then T3 of as many.
fn two_trades(rt: &(impl Abort + AllocGlobal)) -> LiveMargin {
    let mut live = live_of(rt, &params(rt), &[]);
    submit(rt, &mut live, &batch(rt, "T1", "EUR", "1000"));
    margin_of(rt, &mut live, MarginSide::Collect);
    submit(rt, &mut live, &batch(rt, "T3", "EUR", "1000"));
    live
}

fn has_two_trades(rt: &impl Abort, live: &LiveMargin) {
    assert_eq!(rt; live.trade_count(), 2);
    assert_eq!(rt; live.dirty_count(), 1);
    assert!(rt; !live.is_fresh());
}

#[test]
fn a_what_if_that_finds_no_memory_changes_nothing(rt: HostRuntime) {
    let live = two_trades(&rt);
    let leave = [name(&rt, "T3")];
    let candidate = batch(&rt, "T2", "GBP", "-500");
    let first = asked(&rt, &live, &leave, &candidate);
    has_two_trades(&rt, &live);
    let second = asked(&rt, &live, &leave, &candidate);
    assert!(rt; first.is_some() || second.is_some());
    for told in [first, second] {
        assert!(rt; told.is_none() || told == Some([1_480_000, 640_859]));
    }
    drop(candidate);
    drop(leave);
    drop(live);
}

#[test]
fn totals_that_find_no_memory_change_nothing(rt: HostRuntime) {
    let live = two_trades(&rt);
    let names = [name(&rt, "T1"), name(&rt, "T3")];
    let first = is_first_total(&rt, &live, &names, 740_000);
    has_two_trades(&rt, &live);
    let second = is_first_total(&rt, &live, &names, 740_000);
    assert!(rt; first.is_some() || second.is_some());
    assert!(rt; first != Some(false) && second != Some(false));
    drop(names);
    drop(live);
}

/// Four rows of rates for each tenor, and one of foreign exchange: the rates of the one sign and
/// the other cancel.
const TENORS: [&str; 12] = [
    "2w", "1m", "3m", "6m", "1y", "2y", "3y", "5y", "10y", "15y", "20y", "30y",
];

const CURVES: [&str; 4] = ["OIS", "Libor1m", "Libor3m", "Libor6m"];

fn add_line(rt: &(impl Abort + AllocGlobal), lines: &mut String, line: Option<String>) {
    let line = line.expect(rt, "memory");
    lines.push_str(line.as_str()).ok().expect(rt, "memory");
}

/// 50 rows: two of one euro, and 48 of rates.
fn add_trade(rt: &(impl Abort + AllocGlobal), lines: &mut String, number: u32) {
    let (currency, amount) = match number % 4 {
        0 => ("EUR", "25"),
        1 => ("EUR", "-25"),
        2 => ("GBP", "25"),
        _ => ("GBP", "-25"),
    };
    for dollars in ["0.40", "0.10"] {
        let line = format!(in rt.alloc();
            "a trade with a number {number},FX,Risk_FX,EUR,,,,,,{dollars}\n"
        );
        add_line(rt, lines, line.ok());
    }
    for tenor in TENORS {
        for curve in CURVES {
            let line = format!(in rt.alloc();
                "a trade with a number {number},FX,Risk_IRCurve,{currency},,{tenor},{curve},,,{amount}\n"
            );
            add_line(rt, lines, line.ok());
        }
    }
}

/// 2,000 trades of 50 rows each, of 97 keys, whose margin is known.
fn many_trades(rt: &(impl Abort + AllocGlobal)) -> LiveMargin {
    let mut lines = String::new(rt.alloc());
    for number in 0..2_000 {
        add_trade(rt, &mut lines, number);
    }
    let mut live = live_of(rt, &params(rt), &[]);
    submit(rt, &mut live, &rows(rt, lines.as_str()));
    margin_of(rt, &mut live, MarginSide::Collect);
    live
}

#[test]
fn a_what_if_of_one_trade_over_100_000_rows_copies_none_of_them(rt: HostRuntime) {
    let live = many_trades(&rt);
    let candidate = batch(&rt, "T2", "GBP", "-500");
    let told = asked(&rt, &live, &[], &candidate);
    assert!(rt; told == Some([740_000, 640_859]));
    assert_eq!(rt; live.trade_count(), 2_000);
    drop(candidate);
    drop(live);
}
