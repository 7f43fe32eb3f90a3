//! What is asked of a set at random, and the event that it is.
use crate::expected_book::{Row, Trade};
use crate::makers::{TABLES, name, rows};
use crate::random::Random;
use crate::random_places::place_at;
use crif_reader::simm_kinds::{Batch, Listed, MarginSide, Name};
use params_file::ParamText;
use set_core::Event;
use set_core::side_events::SideEvent;
use std::process::Abort;

/// What is asked of a set.
#[derive(Drop)]
pub enum Request {
    /// The margin of a side.
    Margin(MarginSide),
    Submit(Vec<Trade>),
    Withdraw(Vec<&'static str>),
    /// Those at a place of `TABLES`.
    Tables(usize),
}

const NAMES: [&str; 8] = ["A", "B", "C", "D", "E", "F", "G", "H"];

fn random_row(rt: &impl Abort, random: &mut Random) -> Row {
    let index = random.below(13) as usize;
    let factor = random.one_of(rt, place_at(rt, index).factors);
    let dollars = i64::from(random.below(4_000_000)) - 2_000_000;
    Row {
        place: index,
        factor,
        dollars,
    }
}

fn random_trade(rt: &impl Abort, random: &mut Random, name: &'static str) -> Trade {
    Trade {
        name,
        rows: [random_row(rt, random), random_row(rt, random)],
    }
}

/// Each name with a chance of one in eight, in order.
pub fn chosen_names(rt: &(impl Abort + AllocGlobal), random: &mut Random) -> Vec<&'static str> {
    let mut names = Vec::new(rt.alloc());
    for name in NAMES {
        if random.below(8) == 0 {
            names.push(name).ok().expect(rt, "memory");
        }
    }
    names
}

/// A trade for each name.
pub fn random_trades(
    rt: &(impl Abort + AllocGlobal),
    random: &mut Random,
    names: &[&'static str],
) -> Vec<Trade> {
    let mut trades = Vec::new(rt.alloc());
    for name in names {
        let trade = random_trade(rt, random, name);
        trades.push(trade).ok().expect(rt, "memory");
    }
    trades
}

fn random_side(random: &mut Random) -> MarginSide {
    if random.below(2) == 0 {
        MarginSide::Collect
    } else {
        MarginSide::Post
    }
}

/// A question where no trade is chosen; else a withdrawal, or twice as often a batch.
fn random_request(rt: &(impl Abort + AllocGlobal), random: &mut Random) -> Request {
    let names = chosen_names(rt, random);
    if names.is_empty() {
        Request::Margin(random_side(random))
    } else if random.below(3) == 0 {
        Request::Withdraw(names)
    } else {
        Request::Submit(random_trades(rt, random, names.as_slice()))
    }
}

/// Other tables, or the same ones.
fn random_tables(random: &mut Random) -> Request {
    Request::Tables(random.below(TABLES.len() as u32) as usize)
}

/// What is asked at a number: tables each tenth time.
pub fn random_change(rt: &(impl Abort + AllocGlobal), random: &mut Random, number: u32) -> Request {
    if number % 10 == 0 {
        random_tables(random)
    } else {
        random_request(rt, random)
    }
}

fn add_row(rt: &(impl Abort + AllocGlobal), lines: &mut String, trade: &str, row: Row) {
    let product = place_at(rt, row.place).product.word();
    let Row {
        factor,
        dollars,
        ..
    } = row;
    let line = format!(in rt.alloc(); "{trade},{product},{factor},,,{dollars}\n");
    let line = line.ok().expect(rt, "memory");
    lines.push_str(line.as_str()).ok().expect(rt, "memory");
}

fn add_trade(rt: &(impl Abort + AllocGlobal), lines: &mut String, trade: &Trade) {
    for row in &trade.rows {
        add_row(rt, lines, trade.name, *row);
    }
}

pub fn batch_of(rt: &(impl Abort + AllocGlobal), trades: &[Trade]) -> Batch {
    let mut lines = String::new(rt.alloc());
    for trade in trades {
        add_trade(rt, &mut lines, trade);
    }
    rows(rt, lines.as_str())
}

pub fn names_of(rt: &(impl Abort + AllocGlobal), texts: &[&'static str]) -> Listed<Name> {
    let mut names = Listed::new(rt.alloc());
    for text in texts {
        names.push(name(rt, text)).ok().expect(rt, "memory");
    }
    names
}

/// The event that a request is, which brings one of these tables where it brings any.
pub fn event(rt: &(impl Abort + AllocGlobal), tables: &[ParamText], request: &Request) -> Event {
    match request {
        Request::Margin(side) => Event::OnSide {
            side: *side,
            event: SideEvent::AskMargin,
        },
        Request::Submit(trades) => Event::Submit(batch_of(rt, trades.as_slice())),
        Request::Withdraw(names) => Event::Withdraw(names_of(rt, names.as_slice())),
        Request::Tables(index) => {
            let text = tables.get(*index).expect(rt, "tables");
            Event::Tables(text.share().ok().expect(rt, "memory"))
        }
    }
}
