//! What a set is to hold and to keep, by the rule of what an event touches.
ghost use Rattle.std.specs.Prelude.{◌<◌, IfSome, vec_len};

use crate::makers::TABLES;
use crate::random_places::PLACES;
use crate::random_requests::Request;
use crif_reader::simm_kinds::{Measure, RiskClass};
use std::process::Abort;

/// A row of a factor at a place, and its amount in dollars.
#[derive(Clone, Copy)]
pub struct Row {
    pub place: usize,
    pub factor: &'static str,
    pub dollars: i64,
}

impl Row {
    fn negated(self) -> Row {
        Row {
            dollars: self.dollars.wrapping_neg(),
            ..self
        }
    }
}

/// A trade and its rows.
#[derive(Clone, Copy)]
pub struct Trade {
    pub name: &'static str,
    pub rows: [Row; 2],
}

impl Trade {
    /// The same rows with their amounts negated.
    pub fn negated(self) -> Trade {
        let [first, second] = self.rows;
        Trade {
            name: self.name,
            rows: [first.negated(), second.negated()],
        }
    }
}

/// A value of a bucket in a measure, and whether it is to be kept.
#[derive(Drop)]
pub struct Mark {
    pub place: usize,
    pub measure: Measure,
    pub is_kept: bool,
}

/// What a set is to hold: its tables by their place in `TABLES`, its trades, and which values
/// it keeps.
#[derive(Drop)]
pub struct Book {
    pub tables: usize,
    pub trades: Vec<Trade>,
    pub marks: Vec<Mark>,
}

fn touches(rows: &[Row], mark: &Mark) -> bool {
    rows.iter().any(|row| row.place == mark.place)
}

fn is_equity(row: &Row) -> bool {
    match PLACES.get(row.place) {
        Some(place) => place.class == RiskClass::Equity,
        None => false,
    }
}

/// The indices of the first trade that has a row of equities, and of this row.
pub fn first_equity(trades: &[Trade]) -> Option<(usize, usize)> {
    for (index, trade) in trades.iter().enumerate() {
        if let Some(row) = trade.rows.iter().position(is_equity) {
            return Some((index, row));
        }
    }
    None
}

fn has_equities(trades: &[Trade]) -> bool {
    trades.iter().any(|trade| trade.rows.iter().any(is_equity))
}

/// Whether the tables at a place list the bucket of each row.
fn admit(tables: usize, trades: &[Trade]) -> bool {
    match TABLES.get(tables) {
        Some(tables) => tables.lists_equities || !has_equities(trades),
        None => false,
    }
}

impl Book {
    /// The first tables, no trades, and nothing kept.
    pub fn new(rt: &(impl Abort + AllocGlobal)) -> Book {
        let mut marks = Vec::new(rt.alloc());
        for (index, place) in PLACES.iter().enumerate() {
            for measure in place.measures {
                let mark = Mark {
                    place: index,
                    measure: *measure,
                    is_kept: false,
                };
                marks.push(mark).ok().expect(rt, "memory");
            }
        }
        Book {
            tables: 0,
            trades: Vec::new(rt.alloc()),
            marks,
        }
    }

    /// The same tables and trades, of which nothing is kept.
    pub fn copy(&self, rt: &(impl Abort + AllocGlobal)) -> Book {
        let mut copy = Book::new(rt);
        copy.tables = self.tables;
        copy.put_all(rt, self.trades.as_slice());
        copy
    }

    /// The same tables and trades, with all amounts negated, of which nothing is kept.
    pub fn negated(&self, rt: &(impl Abort + AllocGlobal)) -> Book {
        let mut negated = Book::new(rt);
        negated.tables = self.tables;
        for trade in self.trades.as_slice() {
            negated.put(rt, trade.negated());
        }
        negated
    }

    /// The values that these rows touch are kept no longer.
    fn touch(&mut self, rows: &[Row]) {
        for mark in self.marks.iter_mut() {
            if touches(rows, mark) {
                mark.is_kept = false;
            }
        }
    }

    /// No value is kept any longer.
    fn forget(&mut self) {
        for mark in self.marks.iter_mut() {
            mark.is_kept = false;
        }
    }

    /// Which of its trades has this name.
    fn index_of(&self, name: &str) -> Option<usize>
        ensures { IfSome result (λ index. index < vec_len self.now.trades) }
    {
        self.trades.iter().position(|trade| trade.name == name)
    }

    /// Takes a trade out, where it is there.
    fn take(&mut self, name: &str) {
        if let Some(index) = self.index_of(name) {
            let trade = self.trades.remove(index);
            self.touch(&trade.rows);
        }
    }

    /// Takes a trade in: in the place of the one of its name, or else last.
    fn put(&mut self, rt: &impl Abort, trade: Trade) {
        self.touch(&trade.rows);
        if let Some(index) = self.index_of(trade.name) {
            let old = self.trades[index];
            self.trades[index] = trade;
            self.touch(&old.rows);
        } else {
            self.trades.push(trade).ok().expect(rt, "memory");
        }
    }

    /// Whether a row lies where a value is.
    fn has_rows(&self, mark: &Mark) -> bool {
        self.trades.iter().any(|trade| touches(&trade.rows, mark))
    }

    /// Takes trades in, one after another.
    pub fn put_all(&mut self, rt: &impl Abort, trades: &[Trade]) {
        for trade in trades {
            self.put(rt, *trade);
        }
    }

    /// Takes out the trades of these names.
    pub fn take_all(&mut self, names: &[&'static str]) {
        for name in names {
            self.take(name);
        }
    }

    /// Whether each of these names is of a trade.
    fn has_all(&self, names: &[&'static str]) -> bool {
        names.iter().all(|name| self.index_of(name).is_some())
    }

    /// The index of the first name that is of no trade.
    pub fn first_unknown(&self, names: &[&'static str]) -> Option<usize> {
        names.iter().position(|name| self.index_of(name).is_none())
    }

    /// Whether the tables don't list the bucket of a row of these trades.
    pub fn refuses(&self, trades: &[Trade]) -> bool {
        !admit(self.tables, trades)
    }

    /// How many values of buckets that have a row are not kept.
    pub fn dirty_count(&self) -> usize {
        let dirty = self
            .marks
            .iter()
            .filter(|mark| !mark.is_kept && self.has_rows(mark));
        dirty.count()
    }

    /// A question was answered: just the values of the buckets that have a row are kept.
    fn renew(&mut self) {
        let trades = &self.trades;
        for mark in self.marks.iter_mut() {
            mark.is_kept = trades.iter().any(|trade| touches(&trade.rows, mark));
        }
    }

    /// Whether what is asked is accepted: of a withdrawal each name is of a trade; of a batch each
    /// row is in a bucket that the tables list, and of tables each row of the trades in one that
    /// these list.
    pub fn accepts(&self, request: &Request) -> bool {
        match request {
            Request::Margin(_) => true,
            Request::Submit(trades) => admit(self.tables, trades.as_slice()),
            Request::Withdraw(names) => self.has_all(names.as_slice()),
            Request::Tables(tables) => admit(*tables, self.trades.as_slice()),
        }
    }

    /// What is asked was accepted.
    pub fn take_in(&mut self, rt: &impl Abort, request: &Request) {
        match request {
            Request::Margin(_) => self.renew(),
            Request::Submit(trades) => self.put_all(rt, trades.as_slice()),
            Request::Withdraw(names) => self.take_all(names.as_slice()),
            Request::Tables(tables) => {
                self.tables = *tables;
                self.forget();
            }
        }
    }
}
