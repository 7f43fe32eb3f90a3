//! Rows gathered by trade.
ghost use Rattle.std.specs.Prelude.{◌≡◌, ◌∷◌, [], ℕ, List, length, unwrap_or};
ghost use Rattle.std.specs.Prelude.{Some, None, false, IfOk, OnOk, if◌then◌else◌};
ghost use Rattle.crif_records.specs.SimmKinds.NameText.{IsName};
ghost use Rattle.crif_records.specs.SimmKinds.Order.{same_name};
ghost use Rattle.crif_reader.specs.Growth.{with_entry, noted_at, grown, is_newest};
ghost use Rattle.crif_reader.specs.Growth.{IsApart, IsIndex};

use crate::row::Entry;
use crif_records::simm_kinds::{CrifRow, Listed, Name, TradeRows};
use indexmap::IndexMap;
use std::alloc::{AllocError, Global};
use std::mem;

/// A trade's rows are moved to a list of their size where they are at most so many; a longer list
/// is kept as it is.
const FEW: usize = 1000;

/// The rows so far, by trade. The rows of a trade mostly stand together: those of the newest trade
/// wait in a list with room for more, and only the name of another trade is looked up.
#[derive(Drop)]
pub struct Gathering {
    trades: Vec<TradeRows>,
    newest: Option<Name>,
    rows: Vec<CrifRow>,
    places: IndexMap<Name, usize>,
}

/// The place of the trade with this name; a new one is noted at the end of so many.
fn place_or_end(
    alloc: Global,
    places: &mut IndexMap<Name, usize>,
    trade: &[u8],
    count: usize,
) -> Result<usize, AllocError>
    requires { IsName trade.now }
    ensures place { IfOk result (λ place.
        place ≡ unwrap_or (noted_at places.old.entries trade.now) count) }
    ensures noted { IfOk result (λ place. (name : List ℕ) → noted_at places.new.entries name
        ≡ (if same_name trade.now name then Some place else noted_at places.old.entries name)) }
{
    let name = Name::of_bytes(alloc, trade)?;
    Ok(*places.entry(name)?.or_insert(count))
}

/// Takes the rows out.
fn taken_rows(alloc: Global, rows: &mut Vec<CrifRow>) -> Result<Vec<CrifRow>, AllocError>
    ensures taken { IfOk result (λ taken. taken.items ≡ rows.old.items) }
    ensures left { OnOk result (rows.new.items ≡ []) }
{
    if rows.len() > FEW {
        return Ok(mem::replace(rows, Vec::new(alloc)));
    }
    let mut taken = Vec::with_capacity(alloc, rows.len())?;
    taken.append(rows)?;
    Ok(taken)
}

impl Gathering {
    /// No rows. It takes no memory.
    pub fn new(alloc: Global) -> Gathering
        ensures trades { grown result ≡ [] }
        ensures index { IsIndex result }
    {
        Gathering {
            trades: Vec::new(alloc),
            newest: None,
            rows: Vec::new(alloc),
            places: IndexMap::new(alloc),
        }
    }

    /// Whether this is the name of the newest trade.
    fn is_newest(&self, trade: &[u8]) -> bool
        ensures { result ≡ is_newest self.now.newest trade.now }
    {
        match &self.newest {
            Some(name) => name.bytes() == trade,
            None => false,
        }
    }

    /// How many trades there are.
    fn count(&self) -> usize
        ensures { result ≡ length (grown self.now) }
    {
        self.trades.len() + usize::from(self.newest.is_some())
    }

    /// Adds a row at the end of its trade, or with a new trade behind the others. The only error
    /// is want of memory.
    pub fn add(&mut self, alloc: Global, added: Entry) -> Result<(), AllocError>
        requires index { IsIndex self.old }
        requires name { IsName added.trade.now }
        ensures trades { OnOk result (grown self.new ≡ with_entry (grown self.old)
            (record { trade = added.entry.trade.now; row = added.entry.row })) }
        ensures index { OnOk result (IsIndex self.new) }
    {
        let Entry { trade, row } = added;
        if !self.is_newest(trade) {
            return self.add_elsewhere(alloc, trade, row);
        }
        self.rows.push(row)?;
        Ok(())
    }

    /// Adds a row to a trade that isn't the newest.
    fn add_elsewhere(&mut self, alloc: Global, trade: &[u8], row: CrifRow) -> Result<(), AllocError>
        requires index { IsIndex self.old }
        requires name { IsName trade.now }
        requires other { is_newest self.old.newest trade.now ≡ false }
        ensures trades { OnOk result (grown self.new
            ≡ with_entry (grown self.old) (record { trade = trade.now; row = row })) }
        ensures index { OnOk result (IsIndex self.new) }
    {
        let count = self.count();
        let place = place_or_end(alloc, &mut self.places, trade, count)?;
        if place != count {
            return self.trades[place].rows.push(row);
        }
        self.begin(alloc, trade)?;
        self.rows.push(row)?;
        Ok(())
    }

    /// Puts the newest trade behind the others, and begins another without a row.
    fn begin(&mut self, alloc: Global, trade: &[u8]) -> Result<(), AllocError>
        requires apart { IsApart self.old.trades.items self.old.newest self.old.rows.items }
        requires name { IsName trade.now }
        ensures trades { OnOk result (self.new.trades.items ≡ grown self.old) }
        ensures newest { OnOk result (self.new.newest ≡ Some trade.now) }
        ensures rows { OnOk result (self.new.rows.items ≡ []) }
        ensures places { self.new.places ≡ self.old.places }
    {
        self.finish(alloc)?;
        self.newest = Some(Name::of_bytes(alloc, trade)?);
        Ok(())
    }

    /// Puts the newest trade behind the others.
    fn finish(&mut self, alloc: Global) -> Result<(), AllocError>
        requires { IsApart self.old.trades.items self.old.newest self.old.rows.items }
        ensures trades { OnOk result (self.new.trades.items ≡ grown self.old) }
        ensures newest { OnOk result (self.new.newest ≡ None) }
        ensures rows { OnOk result (self.new.rows.items ≡ []) }
        ensures places { self.new.places ≡ self.old.places }
    {
        if let Some(trade) = self.newest.take() {
            let rows = Listed::from_vec(taken_rows(alloc, &mut self.rows)?);
            self.trades.push(TradeRows { trade, rows })?;
        }
        Ok(())
    }

    /// The trades with their rows. The only error is want of memory.
    pub fn into_trades(mut self, alloc: Global) -> Result<Vec<TradeRows>, AllocError>
        requires { IsIndex self }
        ensures { IfOk result (λ trades. trades.items ≡ grown self) }
    {
        self.finish(alloc)?;
        Ok(self.trades)
    }
}
