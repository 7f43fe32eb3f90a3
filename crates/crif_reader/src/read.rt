ghost use Rattle.std.specs.Prelude.{◌≡◌, ◌++◌, ◌∷◌, [], List, Some, option_map, OnOk};
ghost use Rattle.crif_reader.specs.Reads.{Gives};
ghost use Rattle.crif_records.specs.Reading.{newest, records_left, IsReading};
ghost use Rattle.crif_reader.specs.Row.{Entry as Placed, row_of};
ghost use Rattle.crif_records.specs.SimmKinds.NameText.{IsName};
ghost use Rattle.crif_records.specs.SimmKinds.declared.row.CrifRow.{CrifRow};
ghost use Rattle.crif_reader.specs.Grammar.{at_record, crif_of, rows_of};
ghost use Rattle.crif_reader.specs.Growth.{grown, with_entry, IsIndex};
ghost use Rattle.crif_reader.specs.Noted.{IsNoted};
ghost use Rattle.crif_reader.specs.Repeated.{once, rows_in};

use crate::columns::{Columns, columns_of};
use crate::gather::Gathering;
use crate::params::Params;
use crate::row::{Entry, row_of};
use crate::row_stop::RowStop;
use crate::{CrifFault, RowFault};
use crif_records::Records;
use crif_records::simm_kinds::{Batch, Listed, TradeRows};
use std::alloc::Global;

/// The number of the first record that is one too many: the header is the first, and 100,000 may
/// follow it.
const TOO_MANY: u32 = 100_002;

/// What a CRIF file has: its rows, and how many records were passed over, being present values or
/// of the schedule.
#[derive(Drop)]
pub struct ReadBatch {
    /// The rows, by trade.
    pub batch: Batch,
    /// How many records gave no row.
    pub passed_over: u32,
}

/// The rows of a file by trade, before they are known to be a batch.
#[derive(Drop)]
struct Gathered {
    trades: Vec<TradeRows>,
    passed_over: u32,
}

/// The row of the newest record, which has this number, or `None` where it is passed over.
fn read_row<'a>(
    alloc: Global,
    number: u32,
    columns: &Columns,
    records: &'a Records,
) -> Result<Option<Entry<'a>>, CrifFault>
    requires { IsReading records.now }
    ensures { Gives (λ o. option_map (λ e. record { trade = e.trade.now; row = e.row }) o) result
        (at_record number (row_of columns.now (newest records.now))) }
{
    match row_of(alloc, columns, records) {
        Ok(row) => Ok(row),
        Err(RowStop::Fault(fault)) => Err(CrifFault::Row { number, fault }),
        Err(RowStop::Memory) => Err(CrifFault::Memory),
    }
}

/// Takes the row of the record with this number, unless it repeats a parameter.
fn take_row(
    alloc: Global,
    number: u32,
    params: &mut Params,
    gathering: &mut Gathering,
    added: Entry,
) -> Result<(), CrifFault>
    requires index { IsIndex gathering.old }
    requires name { IsName added.trade.now }
    ensures given { (before : List Placed) → IsNoted params.old (rows_in before)
        → Gives (λ _. Some (record { trade = added.entry.trade.now; row = added.entry.row }))
        result (at_record number
        (once before (Some (record { trade = added.entry.trade.now; row = added.entry.row })))) }
    ensures noted { (before : List CrifRow) → IsNoted params.old before
        → OnOk result (IsNoted params.new (before ++ added.entry.row ∷ [])) }
    ensures trades { OnOk result (grown gathering.new ≡ with_entry (grown gathering.old)
        (record { trade = added.entry.trade.now; row = added.entry.row })) }
    ensures index { OnOk result (IsIndex gathering.new) }
{
    if !params.note(alloc, &added.row)? {
        let fault = RowFault::DuplicateParam;
        return Err(CrifFault::Row { number, fault });
    }
    gathering.add(alloc, added)?;
    Ok(())
}

/// Reads the records behind the header, and gathers their rows by trade.
fn read_rows(alloc: Global, records: &mut Records, columns: &Columns) -> Result<Gathered, CrifFault>
    requires { IsReading records.old }
    ensures { Gives (λ g. record { trades = g.trades.items; passed_over = g.passed_over }) result
        (rows_of columns.now (records_left records.old)) }
{
    let mut gathering = Gathering::new(alloc);
    let mut params = Params::new(alloc);
    let mut number = 2u32;
    let mut passed_over = 0u32;
    while records.next_record()? {
        if number == TOO_MANY {
            return Err(CrifFault::TooManyRows);
        }
        let taken = match read_row(alloc, number, columns, records) {
            Ok(taken) => taken,
            Err(fault) => return Err(fault),
        };
        match taken {
            Some(entry) => take_row(alloc, number, &mut params, &mut gathering, entry)?,
            None => passed_over += 1,
        }
        number += 1;
    }
    let trades = gathering.into_trades(alloc)?;
    if trades.is_empty() {
        return Err(CrifFault::EmptyBatch);
    }
    Ok(Gathered {
        trades,
        passed_over,
    })
}

/// Reads a CRIF file: a header and 1 to 100,000 records, in comma- or tab-separated text with or
/// without quotes, as csv reads them. The first line decides which of the two parts the fields.
/// Columns stand in any order and are named in any case; those that are not read are passed over,
/// and so are present values and records of the schedule. Each other record is a row of the trade
/// that it names, and rows of one trade stand together, under the place of its first row. Amounts
/// are in USD cents, rates in ten-thousandths. Parameters of add-ons belong to no trade: they
/// stand in that without a name, at most one factor of a qualifier and one multiplier of a
/// product class.
///
/// The fault is the first in reading order; `Memory` may come at any text.
pub fn read_batch(alloc: Global, bytes: &[u8]) -> Result<ReadBatch, CrifFault>
    ensures { Gives (λ r. record { trades = r.batch; passed_over = r.passed_over }) result
        (crif_of bytes.now) }
{
    let mut records = Records::open(alloc, bytes)?;
    if !records.next_record()? {
        return Err(CrifFault::NoHeader);
    }
    let columns = columns_of(&records)?;
    let gathered = read_rows(alloc, &mut records, &columns)?;
    let batch = Batch::from_trades(alloc, Listed::from_vec(gathered.trades))?;
    Ok(ReadBatch {
        batch,
        passed_over: gathered.passed_over,
    })
}
