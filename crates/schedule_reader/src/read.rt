ghost use Rattle.std.specs.Prelude.{◌≡◌, IfOk};
ghost use Rattle.crif_records.specs.Reading.{records_left, IsReading};
ghost use Rattle.schedule_im.specs.Margin.{AreScheduled};
ghost use Rattle.schedule_reader.specs.Reads.{Gives};
ghost use Rattle.schedule_reader.specs.Grammar.{schedule_of, rows_of};

use crate::ScheduleFault;
use crate::columns::{Columns, columns_of};
use crate::row::row_of;
use crif_records::Records;
use schedule_im::ScheduleRow;
use std::alloc::Global;

/// The number of the first record that is one too many: the header is the first, and 100,000 may
/// follow it.
const TOO_MANY: u32 = 100_002;

/// Reads the records behind the header.
fn read_rows(
    alloc: Global,
    records: &mut Records,
    columns: &Columns,
) -> Result<Vec<ScheduleRow>, ScheduleFault>
    requires { IsReading records.old }
    ensures value { Gives (λ rows. rows.items) result
        (rows_of columns.now (records_left records.old)) }
    ensures scheduled { IfOk result (λ rows. AreScheduled rows.items) }
{
    let mut rows = Vec::new(alloc);
    let mut number = 2u32;
    'reading: while records.next_record()? {
        if number == TOO_MANY {
            return Err(ScheduleFault::TooManyRows);
        }
        match row_of(columns, records) {
            Ok(Some(entry)) => rows.push(entry.into_row(alloc)?)?,
            Ok(None) => {}
            Err(fault) => return Err(ScheduleFault::Row { number, fault }),
        }
        number += 1;
    }
    if rows.is_empty() {
        return Err(ScheduleFault::EmptyBatch);
    }
    Ok(rows)
}

/// Reads the rows of the standard schedule from a CRIF file: a header and 1 to 100,000 records, in
/// comma- or tab-separated text with or without quotes, as csv reads them. The first line decides
/// which of the two parts the fields. Columns stand in any order and are named in any case; those
/// that are not read are passed over, and so are records whose margin model is another. Each other
/// record is the notional or the present value of a trade, in USD cents. The end is read on a
/// notional of rates or credit alone, and each such row has one.
///
/// The fault is the first in reading order; `Memory` may come at any text.
pub fn read_schedule(alloc: Global, bytes: &[u8]) -> Result<Vec<ScheduleRow>, ScheduleFault>
    ensures value { Gives (λ rows. rows.items) result (schedule_of bytes.now) }
    ensures scheduled { IfOk result (λ rows. AreScheduled rows.items) }
{
    let mut records = Records::open(alloc, bytes)?;
    if !records.next_record()? {
        return Err(ScheduleFault::NoHeader);
    }
    let columns = columns_of(&records)?;
    read_rows(alloc, &mut records, &columns)
}
