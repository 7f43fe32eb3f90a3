//! Where a file's header has the columns.
ghost use Rattle.std.specs.Prelude.{◌≡◌};
ghost use Rattle.crif_records.specs.Reading.{newest};
ghost use Rattle.schedule_reader.specs.Columns.{required, columns_of};

use crate::{ScheduleColumn, ScheduleFault};
use crif_records::{Records, place_named};

/// The places of the columns in a record, from 0. `count` is how many fields the header has.
#[derive(Clone, Copy)]
pub struct Columns {
    pub count: usize,
    pub trade_id: usize,
    pub product_class: usize,
    pub risk_type: usize,
    pub amount: usize,
    pub amount_currency: usize,
    pub amount_usd: usize,
    pub im_model: usize,
    pub end_date: usize,
}

fn required(header: &Records, column: ScheduleColumn) -> Result<usize, ScheduleFault>
    ensures { result ≡ required (newest header.now) column }
{
    place_named(header, column.name()).ok_or(ScheduleFault::MissingColumn(column))
}

/// The places of the columns in a header, the newest record; the fault is the first column that
/// it lacks.
#[tactic(auto, unfolding(crate::specs::Columns::columns_of))]
pub fn columns_of(header: &Records) -> Result<Columns, ScheduleFault>
    ensures { result ≡ columns_of (newest header.now) }
{
    Ok(Columns {
        count: header.field_count(),
        trade_id: required(header, ScheduleColumn::TradeId)?,
        product_class: required(header, ScheduleColumn::ProductClass)?,
        risk_type: required(header, ScheduleColumn::RiskType)?,
        amount: required(header, ScheduleColumn::Amount)?,
        amount_currency: required(header, ScheduleColumn::AmountCurrency)?,
        amount_usd: required(header, ScheduleColumn::AmountUsd)?,
        im_model: required(header, ScheduleColumn::ImModel)?,
        end_date: required(header, ScheduleColumn::EndDate)?,
    })
}
