//! Where a file's header has the columns.
ghost use Rattle.std.specs.Prelude.{◌≡◌};
ghost use Rattle.crif_reader.specs.Columns.{place_of, required, columns_of};
ghost use Rattle.crif_records.specs.Reading.{newest};

use crate::{Column, CrifFault};
use crif_records::{Records, place_named};

/// The places of the columns in a record, from 0; that of the margin model where the header has
/// it. `count` is how many fields the header has.
#[derive(Clone, Copy)]
pub struct Columns {
    pub count: usize,
    pub trade_id: usize,
    pub product_class: usize,
    pub risk_type: usize,
    pub qualifier: usize,
    pub bucket: usize,
    pub label1: usize,
    pub label2: usize,
    pub amount: usize,
    pub amount_currency: usize,
    pub amount_usd: usize,
    pub im_model: Option<usize>,
}

/// The first place in the header with the column's name.
fn place_of(header: &Records, column: Column) -> Option<usize>
    ensures { result ≡ place_of (newest header.now) column }
{
    place_named(header, column.name())
}

fn required(header: &Records, column: Column) -> Result<usize, CrifFault>
    ensures { result ≡ required (newest header.now) column }
{
    place_of(header, column).ok_or(CrifFault::MissingColumn(column))
}

/// The places of the columns in a header, the newest record; the fault is the first required
/// column that it lacks.
#[tactic(auto, unfolding(crate::specs::Columns::columns_of))]
pub fn columns_of(header: &Records) -> Result<Columns, CrifFault>
    ensures { result ≡ columns_of (newest header.now) }
{
    Ok(Columns {
        count: header.field_count(),
        trade_id: required(header, Column::TradeId)?,
        product_class: required(header, Column::ProductClass)?,
        risk_type: required(header, Column::RiskType)?,
        qualifier: required(header, Column::Qualifier)?,
        bucket: required(header, Column::Bucket)?,
        label1: required(header, Column::Label1)?,
        label2: required(header, Column::Label2)?,
        amount: required(header, Column::Amount)?,
        amount_currency: required(header, Column::AmountCurrency)?,
        amount_usd: required(header, Column::AmountUsd)?,
        im_model: place_of(header, Column::ImModel),
    })
}
