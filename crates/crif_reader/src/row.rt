//! The row of a record.
ghost use Rattle.std.specs.Prelude.{◌≡◌, IfOk, option_map};
ghost use Rattle.crif_reader.specs.Reads.{GivesRow};
ghost use Rattle.crif_reader.specs.Fields.{texts};
ghost use Rattle.crif_records.specs.Reading.{newest, IsReading};
ghost use Rattle.crif_reader.specs.Row.{trade_of, product_of, amount_text, amount_of};
ghost use Rattle.crif_reader.specs.Row.{rate_of, sensitivity_of, notional_of, fixed_amount_of};
ghost use Rattle.crif_reader.specs.Row.{notional_factor_of, multiplier_of, entry_of};
ghost use Rattle.crif_reader.specs.Row.{is_present_value, typed_of, model_of, row_of};

use crate::RowFault;
use crate::columns::Columns;
use crate::factor::factor_of;
use crate::fields::Fields;
use crate::names::{read_full_name, read_name};
use crate::row_stop::RowStop;
use crif_records::simm_kinds::mh_units::{Cents, Rate4, read_cents, read_rate4};
use crif_records::simm_kinds::{CrifRow, FactorKey, Name, ProductClass, RiskType};
use crif_records::{Records, is_word, usd_text};
use std::alloc::Global;

/// A row, and the name of the trade that it belongs to, which the record lends; it is empty for a
/// parameter of an add-on.
#[derive(Drop)]
pub struct Entry<'a> {
    /// The name of the trade.
    pub trade: &'a [u8],
    /// The row.
    pub row: CrifRow,
}

/// The name of the row's trade: it isn't empty.
fn trade_of<'a>(fields: &Fields<'a>) -> Result<&'a [u8], RowStop>
    ensures { GivesRow (λ t. t.now) result (trade_of (texts fields.now)) }
{
    if Name::is_full_name(fields.trade_id) {
        Ok(fields.trade_id)
    } else {
        Err(RowStop::Fault(RowFault::Trade))
    }
}

fn product_of(fields: &Fields) -> Result<ProductClass, RowFault>
    ensures { result ≡ product_of (texts fields.now) }
{
    ProductClass::read(fields.product_class).ok_or(RowFault::ProductClass)
}

/// The amount in USD, as the file has it.
fn amount_text<'a>(fields: &Fields<'a>) -> &'a [u8]
    ensures { result.now ≡ amount_text (texts fields.now) }
{
    usd_text(fields.amount_usd, fields.amount_currency, fields.amount)
}

fn amount_of(fields: &Fields) -> Result<Cents, RowFault>
    ensures { result ≡ amount_of (texts fields.now) }
{
    read_cents(amount_text(fields)).map_err(RowFault::Amount)
}

fn rate_of(fields: &Fields) -> Result<Rate4, RowFault>
    ensures { result ≡ rate_of (texts fields.now) }
{
    read_rate4(fields.amount).map_err(RowFault::Amount)
}

#[tactic(auto, unfolding(crate::specs::Row::sensitivity_of))]
fn sensitivity_of<'a>(
    alloc: Global,
    kind: RiskType,
    fields: &Fields<'a>,
) -> Result<Entry<'a>, RowStop>
    ensures { GivesRow (λ e. record { trade = e.trade.now; row = e.row }) result
        (sensitivity_of kind (texts fields.now)) }
{
    let trade = trade_of(fields)?;
    let product = product_of(fields)?;
    let factor = factor_of(alloc, kind, fields)?;
    let amount = amount_of(fields)?;
    let key = FactorKey { product, factor };
    Ok(Entry {
        trade,
        row: CrifRow::Sensitivity { key, amount },
    })
}

#[tactic(auto, unfolding(crate::specs::Row::notional_of))]
fn notional_of<'a>(alloc: Global, fields: &Fields<'a>) -> Result<Entry<'a>, RowStop>
    ensures { GivesRow (λ e. record { trade = e.trade.now; row = e.row }) result
        (notional_of (texts fields.now)) }
{
    let trade = trade_of(fields)?;
    let qualifier = read_name(alloc, RowFault::Qualifier, fields.qualifier)?;
    let amount = amount_of(fields)?;
    Ok(Entry {
        trade,
        row: CrifRow::Notional { qualifier, amount },
    })
}

#[tactic(auto, unfolding(crate::specs::Row::fixed_amount_of))]
fn fixed_amount_of<'a>(fields: &Fields<'a>) -> Result<Entry<'a>, RowStop>
    ensures { GivesRow (λ e. record { trade = e.trade.now; row = e.row }) result
        (fixed_amount_of (texts fields.now)) }
{
    let amount = amount_of(fields)?;
    if amount.0 < 0 {
        return Err(RowStop::Fault(RowFault::ParamRange(amount.0)));
    }
    Ok(Entry {
        trade: &[],
        row: CrifRow::FixedAmount(amount),
    })
}

#[tactic(auto, unfolding(crate::specs::Row::notional_factor_of))]
fn notional_factor_of<'a>(alloc: Global, fields: &Fields<'a>) -> Result<Entry<'a>, RowStop>
    ensures { GivesRow (λ e. record { trade = e.trade.now; row = e.row }) result
        (notional_factor_of (texts fields.now)) }
{
    let qualifier = read_full_name(alloc, RowFault::Qualifier, fields.qualifier)?;
    let factor = rate_of(fields)?;
    if !(0..=1_000_000).contains(&factor.0) {
        return Err(RowStop::Fault(RowFault::ParamRange(i128::from(factor.0))));
    }
    Ok(Entry {
        trade: &[],
        row: CrifRow::NotionalFactor { qualifier, factor },
    })
}

#[tactic(auto, unfolding(crate::specs::Row::multiplier_of))]
fn multiplier_of<'a>(fields: &Fields<'a>) -> Result<Entry<'a>, RowStop>
    ensures { GivesRow (λ e. record { trade = e.trade.now; row = e.row }) result
        (multiplier_of (texts fields.now)) }
{
    let product = ProductClass::read(fields.qualifier).ok_or(RowFault::Qualifier)?;
    let factor = rate_of(fields)?;
    if !(10_000..=100_000).contains(&factor.0) {
        return Err(RowStop::Fault(RowFault::ParamRange(i128::from(factor.0))));
    }
    Ok(Entry {
        trade: &[],
        row: CrifRow::Multiplier { product, factor },
    })
}

/// The row of a record of this risk type.
fn entry_of<'a>(alloc: Global, kind: RiskType, fields: &Fields<'a>) -> Result<Entry<'a>, RowStop>
    ensures { GivesRow (λ e. record { trade = e.trade.now; row = e.row }) result
        (entry_of kind (texts fields.now)) }
{
    match kind {
        RiskType::IrCurve
        | RiskType::Inflation
        | RiskType::XccyBasis
        | RiskType::IrVol
        | RiskType::InflationVol
        | RiskType::CreditQ
        | RiskType::CreditVol
        | RiskType::CreditNonQ
        | RiskType::CreditVolNonQ
        | RiskType::BaseCorr
        | RiskType::Equity
        | RiskType::EquityVol
        | RiskType::Commodity
        | RiskType::CommodityVol
        | RiskType::Fx
        | RiskType::FxVol => sensitivity_of(alloc, kind, fields),
        RiskType::Notional => notional_of(alloc, fields),
        RiskType::AddOnNotionalFactor => notional_factor_of(alloc, fields),
        RiskType::AddOnFixedAmount => fixed_amount_of(fields),
        RiskType::ProductClassMultiplier => multiplier_of(fields),
        RiskType::Pv => Err(RowStop::Fault(RowFault::RiskType)),
    }
}

fn is_present_value(kind: RiskType) -> bool
    ensures { result ≡ is_present_value kind }
{
    matches!(kind, RiskType::Pv)
}

/// The row of a record of the model, or `None` where it is passed over.
#[tactic(auto, unfolding(crate::specs::Row::typed_of))]
fn typed_of<'a>(alloc: Global, fields: &Fields<'a>) -> Result<Option<Entry<'a>>, RowStop>
    ensures { GivesRow (λ o. option_map (λ e. record { trade = e.trade.now; row = e.row }) o)
        result (typed_of (texts fields.now)) }
{
    let kind = RiskType::read(fields.risk_type).ok_or(RowFault::RiskType)?;
    if is_present_value(kind) {
        return Ok(None);
    }
    match entry_of(alloc, kind, fields) {
        Ok(entry) => Ok(Some(entry)),
        Err(stop) => Err(stop),
    }
}

fn model_of<'a>(alloc: Global, fields: &Fields<'a>) -> Result<Option<Entry<'a>>, RowStop>
    ensures { GivesRow (λ o. option_map (λ e. record { trade = e.trade.now; row = e.row }) o)
        result (model_of (texts fields.now)) }
{
    if is_word("Schedule", fields.im_model) {
        return Ok(None);
    }
    typed_of(alloc, fields)
}

/// The row of the newest record, or `None` where the record is passed over: a present value, or a
/// record of the schedule.
pub fn row_of<'a>(
    alloc: Global,
    columns: &Columns,
    records: &'a Records,
) -> Result<Option<Entry<'a>>, RowStop>
    requires { IsReading records.now }
    ensures { GivesRow (λ o. option_map (λ e. record { trade = e.trade.now; row = e.row }) o)
        result (row_of columns.now (newest records.now)) }
{
    if records.field_count() > columns.count {
        return Err(RowStop::Fault(RowFault::FieldCount));
    }
    match Fields::read(columns, records) {
        Some(texts) => model_of(alloc, &texts),
        None => Err(RowStop::Fault(RowFault::NotUtf8)),
    }
}
