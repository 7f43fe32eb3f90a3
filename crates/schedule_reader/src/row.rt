//! The row of a record.
ghost use Rattle.std.specs.Prelude.{◌≡◌, true, option_map, IfOk, IfSome};
ghost use Rattle.std.specs.Result.{result_map_both};
ghost use Rattle.crif_records.specs.Reading.{newest, IsReading};
ghost use Rattle.crif_records.specs.SimmKinds.NameText.{IsName};
ghost use Rattle.schedule_im.specs.Parts.{has_end};
ghost use Rattle.schedule_reader.specs.Fields.{texts};
ghost use Rattle.schedule_reader.specs.Row.{entry_row, class_named, kind_of, trade_of, class_of};
ghost use Rattle.schedule_reader.specs.Row.{amount_of, end_of, scheduled_of, model_of, row_of};
ghost use Rattle.schedule_reader.specs.Row.{IsGoodEntry};

use crate::ScheduleRowFault;
use crate::columns::Columns;
use crate::fields::Fields;
use crif_records::mh_units::read_cents;
use crif_records::simm_kinds::Name;
use crif_records::{Records, is_word, usd_text};
use schedule_im::{EndDate, ScheduleClass, ScheduleKind, ScheduleRow};
use std::alloc::{AllocError, Global};

/// A row whose trade's name the record lends.
#[derive(Clone, Copy)]
pub struct Entry<'a> {
    /// The name of the trade.
    pub trade: &'a [u8],
    /// Its product class.
    pub class: ScheduleClass,
    /// Whether the amount is the notional or the present value.
    pub kind: ScheduleKind,
    /// The amount in USD cents.
    pub amount: i64,
    /// The day on which the trade ends, where the rate hangs on it.
    pub end: Option<EndDate>,
}

impl Entry<'_> {
    /// The row with a name of its own. The only error is want of memory.
    pub fn into_row(self, alloc: Global) -> Result<ScheduleRow, AllocError>
        requires { IsName self.trade.now }
        ensures { IfOk result (λ row. row ≡ entry_row self.entry) }
    {
        Ok(ScheduleRow {
            trade: Name::of_bytes(alloc, self.trade)?,
            class: self.class,
            kind: self.kind,
            amount: self.amount,
            end: self.end,
        })
    }
}

fn kind_of(fields: &Fields) -> Result<ScheduleKind, ScheduleRowFault>
    ensures { result ≡ kind_of (texts fields.now) }
{
    if is_word("Notional", fields.risk_type) {
        Ok(ScheduleKind::Notional)
    } else if is_word("PV", fields.risk_type) {
        Ok(ScheduleKind::Pv)
    } else {
        Err(ScheduleRowFault::RiskType)
    }
}

/// The name of the row's trade: it isn't empty.
fn trade_of<'a>(fields: &Fields<'a>) -> Result<&'a [u8], ScheduleRowFault>
    ensures value { result_map_both (λ trade. trade.now) (λ fault. fault) result
        ≡ trade_of (texts fields.now) }
    ensures name { IfOk result (λ trade. IsName trade.now) }
{
    if Name::is_full_name(fields.trade_id) {
        Ok(fields.trade_id)
    } else {
        Err(ScheduleRowFault::Trade)
    }
}

/// The class whose word a text is, in any ASCII case.
fn class_named(text: &[u8]) -> Option<ScheduleClass>
    ensures { result ≡ class_named text.now }
{
    ScheduleClass::ALL
        .iter()
        .copied()
        .find(|class| is_word(class.word(), text))
}

fn class_of(fields: &Fields) -> Result<ScheduleClass, ScheduleRowFault>
    ensures { result ≡ class_of (texts fields.now) }
{
    class_named(fields.product_class).ok_or(ScheduleRowFault::Class)
}

/// The amount in USD cents.
fn amount_of(fields: &Fields) -> Result<i64, ScheduleRowFault>
    ensures { result ≡ amount_of (texts fields.now) }
{
    let text = usd_text(fields.amount_usd, fields.amount_currency, fields.amount);
    match read_cents(text) {
        Ok(cents) => Ok(cents.0 as i64),
        Err(fault) => Err(ScheduleRowFault::Amount(fault)),
    }
}

/// The end of a trade: it is read where the rate hangs on it.
fn end_of(
    class: ScheduleClass,
    kind: ScheduleKind,
    fields: &Fields,
) -> Result<Option<EndDate>, ScheduleRowFault>
    ensures value { result ≡ end_of class kind (texts fields.now) }
    ensures ended { IfOk result (λ end. has_end class kind end ≡ true) }
{
    match (kind, class) {
        (ScheduleKind::Notional, ScheduleClass::Rates | ScheduleClass::Credit) => {
            match EndDate::read(fields.end_date) {
                Some(end) => Ok(Some(end)),
                None => Err(ScheduleRowFault::EndDate),
            }
        }
        _ => Ok(None),
    }
}

/// The row of a record of the schedule.
#[tactic(auto, unfolding(crate::specs::Row::scheduled_of))]
fn scheduled_of<'a>(fields: &Fields<'a>) -> Result<Entry<'a>, ScheduleRowFault>
    ensures value { result_map_both entry_row (λ fault. fault) result
        ≡ scheduled_of (texts fields.now) }
    ensures good { IfOk result (λ entry. IsGoodEntry entry) }
{
    let kind = kind_of(fields)?;
    let trade = trade_of(fields)?;
    let class = class_of(fields)?;
    let amount = amount_of(fields)?;
    let end = end_of(class, kind, fields)?;
    Ok(Entry {
        trade,
        class,
        kind,
        amount,
        end,
    })
}

/// The row of a record, or `None` where it is of another margin model and passed over.
fn model_of<'a>(fields: &Fields<'a>) -> Result<Option<Entry<'a>>, ScheduleRowFault>
    ensures value { result_map_both (λ o. option_map entry_row o) (λ fault. fault) result
        ≡ model_of (texts fields.now) }
    ensures good { IfOk result (λ o. IfSome o IsGoodEntry) }
{
    if !is_word("Schedule", fields.im_model) {
        return Ok(None);
    }
    match scheduled_of(fields) {
        Ok(entry) => Ok(Some(entry)),
        Err(fault) => Err(fault),
    }
}

/// The row of the newest record, or `None` where the record is of another margin model and
/// passed over.
pub fn row_of<'a>(
    columns: &Columns,
    records: &'a Records,
) -> Result<Option<Entry<'a>>, ScheduleRowFault>
    requires { IsReading records.now }
    ensures value { result_map_both (λ o. option_map entry_row o) (λ fault. fault) result
        ≡ row_of columns.now (newest records.now) }
    ensures good { IfOk result (λ o. IfSome o IsGoodEntry) }
{
    if records.field_count() > columns.count {
        return Err(ScheduleRowFault::FieldCount);
    }
    match Fields::read(columns, records) {
        Some(texts) => model_of(&texts),
        None => Err(ScheduleRowFault::NotUtf8),
    }
}
