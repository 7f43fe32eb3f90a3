//! The fields of an event in its entry's line.
ghost use Rattle.std.specs.Prelude.{◌≡◌, ◌++◌, OnOk, length, codes, decimal};
ghost use Rattle.std.specs.List.{flat_map};
ghost use Rattle.side_events.specs.declared.side_event.SideEvent.TheVariants as events;
ghost use Rattle.fault_text.specs.Fields.{field};
ghost use Rattle.margin_text.specs.Journal.{currency_word, side_fields, event_fields, posted_field};

use csa_terms::{LotCurrency, Moment, push_moment};
use fault_text::{push_amount, push_field, push_number};
use feed_gate::set_core::Event;
use mh_units::Text;
use side_events::SideEvent;
use simm_kinds::{MarginSide, Name};
use std::alloc::AllocError;

/// Adds the fields of a submit.
fn push_submit(text: &mut Text, trades: usize, rows: usize) -> Result<(), AllocError>
    ensures { OnOk result (text.new
        ≡ text.old ++ (field (codes "SUBMIT") ++ field (decimal trades) ++ field (decimal rows))) }
{
    push_field(text, b"SUBMIT")?;
    push_number(text, trades)?;
    push_number(text, rows)
}

/// Adds each name as a field.
fn push_names(text: &mut Text, names: &[Name]) -> Result<(), AllocError>
    ensures { OnOk result (text.new ≡ text.old ++ flat_map field names.now) }
{
    for name in names {
        push_field(text, name.bytes())?;
    }
    Ok(())
}

/// Adds the fields of a withdrawal.
fn push_withdrawal(text: &mut Text, names: &[Name]) -> Result<(), AllocError>
    ensures { OnOk result (text.new ≡ text.old ++ (field (codes "WITHDRAW")
        ++ field (decimal (length names.now)) ++ flat_map field names.now)) }
{
    push_field(text, b"WITHDRAW")?;
    push_number(text, names.len())?;
    push_names(text, names)
}

/// Adds the fields of tables, whose text has so many bytes.
fn push_tables(text: &mut Text, bytes: usize) -> Result<(), AllocError>
    ensures { OnOk result
        (text.new ≡ text.old ++ (field (codes "TABLES") ++ field (decimal bytes))) }
{
    push_field(text, b"TABLES")?;
    push_number(text, bytes)
}

/// Adds a word and a lot as fields.
fn push_lot(text: &mut Text, word: &[u8], lot: &Name) -> Result<(), AllocError>
    ensures { OnOk result (text.new ≡ text.old ++ (field word.now ++ field lot.now)) }
{
    push_field(text, word)?;
    push_field(text, lot.bytes())
}

/// The word of a lot's currency.
fn currency_word(currency: LotCurrency) -> &'static [u8]
    ensures { result.now ≡ currency_word currency }
{
    match currency {
        LotCurrency::Same => b"same",
        LotCurrency::Other => b"other",
    }
}

/// Adds the fields of a lot that is put.
fn push_put(
    text: &mut Text,
    lot: &Name,
    class: &Name,
    value: i64,
    currency: LotCurrency,
) -> Result<(), AllocError>
    ensures { OnOk result
        (text.new ≡ text.old ++ side_fields (events.PutLot lot.now class.now value currency)) }
{
    push_lot(text, b"PUT", lot)?;
    push_field(text, class.bytes())?;
    push_amount(text, value)?;
    push_field(text, currency_word(currency))
}

/// Adds the fields of a mark.
fn push_mark(text: &mut Text, lot: &Name, value: i64) -> Result<(), AllocError>
    ensures { OnOk result (text.new ≡ text.old ++ side_fields (events.MarkLot lot.now value)) }
{
    push_lot(text, b"MARK", lot)?;
    push_amount(text, value)
}

/// Adds the fields of a call that is closed.
fn push_close(text: &mut Text, number: u32) -> Result<(), AllocError>
    ensures { OnOk result (text.new ≡ text.old ++ side_fields (events.CloseCall number)) }
{
    push_field(text, b"CLOSE")?;
    push_number(text, number)
}

/// Adds the fields of a demand.
fn push_demand(text: &mut Text, moment: Moment) -> Result<(), AllocError>
    ensures { OnOk result (text.new ≡ text.old ++ side_fields (events.AskCall moment)) }
{
    push_field(text, b"CALL")?;
    push_moment(text, moment)?;
    text.push(b'\t')
}

/// Adds the fields of an event beside the trades.
fn push_side(text: &mut Text, event: &SideEvent) -> Result<(), AllocError>
    ensures { OnOk result (text.new ≡ text.old ++ side_fields event.now) }
{
    match event {
        SideEvent::PutLot {
            lot,
            class,
            value,
            currency,
        } => push_put(text, lot, class, *value, *currency),
        SideEvent::TakeLot { lot } => push_lot(text, b"TAKE", lot),
        SideEvent::MarkLot { lot, value } => push_mark(text, lot, *value),
        SideEvent::CloseCall { number } => push_close(text, *number),
        SideEvent::AskMargin => push_field(text, b"ASK"),
        SideEvent::AskCall { moment } => push_demand(text, *moment),
    }
}

/// Adds the field of an event of what a set posts; that which it collects has none.
fn push_posted(text: &mut Text, side: MarginSide) -> Result<(), AllocError>
    ensures { OnOk result (text.new ≡ text.old ++ posted_field side) }
{
    match side {
        MarginSide::Collect => Ok(()),
        MarginSide::Post => push_field(text, b"post"),
    }
}

/// Adds the fields of an event.
pub(crate) fn push_event(text: &mut Text, event: &Event) -> Result<(), AllocError>
    ensures { OnOk result (text.new ≡ text.old ++ event_fields event.now) }
{
    match event {
        Event::Submit(batch) => push_submit(text, batch.trades().len(), event.row_count()),
        Event::Withdraw(names) => push_withdrawal(text, names.as_slice()),
        Event::Tables(tables) => push_tables(text, tables.text().len()),
        Event::OnSide { side, event } => {
            push_side(text, event)?;
            push_posted(text, *side)
        }
    }
}
