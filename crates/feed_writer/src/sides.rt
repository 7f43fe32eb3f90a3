//! The messages that ask for something beside the trades.
ghost use Rattle.std.specs.Prelude.{◌≡◌, ◌++◌, flat_map, OnOk};
ghost use Rattle.feed_reader.specs.SideEvents.declared.side_event.SideEvent.TheVariants as side;
ghost use Rattle.feed_reader.specs.declared.message.Message.TheVariants as message;
ghost use Rattle.feed_writer.specs.Messages.{next_field, line_of, side_fields};
ghost use Rattle.feed_writer.specs.Messages.{last_fields, message_text};

use crate::fields::{push_amount, push_currency, push_next, push_number, push_start, push_time};
use feed_reader::csa_terms::LotCurrency;
use feed_reader::csa_terms::simm_kinds::{MarginSide, Name};
use feed_reader::mh_units::Text;
use feed_reader::side_events::SideEvent;
use std::alloc::AllocError;

/// Adds the fields of a lot that is put.
fn push_put(
    text: &mut Text,
    set: &Name,
    lot: &Name,
    class: &Name,
    value: i64,
    currency: LotCurrency,
) -> Result<(), AllocError>
    ensures { OnOk result (text.new ≡ text.old
        ++ line_of (side_fields set.now (side.PutLot lot.now class.now value currency))) }
{
    push_start(text, b"PUT", set)?;
    push_next(text, lot.bytes())?;
    push_next(text, class.bytes())?;
    push_amount(text, value)?;
    push_currency(text, currency)
}

/// Adds the fields of a lot that is taken.
fn push_take(text: &mut Text, set: &Name, lot: &Name) -> Result<(), AllocError>
    ensures { OnOk result
        (text.new ≡ text.old ++ line_of (side_fields set.now (side.TakeLot lot.now))) }
{
    push_start(text, b"TAKE", set)?;
    push_next(text, lot.bytes())
}

/// Adds the fields of a lot's mark.
fn push_mark(text: &mut Text, set: &Name, lot: &Name, value: i64) -> Result<(), AllocError>
    ensures { OnOk result
        (text.new ≡ text.old ++ line_of (side_fields set.now (side.MarkLot lot.now value))) }
{
    push_start(text, b"MARK", set)?;
    push_next(text, lot.bytes())?;
    push_amount(text, value)
}

/// Adds the fields of an event beside the trades.
fn push_side(text: &mut Text, set: &Name, event: &SideEvent) -> Result<(), AllocError>
    ensures { OnOk result (text.new ≡ text.old ++ line_of (side_fields set.now event.now)) }
{
    match event {
        SideEvent::PutLot {
            lot,
            class,
            value,
            currency,
        } => push_put(text, set, lot, class, *value, *currency),
        SideEvent::TakeLot { lot } => push_take(text, set, lot),
        SideEvent::MarkLot { lot, value } => push_mark(text, set, lot, *value),
        SideEvent::CloseCall { number } => {
            push_start(text, b"CLOSE", set)?;
            push_number(text, *number)
        }
        SideEvent::AskMargin => push_start(text, b"ASK", set),
        SideEvent::AskCall { moment } => {
            push_start(text, b"CALL", set)?;
            push_time(text, *moment)
        }
    }
}

/// Adds the word of the posted side behind another field.
fn push_last(text: &mut Text, side: MarginSide) -> Result<(), AllocError>
    ensures { OnOk result (text.new ≡ text.old ++ flat_map next_field (last_fields side)) }
{
    match side {
        MarginSide::Collect => Ok(()),
        MarginSide::Post => push_next(text, b"post"),
    }
}

/// Adds the line that asks a set, on a side of the margin, for an event beside the trades.
///
/// # Errors
///
/// For want of memory alone; a front of the line may have been added then.
pub fn push_on_side(
    text: &mut Text,
    set: &Name,
    side: MarginSide,
    event: &SideEvent,
) -> Result<(), AllocError>
    ensures { OnOk result
        (text.new ≡ text.old ++ message_text (message.OnSide set.now side event.now)) }
{
    push_side(text, set, event)?;
    push_last(text, side)?;
    text.push(b'\n')
}
