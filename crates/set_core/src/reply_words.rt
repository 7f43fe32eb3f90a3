ghost use Rattle.std.specs.Prelude.{◌≡◌, ◌++◌, codes, IfOk, OnOk};
ghost use Rattle.collateral_ledger.specs.CsaTerms.Moments.{day_text};
ghost use Rattle.collateral_ledger.specs.MhUnits.Money.{money_text};
ghost use Rattle.set_core.specs.Text.{refusal_text, flow_text, basis_text};
ghost use Rattle.set_core.specs.Text.{call_text, note_text, reply_text};

use crate::{CallNote, Refusal, Reply};
use collateral_ledger::csa_terms::{Flow, push_day};
use collateral_ledger::mh_units::{Cents, Text, push_cents};
use itoa::{Buffer, Integer};
use std::alloc::{AllocError, Global};

/// The printed text of a reply, its fields parted by tabs, without the end of the line. Of a
/// margin it is the total.
///
/// # Errors
///
/// For want of memory alone.
pub fn reply_text(alloc: Global, reply: &Reply) -> Result<Text, AllocError>
    ensures { IfOk result (λ text. text ≡ reply_text reply.now) }
{
    let mut text = Text::new(alloc);
    push_reply(&mut text, reply)?;
    Ok(text)
}

/// Adds the printed text of a reply, as `reply_text` gives it.
///
/// # Errors
///
/// For want of memory alone; then a front of it may have been added.
pub fn push_reply(text: &mut Text, reply: &Reply) -> Result<(), AllocError>
    ensures { OnOk result (text.new ≡ text.old ++ reply_text reply.now) }
{
    match reply {
        Reply::Accepted => text.extend(b"OK"),
        Reply::Refused(refusal) => push_refusal(text, *refusal),
        Reply::Margin(margin) => {
            text.extend(b"MARGIN")?;
            push_amount(text, margin.parts().total.0)
        }
        Reply::Called(note) => push_note(text, note),
        Reply::NoCall {
            excess,
            margin,
            booked,
        } => {
            text.extend(b"NOCALL")?;
            push_amount(text, *excess)?;
            push_basis(text, *margin, *booked)
        }
    }
}

/// Adds the text of a refusal.
fn push_refusal(text: &mut Text, refusal: Refusal) -> Result<(), AllocError>
    ensures { OnOk result (text.new ≡ text.old ++ refusal_text refusal) }
{
    text.extend(b"REFUSED")?;
    push_number(text, refusal.number())?;
    match refusal {
        Refusal::UnknownTrade { place } => push_number(text, place),
        Refusal::BucketUnknown { trade, row } => {
            push_number(text, trade)?;
            push_number(text, row)
        }
        Refusal::Range(fault) => {
            push_number(text, fault.which.number())?;
            push_number(text, fault.value)?;
            push_number(text, fault.limit)
        }
        Refusal::LotRange(value) => push_amount(text, i128::from(value)),
        Refusal::LotsFull(count) => push_number(text, count),
        Refusal::DayRange(day) => push_number(text, day),
        Refusal::LotKnown | Refusal::LotUnknown | Refusal::ClassUnknown | Refusal::CallUnknown =>
            Ok(()),
    }
}

/// Adds the text of a call.
fn push_note(text: &mut Text, note: &CallNote) -> Result<(), AllocError>
    ensures { OnOk result (text.new ≡ text.old ++ note_text note.now) }
{
    push_call(text, note)?;
    push_due(text, note.due)?;
    push_basis(text, note.margin, note.booked)
}

/// Adds the number and the amount of a call.
fn push_call(text: &mut Text, note: &CallNote) -> Result<(), AllocError>
    ensures { OnOk result (text.new ≡ text.old ++ call_text note.now) }
{
    text.extend(flow_word(note.flow))?;
    push_number(text, note.number)?;
    push_amount(text, i128::from(note.amount))
}

/// Adds the margin, and what was booked.
fn push_basis(text: &mut Text, margin: i128, booked: i128) -> Result<(), AllocError>
    ensures { OnOk result (text.new ≡ text.old ++ basis_text margin booked) }
{
    push_amount(text, margin)?;
    push_amount(text, booked)
}

/// Adds a tab and a day.
fn push_due(text: &mut Text, day: i32) -> Result<(), AllocError>
    ensures { OnOk result (text.new ≡ text.old ++ (codes "\t" ++ day_text day)) }
{
    text.push(b'\t')?;
    push_day(text, day)
}

fn flow_word(flow: Flow) -> &'static [u8]
    ensures { result.now ≡ flow_text flow }
{
    match flow {
        Flow::Delivery => b"DELIVERY",
        Flow::Return => b"RETURN",
    }
}

/// Adds a tab and a whole number.
fn push_number<N: Integer>(text: &mut Text, number: N) -> Result<(), AllocError>
    ensures { OnOk result (text.new ≡ text.old ++ (codes "\t" ++ N.text number)) }
{
    text.push(b'\t')?;
    text.extend(Buffer::new().format(number).as_bytes())
}

/// Adds a tab and an amount of money, which is in cents.
fn push_amount(text: &mut Text, cents: i128) -> Result<(), AllocError>
    ensures { OnOk result (text.new ≡ text.old ++ (codes "\t" ++ money_text cents)) }
{
    text.push(b'\t')?;
    push_cents(text, Cents(cents))
}
