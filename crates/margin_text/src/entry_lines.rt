//! The lines of an entry: its own, and those under it.
ghost use Rattle.std.specs.Prelude.{◌≡◌, ◌++◌, OnOk};
ghost use Rattle.margin_text.specs.Journal.{event_lines, reply_lines, entry_line, entry_lines};

use crate::event_fields::push_event;
use crate::trade_lines::push_trades;
use breakdown_text::push_margin_parts;
use fault_text::{push_field, push_number};
use feed_gate::set_core::{Entry, Event, Reply, push_reply};
use mh_units::Text;
use std::alloc::AllocError;

/// Adds the lines of an event under its entry's line.
fn push_event_lines(text: &mut Text, event: &Event) -> Result<(), AllocError>
    ensures { OnOk result (text.new ≡ text.old ++ event_lines event.now) }
{
    match event {
        Event::Submit(batch) => push_trades(text, batch.trades()),
        Event::Withdraw(_) | Event::Tables(_) | Event::OnSide { .. } => Ok(()),
    }
}

/// Adds the lines of a reply under its entry's line.
fn push_reply_lines(text: &mut Text, reply: &Reply) -> Result<(), AllocError>
    ensures { OnOk result (text.new ≡ text.old ++ reply_lines reply.now) }
{
    match reply {
        Reply::Margin(margin) => push_margin_parts(text, margin.parts()),
        Reply::Accepted | Reply::Refused(_) | Reply::Called(_) | Reply::NoCall { .. } => Ok(()),
    }
}

/// Adds an entry's own line.
fn push_entry_line(text: &mut Text, number: u32, entry: &Entry) -> Result<(), AllocError>
    ensures { OnOk result (text.new ≡ text.old ++ entry_line number entry.now) }
{
    push_number(text, number)?;
    push_number(text, entry.caller)?;
    push_event(text, &entry.event)?;
    push_field(text, b"=")?;
    push_reply(text, &entry.reply)?;
    text.push(b'\n')
}

/// Adds an entry's line, and the lines under it.
pub(crate) fn push_entry(text: &mut Text, number: u32, entry: &Entry) -> Result<(), AllocError>
    ensures { OnOk result (text.new ≡ text.old ++ entry_lines number entry.now) }
{
    push_entry_line(text, number, entry)?;
    push_event_lines(text, &entry.event)?;
    push_reply_lines(text, &entry.reply)
}
