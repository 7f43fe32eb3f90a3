//! The audit text of a set.
ghost use Rattle.std.specs.Prelude.{◌≡◌, ◌++◌, flat_map, OnOk};
ghost use Rattle.audit_file.specs.Written.{message_of, entry_text, audit_text};
ghost use Rattle.feed_writer.specs.Messages.{message_text};

use crate::reply_line::push_told;
use feed_events::set_core::{Entry, Event, SetState};
use feed_reader::csa_terms::simm_kinds::Name;
use feed_writer::{push_on_side, push_submit, push_tables, push_withdrawal};
use itoa::{Buffer, Integer};
use mh_io::mh_units::Text;
use std::alloc::{AllocError, Global};

/// Adds an event as the message that a feed has for this set.
fn push_event(alloc: Global, text: &mut Text, name: &Name, event: &Event) -> Result<(), AllocError>
    ensures { OnOk result (text.new ≡ text.old ++ message_text (message_of name.now event.now)) }
{
    match event {
        Event::Submit(batch) => push_submit(alloc, text, name, batch),
        Event::Tables(tables) => push_tables(text, name, tables.text()),
        Event::Withdraw(names) => push_withdrawal(text, name, names.as_slice()),
        Event::OnSide { side, event } => push_on_side(text, name, *side, event),
    }
}

/// Adds a whole number.
fn push_number<N: Integer>(text: &mut Text, number: N) -> Result<(), AllocError>
    ensures { OnOk result (text.new ≡ text.old ++ N.text number) }
{
    text.extend(Buffer::new().format(number).as_bytes())
}

/// Adds an entry: who called, the event, and the reply.
fn push_entry(alloc: Global, text: &mut Text, name: &Name, entry: &Entry) -> Result<(), AllocError>
    ensures { OnOk result (text.new ≡ text.old ++ entry_text name.now entry.now) }
{
    text.extend(b"BY\t")?;
    push_number(text, entry.caller)?;
    text.push(b'\n')?;
    push_event(alloc, text, name, &entry.event)?;
    text.extend(b"=\t")?;
    push_told(text, &entry.reply)?;
    text.push(b'\n')
}

/// Adds all entries of a set's journal.
fn push_entries(
    alloc: Global,
    text: &mut Text,
    name: &Name,
    set: &SetState,
) -> Result<(), AllocError>
    ensures { OnOk result (text.new ≡ text.old ++ flat_map (entry_text name.now) set.now.journal) }
{
    set.facts();
    for index in 0..set.entries() {
        if let Some(entry) = set.entry(index + 1) {
            push_entry(alloc, text, name, entry)?;
        }
    }
    Ok(())
}

/// Adds the audit text of a netting set: its name and how many entries it has, then each entry with
/// its caller, its event as the message that a feed has for this set, and its reply; of a margin
/// all 32 amounts.
///
/// # Errors
///
/// For want of memory alone; a front of the text may have been added then.
pub fn push_audit(
    alloc: Global,
    text: &mut Text,
    name: &Name,
    set: &SetState,
) -> Result<(), AllocError>
    ensures { OnOk result (text.new ≡ text.old ++ audit_text name.now set.now.journal) }
{
    text.extend(b"AUDIT\t")?;
    text.extend(name.bytes())?;
    text.push(b'\t')?;
    push_number(text, set.entries())?;
    text.push(b'\n')?;
    push_entries(alloc, text, name, set)
}
