ghost use Rattle.std.specs.Prelude.{◌≡◌, ◌++◌, OnOk, decimal, map};
ghost use Rattle.std.specs.List.{flat_map};
ghost use Rattle.crif_reader.specs.Faults.{crif_fault_number};
ghost use Rattle.fault_text.specs.Fields.{field, numbered_line};
ghost use Rattle.fault_text.specs.CrifLine.{crif_fields};
ghost use Rattle.fault_text.specs.ParamsLine.{params_fields};
ghost use Rattle.params_file.specs.Faults.{param_fault_number};
ghost use Rattle.fault_text.specs.FeedFields.{refused_fields};
ghost use Rattle.margin_text.specs.Feeds.{name_at, refused_line, feed_line, feed_text};

use crif_reader::CrifFault;
use csa_terms::BothTerms;
use fault_text::{
    push_crif_fields, push_end, push_field, push_last_number, push_number, push_params_fields,
    push_refused_fields, push_refused_number,
};
use feed_gate::{FeedReport, RefusedMessage};
use feed_runs::FeedEnd;
use mh_units::Text;
use params_file::ParamFault;
use std::alloc::AllocError;

/// Adds the line of a block that was refused with this number, and with the first fault of
/// its records.
fn push_refused_block(
    text: &mut Text,
    feed: u32,
    line: u32,
    number: u8,
    fault: CrifFault,
) -> Result<(), AllocError>
    ensures { OnOk result (text.new ≡ text.old ++ numbered_line (refused_fields feed line
        ++ field (decimal number)) (crif_fault_number fault) (λ code. crif_fields code fault)) }
{
    let Some(code) = fault.number() else {
        return Ok(());
    };
    push_refused_fields(text, feed, line)?;
    push_number(text, number)?;
    push_crif_fields(text, code, fault)
}

/// Adds the line of a block of tables that was refused with this number, and with the first fault
/// of its grammar.
fn push_refused_tables(
    text: &mut Text,
    feed: u32,
    line: u32,
    number: u8,
    fault: &ParamFault,
) -> Result<(), AllocError>
    ensures { OnOk result
        (text.new ≡ text.old ++ numbered_line (refused_fields feed line ++ field (decimal number))
        (param_fault_number fault.now) (λ code. params_fields code fault.now)) }
{
    let Some(code) = fault.number() else {
        return Ok(());
    };
    push_refused_fields(text, feed, line)?;
    push_number(text, number)?;
    push_params_fields(text, code, fault)
}

/// Adds the field of the name of the set at a place, from 0.
fn push_set_name(text: &mut Text, sets: &[BothTerms], place: u32) -> Result<(), AllocError>
    ensures { OnOk result
        (text.new ≡ text.old ++ field (name_at (map (λ s. s.collect.name) sets.now) place)) }
{
    match sets.get(place as usize) {
        Some(set) => push_field(text, set.name().bytes()),
        None => push_field(text, b""),
    }
}

/// Adds the line of a refused message.
fn push_refused(
    text: &mut Text,
    feed: u32,
    sets: &[BothTerms],
    message: &RefusedMessage,
) -> Result<(), AllocError>
    ensures { OnOk result (text.new
        ≡ text.old ++ refused_line feed (map (λ s. s.collect.name) sets.now) message.now) }
{
    let number = message.number();
    match message {
        RefusedMessage::BadLine { line } | RefusedMessage::UnknownSet { line } => {
            push_refused_number(text, feed, *line, number)
        }
        RefusedMessage::BadBatch { line, fault } => {
            push_refused_block(text, feed, *line, number, *fault)
        }
        RefusedMessage::BadTables { line, fault } => {
            push_refused_tables(text, feed, *line, number, fault)
        }
        RefusedMessage::LongTables { line, bytes } => {
            push_refused_fields(text, feed, *line)?;
            push_number(text, number)?;
            push_last_number(text, *bytes)
        }
        RefusedMessage::Full {
            line,
            set,
            entries,
            rows,
        } => {
            push_refused_fields(text, feed, *line)?;
            push_number(text, number)?;
            push_set_name(text, sets, *set)?;
            push_number(text, *entries)?;
            push_last_number(text, *rows)
        }
    }
}

/// Adds the lines of refused messages.
fn push_all_refused(
    text: &mut Text,
    feed: u32,
    sets: &[BothTerms],
    messages: &[RefusedMessage],
) -> Result<(), AllocError>
    ensures { OnOk result (text.new ≡ text.old
        ++ flat_map (refused_line feed (map (λ s. s.collect.name) sets.now)) messages.now) }
{
    for message in messages {
        push_refused(text, feed, sets, message)?;
    }
    Ok(())
}

/// Adds the feed's own line.
fn push_feed_line(
    text: &mut Text,
    feed: u32,
    done: u32,
    refused: u64,
    end: FeedEnd,
) -> Result<(), AllocError>
    ensures { OnOk result (text.new ≡ text.old ++ feed_line feed done refused end) }
{
    push_field(text, b"FEED")?;
    push_number(text, feed)?;
    push_number(text, done)?;
    push_number(text, refused)?;
    push_end(text, end)
}

/// Adds the printed report of a feed: a line for each message that made no call, in the feed's
/// order, then one with the feed's number, how many of its messages stand in a journal, how many
/// were refused, and how it ended. `sets` are the terms of the sets, in the order from which
/// messages count them.
///
/// # Errors
///
/// For want of memory alone.
pub fn push_report(
    text: &mut Text,
    feed: u32,
    sets: &[BothTerms],
    report: &FeedReport,
) -> Result<(), AllocError>
    ensures { OnOk result (text.new ≡ text.old ++ feed_text feed
        (map (λ s. s.collect.name) sets.now) report.now.done report.now.refused report.now.end) }
{
    let refused = report.refused.as_slice();
    push_all_refused(text, feed, sets, refused)?;
    push_feed_line(text, feed, report.done, refused.len() as u64, report.end)
}
