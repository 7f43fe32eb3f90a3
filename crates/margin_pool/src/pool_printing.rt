//! The text of a pool, and the status of a run that reached its feeds.
ghost use Rattle.std.specs.Prelude.{◌≡◌, ◌≤◌, ◌++◌, length, map, pos, decimal, IfOk, OnOk, OnErr};
ghost use Rattle.std.specs.List.{flat_map};
ghost use Rattle.mh_units.specs.Money.{money_text};
ghost use Rattle.fault_text.specs.Fields.{field};
ghost use Rattle.fault_text.specs.FeedFields.{end_field, refused_fields};
ghost use Rattle.feed_files.specs.CommandFiles.Texts.{TextGoes};
ghost use Rattle.margin_pool.specs.PoolText.{held_line, pool_text, refused_line};
ghost use Rattle.margin_pool.specs.PoolText.{report_text, rest_line, texts_from};
ghost use Rattle.margin_pool.specs.Pool.{PoolLeaves, end_of};
ghost use Rattle.margin_pool.specs.PoolStages.{status_at_end};

use crate::pool_files::Outcome;
use fault_text::{push_end, push_field, push_last_amount, push_number, push_refused_number};
use feed_files::command_files::{Printed, Status, put_texts};
use feed_files::status_of_end;
use feed_runs::FeedEnd;
use mh_io::Sink;
use mh_units::{Cents, Text, push_cents};
use pool_gate::PoolReport;
use std::alloc::{AllocError, Global};
use std::collections::VecDeque;

/// Adds the lines of a feed that are no message.
fn push_all_refused(text: &mut Text, feed: u32, lines: &[u32]) -> Result<(), AllocError>
    ensures { OnOk result (text.new ≡ text.old ++ flat_map (refused_line feed) lines.now) }
{
    for line in lines {
        push_refused_number(text, feed, *line, 1)?;
    }
    Ok(())
}

/// Adds what the set of a feed holds, and how the feed ended.
fn push_held(text: &mut Text, feed: u32, held: u64, end: FeedEnd) -> Result<(), AllocError>
    ensures { OnOk result (text.new ≡ text.old ++ held_line feed held end) }
{
    push_field(text, b"HELD")?;
    push_number(text, feed)?;
    push_cents(text, Cents(i128::from(held)))?;
    text.push(b'\t')?;
    push_end(text, end)
}

/// The whole text of a feed, of which the report has the messages.
fn report_text(feed: u32, report: PoolReport) -> Result<Text, AllocError>
    ensures { IfOk result (λ text. text ≡ report_text feed report) }
{
    let PoolReport {
        mut text,
        refused,
        held,
        end,
    } = report;
    push_all_refused(&mut text, feed, refused.as_slice())?;
    push_held(&mut text, feed, held, end)?;
    Ok(text)
}

/// The last line: what is left of the total.
fn rest_text(alloc: Global, rest: u64) -> Result<Text, AllocError>
    ensures { IfOk result (λ text. text ≡ rest_line rest) }
{
    let mut text = Text::new(alloc);
    push_field(&mut text, b"REST")?;
    push_last_amount(&mut text, i128::from(rest))?;
    Ok(text)
}

/// All that a pool prints, in parts.
fn outcome_texts(alloc: Global, run: Outcome) -> Result<Vec<Text>, AllocError>
    requires { length run.reports.items ≤ 32 }
    ensures { IfOk result (λ texts.
        flat_map (λ t. t) texts.items ≡ pool_text run.reports.items run.rest) }
{
    let Outcome { reports, rest } = run;
    let mut texts = Vec::with_capacity(alloc, reports.len())?;
    let mut waiting = VecDeque::from_vec(reports);
    while let Some(report) = waiting.pop_front() {
        let feed = texts.len() as u32;
        texts.push(report_text(feed, report)?)?;
    }
    texts.push(rest_text(alloc, rest)?)?;
    Ok(texts)
}

/// How the first feed ended that didn't end whole, or that all did.
fn end_of(reports: &[PoolReport]) -> FeedEnd
    ensures { result ≡ end_of reports.now }
{
    for report in reports {
        if report.end != FeedEnd::End {
            return report.end;
        }
    }
    FeedEnd::End
}

/// The status of a pool that was printed: the feeds' comes first, then the sink's.
fn status_at_end(end: FeedEnd, printed: Printed) -> Status
    ensures { result ≡ status_at_end end printed }
{
    match (status_of_end(end), printed) {
        (Status::Done, Printed::Cut) => Status::Write,
        (status, _) => status,
    }
}

/// Prints a pool whose feeds were run, and answers its status. Where there is no memory for the
/// text nothing is printed.
pub(crate) fn end_pool<K: Sink>(alloc: Global, out: &mut K, run: Outcome) -> Status
    requires { length run.reports.items ≤ 32 }
    ensures count { (K.seen out.old).faults ≤ (K.seen out.new).faults }
    ensures leaves { PoolLeaves run.reports.items run.rest (K.seen out.old)
        (K.seen out.new) result }
{
    let end = end_of(&run.reports);
    match outcome_texts(alloc, run) {
        Ok(texts) => status_at_end(end, put_texts(out, &texts)),
        Err(_) => Status::Memory,
    }
}
