//! A feed from its next line to its end.
ghost use Rattle.std.specs.Prelude.{◌≡◌, ◌^◌, ◌-◌, ◌<◌, ◌≤◌, List, None, Some};
ghost use Rattle.feed_events.specs.FeedReader.MhIo.Lined.{Lined};
ghost use Rattle.feed_events.specs.FeedReader.Feed.{Item, Sent};
ghost use Rattle.feed_events.specs.FeedReader.Answers.{TellsItems};
ghost use Rattle.feed_gate.specs.declared.report.RefusedMessage.TheVariants as refused;
ghost use Rattle.feed_gate.specs.Seats.{AreNamed, AreSeats};
ghost use Rattle.feed_gate.specs.Run.{Reports};
ghost use Rattle.feed_gate.specs.Jobs.{Takes, Meets, RanFeed};

use crate::fate::fate_of;
use crate::set_call::make_call;
use crate::{FeedJob, FeedReport, RefusedMessage};
use feed_events::crif_reader::simm_kinds::Name;
use feed_events::feed_reader::mh_io::Source;
use feed_events::feed_reader::{Fed, FeedFault, next_message};
use feed_events::set_core::SetState;
use feed_events::set_core::held_cell::HeldCell;
use feed_runs::{FeedEnd, Gate};
use std::alloc::Global;
use std::sync::Wait;

/// Takes the messages of a feed one after another, each as a call on the set that it names, until
/// the feed ends. A message of which there is no entry is reported, and the feed goes on.
pub(crate) fn run_feed<R: Wait, S: Source, G: Gate>(
    rt: &R,
    alloc: Global,
    cells: &[HeldCell<SetState>],
    names: &[Name],
    gate: &G,
    job: &mut FeedJob<S>,
)
    requires named { AreNamed names.now cells.now }
    requires seats { AreSeats cells.now job.old.seats.items }
    ensures { RanFeed S.seen names.now job.old job.new }
{
    job.report = FeedReport::new(alloc);
    loop {
        if let Some(end) = take_item(rt, alloc, cells, names, gate, job) {
            job.report.end = end;
            return;
        }
        let _given = job.lines.given();
    }
}

/// Takes the next message, or tells how the feed ended.
fn take_item<R: Wait, S: Source, G: Gate>(
    rt: &R,
    alloc: Global,
    cells: &[HeldCell<SetState>],
    names: &[Name],
    gate: &G,
    job: &mut FeedJob<S>,
) -> Option<FeedEnd>
    requires named { AreNamed names.now cells.now }
    requires seats { AreSeats cells.now job.old.seats.items }
    requires few { job.old.report.done ≤ job.old.lines.given }
    ensures takes { (first : Lined S) (told : List Item)
        → TellsItems S.seen first job.old.lines told
        → Takes S.seen names.now first told job.old job.new result }
    ensures number { job.new.number ≡ job.old.number }
    ensures forward { result ≡ None → job.old.lines.given < job.new.lines.given }
{
    // No feed has more lines than bytes, so the messages can be counted.
    let _given = job.lines.given();
    match next_message(alloc, &mut job.lines) {
        Ok(Some(fed)) => take_message(rt, alloc, cells, names, gate, job, fed),
        Ok(None) => Some(FeedEnd::End),
        Err(FeedFault::BadLine { line }) => take_bad_line(&mut job.report, line),
        Err(FeedFault::Cut { line }) => Some(FeedEnd::Cut { line }),
        Err(FeedFault::LineLong { line }) => Some(FeedEnd::LineLong { line }),
        Err(FeedFault::TooLong { taken }) => Some(FeedEnd::TooLong { taken }),
        Err(FeedFault::ReadFault) => Some(FeedEnd::ReadFault),
        Err(FeedFault::Memory { line }) => Some(FeedEnd::Memory { line }),
    }
}

/// Makes a message's call and reports it, or tells that there was no memory for it.
fn take_message<R: Wait, S: Source, G: Gate>(
    rt: &R,
    alloc: Global,
    cells: &[HeldCell<SetState>],
    names: &[Name],
    gate: &G,
    job: &mut FeedJob<S>,
    fed: Fed,
) -> Option<FeedEnd>
    requires named { AreNamed names.now cells.now }
    requires seats { AreSeats cells.now job.old.seats.items }
    requires few { job.old.report.done < 2 ^ 32 - 1 }
    ensures meets { Meets names.now (Sent fed) job.old job.new result }
    ensures lines { job.new.lines ≡ job.old.lines }
    ensures number { job.new.number ≡ job.old.number }
{
    let line = fed.line;
    let Ok(fate) = fate_of(alloc, names, fed) else {
        return Some(FeedEnd::Memory { line });
    };
    let number = job.number;
    match make_call(rt, cells, gate, number, &mut job.seats, fate) {
        Ok(None) => {
            job.report.done += 1;
            None
        }
        Ok(Some(refused)) => refuse(&mut job.report, refused, line),
        Err(_) => Some(FeedEnd::Memory { line }),
    }
}

/// Reports a line that is no message, or tells that there was no memory for it.
fn take_bad_line(report: &mut FeedReport, line: u32) -> Option<FeedEnd>
    ensures { Reports report.old report.new line (Some (refused.BadLine line)) result }
{
    refuse(report, RefusedMessage::BadLine { line }, line)
}

fn refuse(report: &mut FeedReport, refused: RefusedMessage, line: u32) -> Option<FeedEnd>
    ensures { Reports report.old report.new line (Some refused) result }
{
    match report.refused.push(refused) {
        Ok(()) => None,
        Err(_) => Some(FeedEnd::Memory { line }),
    }
}
