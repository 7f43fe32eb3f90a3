//! A feed from its next line to its end.
ghost use Rattle.std.specs.Prelude.{◌≡◌, ◌<◌, ◌≤◌, List, None, IfSome};
ghost use Rattle.csa_terms.specs.Terms.{Agreement};
ghost use Rattle.mh_io.specs.Lined.{Lined};
ghost use Rattle.mh_io.specs.Limits.{most_bytes};
ghost use Rattle.threshold_pool.specs.Seats.{IsSeatOf};
ghost use Rattle.pool_feed.specs.declared.next.FedLine.{FedLine};
ghost use Rattle.pool_feed.specs.Requests.{IsInRange};
ghost use Rattle.pool_feed.specs.Answers.{Told};
ghost use Rattle.pool_gate.specs.Ends.{end_at};
ghost use Rattle.pool_gate.specs.Jobs.{Meets, RanJob, Takes};

use crate::answering::answer;
use crate::job::PoolJob;
use csa_terms::SetTerms;
use feed_runs::{FeedEnd, Gate};
use mh_io::{LineFault, Source};
use pool_feed::{FedLine, next_fed_line};
use std::sync::Wait;
use threshold_pool::Pool;

/// Takes the messages of a feed one after another, each as a call of its set on the pool, until
/// the feed ends. A line that is no message is reported, and the feed goes on.
pub(crate) fn run_feed<R: Wait, S: Source, G: Gate>(
    rt: &R,
    pool: &Pool,
    terms: &SetTerms,
    gate: &G,
    job: &mut PoolJob<S>,
)
    requires seat { IsSeatOf pool.now job.old.seat }
    ensures { RanJob S.seen terms.now job.old job.new }
{
    loop {
        if let Some(end) = take_line(rt, pool, terms, gate, job) {
            job.report.end = end;
            return;
        }
        let _given = job.lines.given();
    }
}

/// How a feed ends at a fault behind so many lines.
fn end_at(fault: LineFault, given: u32) -> FeedEnd
    requires { given ≤ most_bytes }
    ensures { result ≡ end_at fault given }
{
    let line = given + 1;
    match fault {
        LineFault::ReadFault => FeedEnd::ReadFault,
        LineFault::LineLong => FeedEnd::LineLong { line },
        LineFault::TooLong { taken } => FeedEnd::TooLong { taken },
        LineFault::Memory => FeedEnd::Memory { line },
    }
}

/// Takes the next line, or tells how the feed ended.
fn take_line<R: Wait, S: Source, G: Gate>(
    rt: &R,
    pool: &Pool,
    terms: &SetTerms,
    gate: &G,
    job: &mut PoolJob<S>,
) -> Option<FeedEnd>
    requires seat { IsSeatOf pool.now job.old.seat }
    ensures takes { (first : Lined S) (told : List FedLine) → Told S.seen first job.old.lines told
        → Takes S.seen terms.now first told job.old job.new result }
    ensures forward { result ≡ None → job.old.lines.given < job.new.lines.given }
{
    match next_fed_line(&mut job.lines, &mut job.room) {
        Ok(Some(item)) => meet(rt, pool, terms, gate, job, item),
        Ok(None) => Some(FeedEnd::End),
        Err(fault) => Some(end_at(fault, job.lines.given())),
    }
}

/// Replies to a line or reports it, or tells that there was no memory for it.
fn meet<R: Wait, S: Source, G: Gate>(
    rt: &R,
    pool: &Pool,
    terms: &SetTerms,
    gate: &G,
    job: &mut PoolJob<S>,
    item: FedLine,
) -> Option<FeedEnd>
    requires seat { IsSeatOf pool.now job.old.seat }
    requires range { IfSome item.request IsInRange }
    ensures { Meets terms.now item job.old job.new result }
{
    let FedLine { line, request } = item;
    let Some(request) = request else {
        return refuse(job, line);
    };
    gate.before_call(job.number, job.number);
    let answered = answer(rt, pool, terms, job, line, request);
    gate.after_call(job.number, job.number);
    match answered {
        Ok(()) => None,
        Err(_) => Some(FeedEnd::Memory { line }),
    }
}

/// Reports a line that is no message, or tells that there was no memory for it.
fn refuse<S: Source>(job: &mut PoolJob<S>, line: u32) -> Option<FeedEnd>
    ensures { (terms : Agreement)
        → Meets terms (record { line = line; request = None }) job.old job.new result }
{
    match job.report.refused.push(line) {
        Ok(()) => None,
        Err(_) => Some(FeedEnd::Memory { line }),
    }
}
