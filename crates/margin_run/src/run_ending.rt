//! How a run ends that reached its feeds: it is printed, the desks are told, and then it has
//! a status.
ghost use Rattle.std.specs.Prelude.{◌≡◌, ◌<◌, ◌≤◌, ◌^◌, map, length};
ghost use Rattle.std.specs.Vec.{vec_len};
ghost use Rattle.margin_run.specs.Desks.{desks_of};
ghost use Rattle.margin_run.specs.Run.{end_of, RunLeaves};
ghost use Rattle.margin_run.specs.RunStages.{status_of_desks, status_at_end};

use crate::account::Account;
use crate::run_files::Outcome;
use crate::run_printing::print_run;
use crate::telling::tell_desks;
use call_desk::{Desk, Published};
use feed_files::command_files::{Printed, Status};
use feed_files::status_of_end;
use feed_gate::FeedReport;
use feed_runs::FeedEnd;
use mh_io::Sink;
use std::alloc::Global;
use std::thread::Threads;

/// How the first feed ended that didn't end whole, or that all did.
fn end_of(reports: &[FeedReport]) -> FeedEnd
    ensures { result ≡ end_of reports.now }
{
    for report in reports {
        if report.end != FeedEnd::End {
            return report.end;
        }
    }
    FeedEnd::End
}

/// The status of desks that were told.
fn status_of_desks(published: Published) -> Status
    ensures { result ≡ status_of_desks published }
{
    if published.failed > 0 {
        Status::Desk
    } else if published.memory > 0 {
        Status::Memory
    } else {
        Status::Done
    }
}

/// The status of a run that was printed and whose desks were told: the feeds' comes first, then
/// the sink's, then the desks'.
fn status_at_end(end: FeedEnd, printed: Printed, published: Published) -> Status
    ensures { result ≡ status_at_end end printed published }
{
    match (status_of_end(end), printed) {
        (Status::Done, Printed::Whole) => status_of_desks(published),
        (Status::Done, Printed::Cut) => Status::Write,
        (status, _) => status,
    }
}

/// Prints a run by its account, tells each desk the calls that it made, and answers its status.
/// Where the sink fails the desks are told all the same; where there is no memory for the text or
/// the notices none is.
pub(crate) fn end_run<R: Threads + Sync, K: Sink>(
    rt: &R,
    alloc: Global,
    account: Account,
    out: &mut K,
    desks: &mut Vec<Box<dyn Desk>>,
    retired: &mut Vec<Box<dyn Desk>>,
    run: &Outcome,
) -> Status
    requires few_desks { vec_len desks.old < 2 ^ 32 }
    requires terms { run.now.terms ≡ map (λ s. s.terms) run.now.sets.items }
    requires few_sets { length run.now.sets.items ≤ 16 }
    requires few_feeds { length run.now.reports.items ≤ 32 }
    ensures count { (K.seen out.old).faults ≤ (K.seen out.new).faults }
    ensures leaves { RunLeaves account run.now.sets.items run.now.reports.items (K.seen out.old)
        (K.seen out.new) (desks_of (λ desk. (Desk-box desk).seen desk.value) desks.old.items
        desks.new.items retired.old.items retired.new.items) result }
{
    let Ok(printed) = print_run(rt, alloc, account, out, run) else {
        return Status::Memory;
    };
    match tell_desks(alloc, desks, retired, &run.sets) {
        Ok(published) => status_at_end(end_of(&run.reports), printed, published),
        Err(_) => Status::Memory,
    }
}
