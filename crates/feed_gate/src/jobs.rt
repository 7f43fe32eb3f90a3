//! Many feeds side by side.
ghost use Rattle.std.specs.Prelude.{All};
ghost use Rattle.std.specs.List.{AllZip};
ghost use Rattle.feed_gate.specs.Seats.{AreNamed, AreSeats};
ghost use Rattle.feed_gate.specs.Jobs.{RanFeed};

use crate::FeedJob;
use crate::feed::run_feed;
use feed_events::crif_reader::simm_kinds::Name;
use feed_events::feed_reader::mh_io::Source;
use feed_events::set_core::SetState;
use feed_events::set_core::held_cell::HeldCell;
use feed_runs::Gate;
use std::alloc::Global;
use std::sync::Wait;
use std::thread::{Threads, for_each_mut};

/// Runs feeds at the same time, each in a thread of its own; where a thread can't be started this
/// one runs the feed itself.
///
/// Each feed's messages are calls on the sets that they name, one after another, by the feed's own
/// seats: there are at most sixteen sets, each in a cell and with a name of its own, and a job has
/// a seat of each cell. Afterwards the entries of a feed in the journal of a set are its calls on
/// that set, each once and in its order, but for those that are reported as `Full`, whatever the
/// other feeds did. The report has the other messages, and how the feed ended. A feed that ends
/// early has its whole messages done; for want of memory it ends in the message for which there
/// was none, of which there is no entry. The gate is called before and after each call on a set.
pub fn run_feeds<R: Threads + Wait + Sync, S: Source + Send, G: Gate>(
    rt: &R,
    alloc: Global,
    cells: &[HeldCell<SetState>],
    names: &[Name],
    gate: &G,
    jobs: &mut [FeedJob<S>],
)
    requires named { AreNamed names.now cells.now }
    requires seats { All (λ job. AreSeats cells.now job.seats.items) jobs.old }
    ensures { AllZip (RanFeed S.seen names.now) jobs.old jobs.new }
{
    let run = |_place: usize, job: &mut FeedJob<S>|
        requires { AreNamed names.now cells.now × AreSeats cells.now job.now.seats.items }
        ensures { RanFeed S.seen names.entry.now job.entry.now job.exit.now }
    { run_feed(rt, alloc, cells, names, gate, job) };
    let threads = jobs.len().max(1);
    for_each_mut(rt, jobs, threads, &run);
}
