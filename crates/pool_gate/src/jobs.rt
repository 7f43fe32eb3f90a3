//! Many feeds side by side.
ghost use Rattle.std.specs.Prelude.{◌<◌, length, All};
ghost use Rattle.std.specs.List.{AllZip};
ghost use Rattle.pool_gate.specs.Share.{IsReady, RanWithTerms};

use crate::feed::run_feed;
use crate::job::PoolJob;
use csa_terms::BothTerms;
use feed_runs::Gate;
use mh_io::Source;
use std::sync::Wait;
use std::thread::{Threads, for_each_mut};
use threshold_pool::Pool;

/// Runs feeds at the same time, each in a thread of its own; where a thread can't be started this
/// one runs the feed itself. The feed of each number is of the set at that place, and is called
/// for by the terms by which that set collects margin.
pub(crate) fn run_jobs<R: Threads + Wait + Sync, S: Source + Send, G: Gate>(
    rt: &R,
    pool: &Pool,
    sets: &[BothTerms],
    gate: &G,
    jobs: &mut [PoolJob<S>],
)
    requires { All (IsReady pool.now sets.now) jobs.old }
    ensures { AllZip (RanWithTerms S.seen sets.now) jobs.old jobs.new }
{
    let run = |_place: usize, job: &mut PoolJob<S>|
        requires { IsReady pool.now sets.now job.now }
        ensures { RanWithTerms S.seen sets.entry.now job.entry.now job.exit.now }
    { run_feed(rt, pool, sets[job.number as usize].collect(), gate, job) };
    let threads = jobs.len().max(1);
    for_each_mut(rt, jobs, threads, &run);
}
