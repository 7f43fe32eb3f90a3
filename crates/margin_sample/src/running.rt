//! The feeds of a sample, run on its sets.
ghost use Rattle.std.specs.Prelude.{◌≡◌, ◌≤◌, ◌<◌, [], map, length, All, IfOk};
ghost use Rattle.std.specs.List.{list_all};
ghost use Rattle.feed_gate.specs.Sets.{AreApart};
ghost use Rattle.feed_gate.specs.SetCore.Set.{start};
ghost use Rattle.house_sample.specs.Parameters.{sample_params};
ghost use Rattle.house_sample.specs.Agreements.{sample_terms};
ghost use Rattle.margin_sample.specs.Feeds.{AreFeeds, IsFeed, is_whole};
ghost use Rattle.margin_sample.specs.Sets.{AreFed};

use crate::plan::SamplePlan;
use feed_gate::set_core::SetState;
use feed_gate::{FeedReport, SetsRun, make_sets, run_on_sets};
use feed_runs::{FeedEnd, Gate};
use house_sample::{sample_feed, sample_params, sample_terms};
use mh_io::MemSource;
use std::alloc::{AllocError, Global};
use std::sync::Wait;
use std::thread::Threads;

/// The feed of this number, as a source that gives it at once.
#[tactic(auto, using(crate::proofs::RunFeeds::made_feed))]
fn make_feed(alloc: Global, seed: u32, number: u32) -> Result<MemSource, AllocError>
    requires { number < 32 }
    ensures { IfOk result (λ source. IsFeed seed number source) }
{
    let bytes = sample_feed(alloc, seed, number)?;
    Ok(MemSource::new(alloc, bytes, usize::MAX, Vec::new(alloc)))
}

/// The feeds of a sample.
#[tactic(auto, using(crate::proofs::RunFeeds::one_more_feed))]
fn make_feeds(alloc: Global, plan: SamplePlan) -> Result<Vec<MemSource>, AllocError>
    requires { plan.feeds ≤ 32 }
    ensures feeds { IfOk result (λ sources. AreFeeds plan.seed 0 sources.items) }
    ensures count { IfOk result (λ sources. length sources.items ≡ plan.feeds) }
{
    let mut sources = Vec::with_capacity(alloc, plan.feeds as usize)?;
    for number in 0..plan.feeds {
        sources.push(make_feed(alloc, plan.seed, number)?)?;
    }
    Ok(sources)
}

/// The sets of a sample before their first call.
#[tactic(auto, using(crate::proofs::RunFeeds::none_called_yet))]
fn sample_sets(alloc: Global) -> Result<Vec<SetState>, AllocError>
    ensures start { IfOk result (λ sets. sets.items ≡ map (start sample_params) sample_terms) }
    ensures empty { IfOk result (λ sets. All (λ s. s.journal ≡ []) sets.items) }
    ensures apart { IfOk result (λ sets. AreApart sets.items) }
{
    let params = sample_params(alloc)?;
    let terms = sample_terms(alloc)?;
    make_sets(alloc, &params, &terms)
}

fn is_whole(report: &FeedReport) -> bool
    ensures { result ≡ is_whole report.now.end }
{
    matches!(report.end, FeedEnd::End)
}

/// Whether each feed was run to its end.
fn are_whole(reports: &[FeedReport]) -> bool
    ensures { result ≡ list_all (λ r. is_whole r.end) reports.now }
{
    reports.iter().all(|report| is_whole(report))
}

/// Runs the feeds of a sample at the same time on its sets, which come back with their journals.
///
/// # Errors
///
/// For want of memory alone, in a feed too.
pub(crate) fn run_sample<R: Threads + Wait + Sync, G: Gate>(
    rt: &R,
    alloc: Global,
    plan: SamplePlan,
    gate: &G,
) -> Result<Vec<SetState>, AllocError>
    requires { (1 ≤ plan.feeds) × (plan.feeds ≤ 32) }
    ensures { IfOk result (λ sets. AreFed plan.feeds plan.seed sets.items) }
{
    let sets = sample_sets(alloc)?;
    let feeds = make_feeds(alloc, plan)?;
    let Ok(run) = run_on_sets(rt, alloc, sets, feeds, gate) else {
        return Err(AllocError);
    };
    let SetsRun {
        sets,
        sources: _,
        reports,
    } = run;
    // (in memory a feed fails for want of it alone)
    if are_whole(&reports) {
        Ok(sets)
    } else {
        Err(AllocError)
    }
}
