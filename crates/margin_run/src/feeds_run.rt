//! The feeds of a run: found, run, and handed back.
ghost use Rattle.std.specs.Prelude.{◌≡◌, ◌≤◌, [], length, map, All};
ghost use Rattle.std.specs.String.{string_bytes};
ghost use Rattle.feed_gate.specs.Sets.{AreApart};
ghost use Rattle.feed_files.specs.CommandFiles.Files.{KeepsCounts};
ghost use Rattle.margin_run.specs.RunStages.{FeedsEnd};

use feed_files::command_files::Fault;
use feed_files::{find_feeds, take_all_back};
use feed_gate::set_core::SetState;
use feed_gate::{FeedReport, SetsRun, run_on_sets};
use feed_runs::Gate;
use mh_io::Folder;
use std::alloc::Global;
use std::sync::Wait;
use std::thread::Threads;

/// What running feeds leaves: the sets, and a report of each feed.
pub(crate) struct FeedsRun {
    pub sets: Vec<SetState>,
    pub reports: Vec<FeedReport>,
}

/// Finds the feeds of these names, runs them at the same time on the sets, and hands them back.
///
/// # Errors
///
/// A feed isn't there, or memory ran out before the feeds were run. Those that were found are
/// handed back.
pub(crate) fn run_feed_files<'a, R: Threads + Wait + Sync, F: Folder, G: Gate>(
    rt: &R,
    alloc: Global,
    folder: &mut F,
    names: &'a [String],
    sets: Vec<SetState>,
    gate: &G,
) -> Result<FeedsRun, Fault<'a>>
    requires apart { AreApart sets.items }
    requires empty { All (λ s. s.journal ≡ []) sets.items }
    requires feeds { (1 ≤ length names.now) × (length names.now ≤ 32) }
    ensures counts { KeepsCounts (F.seen folder.old) (F.seen folder.new) }
    ensures ends { FeedsEnd (F.seen folder.old) (F.seen folder.new)
        (map string_bytes names.now) sets.items result }
{
    let sources = find_feeds(alloc, folder, names)?;
    match run_on_sets(rt, alloc, sets, sources, gate) {
        Ok(run) => {
            let SetsRun {
                sets,
                sources,
                reports,
            } = run;
            take_all_back(folder, sources);
            Ok(FeedsRun { sets, reports })
        }
        Err(memory) => {
            take_all_back(folder, memory.back);
            Err(Fault::Memory)
        }
    }
}
