//! The files of a run: parameters, terms, and the feeds that are run on its sets.
ghost use Rattle.std.specs.Prelude.{◌≤◌, length, map};
ghost use Rattle.std.specs.String.{string_bytes};
ghost use Rattle.feed_files.specs.CommandFiles.Files.{KeepsCounts};
ghost use Rattle.margin_run.specs.RunStages.{RunFilesEnd};

use crate::feeds_run::{FeedsRun, run_feed_files};
use csa_terms::Terms;
use feed_files::command_files::{Fault, Inputs, read_inputs};
use feed_gate::set_core::SetState;
use feed_gate::{FeedReport, make_sets};
use feed_runs::Gate;
use mh_io::Folder;
use std::alloc::Global;
use std::sync::Wait;
use std::thread::Threads;

/// The files of a run.
#[derive(Clone, Copy)]
pub struct RunFiles<'a> {
    /// The name of the parameter file.
    pub params: &'a str,
    /// The name of the terms file.
    pub terms: &'a str,
    /// The names of the feeds, of which there are 1 to 32.
    pub feeds: &'a [String],
}

/// What a run leaves: its sets with their terms, and a report of each feed.
#[derive(Drop)]
pub(crate) struct Outcome {
    pub terms: Terms,
    pub sets: Vec<SetState>,
    pub reports: Vec<FeedReport>,
}

/// Reads both files, and runs the feeds on the sets of the terms.
pub(crate) fn run_files<'a, R: Threads + Wait + Sync, F: Folder, G: Gate>(
    rt: &R,
    alloc: Global,
    files: RunFiles<'a>,
    folder: &mut F,
    gate: &G,
) -> Result<Outcome, Fault<'a>>
    requires { (1 ≤ length files.feeds.now) × (length files.feeds.now ≤ 32) }
    ensures counts { KeepsCounts (F.seen folder.old) (F.seen folder.new) }
    ensures ends { RunFilesEnd files.entry.params.now files.entry.terms.now
        (map string_bytes files.entry.feeds.now) (F.seen folder.old) (F.seen folder.new) result }
{
    let Inputs { params, terms } = read_inputs(alloc, folder, files.params, files.terms)?;
    let sets = make_sets(alloc, &params, &terms);
    // the sets hold them
    drop(params);
    let Ok(sets) = sets else {
        return Err(Fault::Memory);
    };
    let FeedsRun { sets, reports } = run_feed_files(rt, alloc, folder, files.feeds, sets, gate)?;
    Ok(Outcome {
        terms,
        sets,
        reports,
    })
}
