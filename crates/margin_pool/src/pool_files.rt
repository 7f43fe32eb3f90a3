//! The files of a pool: the terms, and the feeds that are run on the total.
ghost use Rattle.std.specs.Prelude.{◌≡◌, ◌≤◌, ◌^◌, length, map, IfOk, IfErr, OnOk};
ghost use Rattle.std.specs.String.{string_bytes};
ghost use Rattle.feed_files.specs.CommandFiles.Files.{KeepsCounts};
ghost use Rattle.margin_pool.specs.Pool.{crowd_line};
ghost use Rattle.margin_pool.specs.PoolStages.{FeedsEnd, PoolFilesEnd, Refuses};

use csa_terms::BothTerms;
use fault_text::{begun_line, push_last_number, push_number};
use feed_files::command_files::{Fault, InputFile, read_terms_file};
use feed_files::{find_feeds, take_all_back};
use feed_runs::Gate;
use mh_io::Folder;
use mh_units::Text;
use pool_gate::{PoolReport, PoolRun, run_on_pool};
use std::alloc::{AllocError, Global};
use std::sync::Wait;
use std::thread::Threads;

/// The files of a pool, and its total.
#[derive(Clone, Copy)]
pub struct PoolFiles<'a> {
    /// The name of the terms file.
    pub terms: &'a str,
    /// What the sets share: 1 to 10^15 cents.
    pub total: u64,
    /// The names of the feeds, of which there are 1 to 32.
    pub feeds: &'a [String],
}

/// What a pool leaves: a report of each feed, and what is left of the total.
#[derive(Drop)]
pub(crate) struct Outcome {
    pub reports: Vec<PoolReport>,
    pub rest: u64,
}

/// The line of more feeds than sets.
fn crowd_line(alloc: Global, sets: usize, feeds: usize) -> Result<Text, AllocError>
    ensures { IfOk result (λ line. line ≡ crowd_line sets feeds) }
{
    let mut line = begun_line(alloc, b"POOL")?;
    push_number(&mut line, sets)?;
    push_last_number(&mut line, feeds)?;
    Ok(line)
}

/// Tests that each feed has a set.
fn test_sets<'a>(alloc: Global, sets: usize, feeds: usize) -> Result<(), Fault<'a>>
    ensures fits { OnOk result (feeds ≤ sets) }
    ensures refuses { IfErr result (Refuses sets feeds) }
{
    if feeds <= sets {
        return Ok(());
    }
    match crowd_line(alloc, sets, feeds) {
        Ok(line) => Err(Fault::Refused(line)),
        Err(_) => Err(Fault::Memory),
    }
}

/// Finds the feeds of these names, runs them at the same time on the total, and hands them back.
///
/// # Errors
///
/// A feed isn't there, or memory ran out before the feeds were run. Those that were found are
/// handed back.
fn run_feed_files<'a, R: Threads + Wait + Sync, F: Folder, G: Gate>(
    rt: &R,
    alloc: Global,
    files: PoolFiles<'a>,
    sets: &[BothTerms],
    folder: &mut F,
    gate: &G,
) -> Result<Outcome, Fault<'a>>
    requires total { (1 ≤ files.total) × (files.total ≤ 10 ^ 15) }
    requires feeds { (1 ≤ length files.feeds.now) × (length files.feeds.now ≤ 32) }
    requires sets { length files.feeds.now ≤ length sets.now }
    ensures counts { KeepsCounts (F.seen folder.old) (F.seen folder.new) }
    ensures ends { FeedsEnd files.entry.total sets.now (map string_bytes files.entry.feeds.now)
        (F.seen folder.old) (F.seen folder.new) result }
{
    let sources = find_feeds(alloc, folder, files.feeds)?;
    match run_on_pool(rt, alloc, files.total, sets, sources, gate) {
        Ok(run) => {
            let PoolRun {
                sources,
                reports,
                rest,
            } = run;
            take_all_back(folder, sources);
            Ok(Outcome { reports, rest })
        }
        Err(memory) => {
            take_all_back(folder, memory.back);
            Err(Fault::Memory)
        }
    }
}

/// Reads the terms, and runs the feeds on the total.
pub(crate) fn run_files<'a, R: Threads + Wait + Sync, F: Folder, G: Gate>(
    rt: &R,
    alloc: Global,
    files: PoolFiles<'a>,
    folder: &mut F,
    gate: &G,
) -> Result<Outcome, Fault<'a>>
    requires total { (1 ≤ files.total) × (files.total ≤ 10 ^ 15) }
    requires feeds { (1 ≤ length files.feeds.now) × (length files.feeds.now ≤ 32) }
    ensures counts { KeepsCounts (F.seen folder.old) (F.seen folder.new) }
    ensures ends { PoolFilesEnd files.entry.total files.entry.terms.now
        (map string_bytes files.entry.feeds.now) (F.seen folder.old) (F.seen folder.new) result }
{
    let terms = match read_terms_file(alloc, folder, files.terms) {
        Ok(terms) => terms,
        Err(why) => return Err(Fault::OfFile {
            file: InputFile::Terms,
            name: files.terms,
            why,
        }),
    };
    test_sets(alloc, terms.sets().len(), files.feeds.len())?;
    run_feed_files(rt, alloc, files, terms.sets(), folder, gate)
}
