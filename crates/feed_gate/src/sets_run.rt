//! Feeds from their first byte to their end, on sets that they share.
ghost use Rattle.std.specs.Prelude.{◌≡◌, ◌<◌, ◌≤◌, [], length, map, All, IfOk, IfErr};
ghost use Rattle.std.specs.List.{AllZip};
ghost use Rattle.std.specs.Vec.{vec_len, vec_capacity};
ghost use Rattle.std.specs.VecDeque.{deque_capacity};
ghost use Rattle.feed_runs.specs.Untaken.{fresh};
ghost use Rattle.feed_gate.specs.Sets.{AreApart};
ghost use Rattle.feed_gate.specs.Share.{AreCellRows, Closes, AreKeptIn};
ghost use Rattle.feed_gate.specs.SetsRun.{RanOnSets};

use crate::close::close_sets;
use crate::share::{Shared, share_sets};
use crate::{FeedJob, FeedReport, run_feeds};
use feed_events::feed_reader::mh_io::{MemoryBack, Source};
use feed_events::set_core::SetState;
use feed_events::set_core::held_cell::{HeldCell, Seat};
use feed_runs::{Gate, lines_of_all};
use std::alloc::{AllocError, Global};
use std::collections::VecDeque;
use std::sync::Wait;
use std::thread::Threads;

/// What feeds that were run on sets leave.
#[derive(Drop)]
pub struct SetsRun<S: Source> {
    /// The sets, in their order.
    pub sets: Vec<SetState>,
    /// The sources of the feeds, in their order.
    pub sources: Vec<S>,
    /// What became of each feed's messages.
    pub reports: Vec<FeedReport>,
}

/// Runs feeds at the same time on sets that they share, each from its first byte to its end, as
/// `run_feeds` does. Feed `f` of the sources is caller `f` in the journals of the sets, which have
/// no calls yet and are at most sixteen of different names; there are 1 to 1,024 feeds. The sets
/// come back with their journals, and each source with what was taken from it.
///
/// # Errors
///
/// Want of memory before any feed was run. The sources come back as they were, and the sets
/// are dropped.
pub fn run_on_sets<R: Threads + Wait + Sync, S: Source + Send, G: Gate>(
    rt: &R,
    alloc: Global,
    sets: Vec<SetState>,
    sources: Vec<S>,
    gate: &G,
) -> Result<SetsRun<S>, MemoryBack<Vec<S>>>
    requires apart { AreApart sets.items }
    requires empty { All (λ s. s.journal ≡ []) sets.items }
    requires feeds { (1 ≤ vec_len sources) × (vec_len sources ≤ 1024) }
    ensures ran { IfOk result (λ run. RanOnSets S.seen sets.items run.sets.items sources.items
        run.sources.items run.reports.items) }
    ensures back { IfErr result (λ memory. memory.back.items ≡ sources.items) }
{
    let Ok(room) = Room::new(alloc, sets.len(), sources.len()) else {
        return Err(MemoryBack { back: sources });
    };
    let Ok(shared) = share_sets(alloc, sets, sources.len() as u32) else {
        return Err(MemoryBack { back: sources });
    };
    let Shared { names, cells, rows } = shared;
    let mut jobs = make_jobs(alloc, sources, rows)?;
    run_feeds(rt, alloc, &cells, &names, gate, &mut jobs);
    Ok(room.fill(cells, jobs))
}

/// Room for what a run leaves, so that it ends without memory.
#[derive(Drop)]
struct Room<S: Source> {
    sets: VecDeque<SetState>,
    sources: Vec<S>,
    reports: Vec<FeedReport>,
    rows: Vec<Vec<Seat<SetState>>>,
}

impl<S: Source> Room<S> {
    fn new(alloc: Global, sets: usize, feeds: usize) -> Result<Room<S>, AllocError>
        ensures sets { IfOk result (λ room.
            (room.sets.items ≡ []) × (sets ≤ deque_capacity room.sets)) }
        ensures sources { IfOk result (λ room.
            (room.sources.items ≡ []) × (feeds ≤ vec_capacity room.sources)) }
        ensures reports { IfOk result (λ room.
            (room.reports.items ≡ []) × (feeds ≤ vec_capacity room.reports)) }
        ensures rows { IfOk result (λ room.
            (room.rows.items ≡ []) × (feeds ≤ vec_capacity room.rows)) }
    {
        Ok(Room {
            sets: VecDeque::with_capacity(alloc, sets)?,
            sources: Vec::with_capacity(alloc, feeds)?,
            reports: Vec::with_capacity(alloc, feeds)?,
            rows: Vec::with_capacity(alloc, feeds)?,
        })
    }

    /// Takes jobs that were run apart, and closes the cells.
    fn fill(self, cells: Vec<HeldCell<SetState>>, jobs: Vec<FeedJob<S>>) -> SetsRun<S>
        requires sets { (self.sets.items ≡ []) × (vec_len cells ≤ deque_capacity self.sets) }
        requires sources { (self.sources.items ≡ []) × (vec_len jobs ≤ vec_capacity self.sources) }
        requires reports { (self.reports.items ≡ []) × (vec_len jobs ≤ vec_capacity self.reports) }
        requires rows { (self.rows.items ≡ []) × (vec_len jobs ≤ vec_capacity self.rows) }
        requires some { 0 < vec_len jobs }
        requires seats { AreCellRows cells.items 0 (map (λ job. job.seats.items) jobs.items) }
        requires callers { All (λ cell. cell.callers ≡ vec_len jobs) cells.items }
        ensures sources { result.sources.items ≡ map (λ job. job.lines.source) jobs.items }
        ensures reports { result.reports.items ≡ map (λ job. job.report) jobs.items }
        ensures sets { AllZip (Closes (vec_len jobs)) cells.items result.sets.items }
        ensures kept { AreKeptIn 0 (map (λ job. job.seats.items) jobs.items) result.sets.items }
    {
        let Room {
            sets,
            mut sources,
            mut reports,
            mut rows,
        } = self;
        let mut waiting = VecDeque::from_vec(jobs);
        while let Some(job) = waiting.pop_front() {
            let FeedJob {
                number: _,
                lines,
                seats,
                report,
            } = job;
            sources.push_reserved(lines.give_back());
            reports.push_reserved(report);
            rows.push_reserved(seats);
        }
        SetsRun {
            sets: close_sets(cells, rows, sets),
            sources,
            reports,
        }
    }
}

/// A job for each source, with the row of seats of its number. For want of memory the sources
/// come back.
fn make_jobs<S: Source>(
    alloc: Global,
    sources: Vec<S>,
    rows: Vec<Vec<Seat<SetState>>>,
) -> Result<Vec<FeedJob<S>>, MemoryBack<Vec<S>>>
    requires few { vec_len sources ≤ 1024 }
    requires count { vec_len rows ≡ vec_len sources }
    ensures lines { IfOk result (λ jobs.
        map (λ job. job.lines) jobs.items ≡ map fresh sources.items) }
    ensures seats { IfOk result (λ jobs.
        map (λ job. job.seats.items) jobs.items ≡ map (λ row. row.items) rows.items) }
    ensures back { IfErr result (λ memory. memory.back.items ≡ sources.items) }
{
    let Ok(mut jobs) = Vec::with_capacity(alloc, sources.len()) else {
        return Err(MemoryBack { back: sources });
    };
    let mut waiting = VecDeque::from_vec(lines_of_all(alloc, sources)?);
    let mut rows_left = VecDeque::from_vec(rows);
    while let Some(lines) = waiting.pop_front() {
        let number = jobs.len() as u32;
        let row = rows_left.pop_front().unwrap();
        jobs.push_reserved(FeedJob::new(alloc, number, lines, row));
    }
    Ok(jobs)
}
