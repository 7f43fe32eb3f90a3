//! Feeds from their first byte to their end, on a total that they share.
ghost use Rattle.std.specs.Prelude.{◌≡◌, ◌<◌, ◌≤◌, ◌^◌, [], ◌∷◌, ◌++◌};
ghost use Rattle.std.specs.Prelude.{length, map, All, IfOk, IfErr};
ghost use Rattle.std.specs.List.{AllByRecursion};
ghost use Rattle.std.specs.Vec.{vec_len, vec_capacity};
ghost use Rattle.threshold_pool.specs.Seats.{fresh_seat};
ghost use Rattle.pool_gate.specs.Share.{AreFresh, IsPart, KeepsRest, reported};
ghost use Rattle.pool_gate.specs.PoolRun.{RanOnPool};

use crate::job::{PoolJob, PoolReport};
use crate::jobs::run_jobs;
use crate::seats::share_seats;
use csa_terms::BothTerms;
use feed_runs::{Gate, lines_of_all};
use mh_io::{MemoryBack, Source};
use std::alloc::{AllocError, Global};
use std::collections::VecDeque;
use std::sync::Wait;
use std::thread::Threads;
use threshold_pool::{Pool, PoolSeat};

/// What feeds that were run on a total leave.
#[derive(Drop)]
pub struct PoolRun<S: Source> {
    /// The sources of the feeds, in their order.
    pub sources: Vec<S>,
    /// What became of each feed's messages.
    pub reports: Vec<PoolReport>,
    /// What is left of the total, in cents.
    pub rest: u64,
}

/// Runs feeds at the same time on a total of 1 to 10^15 cents that they share, each from its
/// first byte to its end. There are 1 to 32 feeds; each is of the set at its place, of which
/// there is one at least for each feed, and what it calls for is by the terms by which that set
/// collects margin. The gate is called before and after each message, with the feed's number and
/// its set's place.
///
/// A line that is no message is reported, and its feed goes on. A feed that ends early has its
/// whole messages done; for want of memory it ends in the message for which there was none, which
/// moved nothing.
///
/// # Errors
///
/// Want of memory before any feed was run. The sources come back as they were.
pub fn run_on_pool<R: Threads + Wait + Sync, S: Source + Send, G: Gate>(
    rt: &R,
    alloc: Global,
    total: u64,
    sets: &[BothTerms],
    sources: Vec<S>,
    gate: &G,
) -> Result<PoolRun<S>, MemoryBack<Vec<S>>>
    requires total { (1 ≤ total) × (total ≤ 10 ^ 15) }
    requires feeds { (1 ≤ vec_len sources) × (vec_len sources ≤ 32) }
    requires sets { vec_len sources ≤ length sets.now }
    ensures ran { IfOk result (λ run. RanOnPool S.seen total sets.now sources.items
        run.sources.items run.reports.items run.rest) }
    ensures back { IfErr result (λ memory. memory.back.items ≡ sources.items) }
{
    let feeds = sources.len();
    let Ok(room) = Room::new(alloc, feeds) else {
        return Err(MemoryBack { back: sources });
    };
    let Ok((pool, seats)) = start_pool(alloc, total, feeds as u32) else {
        return Err(MemoryBack { back: sources });
    };
    let mut jobs = make_jobs(alloc, sources, seats)?;
    run_jobs(rt, &pool, sets, gate, &mut jobs);
    Ok(room.fill(pool, jobs))
}

/// A pool of this total, and a seat of it for each feed. The only error is want of memory.
fn start_pool(alloc: Global, total: u64, feeds: u32) -> Result<(Pool, Vec<PoolSeat>), AllocError>
    requires total { (1 ≤ total) × (total ≤ 10 ^ 15) }
    requires feeds { (1 ≤ feeds) × (feeds ≤ 32) }
    ensures pool { IfOk result (λ started. (started.0.total ≡ total) × (started.0.seats ≡ feeds)) }
    ensures count { IfOk result (λ started. vec_len started.1 ≡ feeds) }
    ensures seats { IfOk result (λ started. All (λ s. s ≡ fresh_seat started.0 1) started.1.items) }
{
    let (pool, seat) = Pool::start(alloc, total, feeds)?;
    let seats = share_seats(alloc, &pool, seat, feeds)?;
    Ok((pool, seats))
}

/// A job for each source, with the seat of its number. For want of memory the sources come back.
fn make_jobs<S: Source>(
    alloc: Global,
    sources: Vec<S>,
    seats: Vec<PoolSeat>,
) -> Result<Vec<PoolJob<S>>, MemoryBack<Vec<S>>>
    requires few { vec_len sources ≤ 32 }
    requires count { vec_len seats ≡ vec_len sources }
    ensures fresh { IfOk result (λ jobs. AreFresh 0 sources.items seats.items jobs.items) }
    ensures back { IfErr result (λ memory. memory.back.items ≡ sources.items) }
{
    let Ok(mut jobs) = Vec::with_capacity(alloc, sources.len()) else {
        return Err(MemoryBack { back: sources });
    };
    let mut waiting = VecDeque::from_vec(lines_of_all(alloc, sources)?);
    let mut seats_left = VecDeque::from_vec(seats);
    while let Some(lines) = waiting.pop_front() {
        let number = jobs.len() as u32;
        let seat = seats_left.pop_front().unwrap();
        jobs.push_reserved(PoolJob::new(alloc, number, lines, seat));
    }
    Ok(jobs)
}

/// Room for what a run leaves, so that it ends without memory.
#[derive(Drop)]
struct Room<S: Source> {
    sources: Vec<S>,
    reports: Vec<PoolReport>,
}

impl<S: Source> Room<S> {
    fn new(alloc: Global, feeds: usize) -> Result<Room<S>, AllocError>
        ensures sources { IfOk result (λ room.
            (room.sources.items ≡ []) × (feeds ≤ vec_capacity room.sources)) }
        ensures reports { IfOk result (λ room.
            (room.reports.items ≡ []) × (feeds ≤ vec_capacity room.reports)) }
    {
        Ok(Room {
            sources: Vec::with_capacity(alloc, feeds)?,
            reports: Vec::with_capacity(alloc, feeds)?,
        })
    }

    /// Takes jobs that were run apart, joins their seats, and closes the pool.
    fn fill(self, pool: Pool, jobs: Vec<PoolJob<S>>) -> PoolRun<S>
        requires sources { (self.sources.items ≡ []) × (vec_len jobs ≤ vec_capacity self.sources) }
        requires reports { (self.reports.items ≡ []) × (vec_len jobs ≤ vec_capacity self.reports) }
        requires some { 0 < vec_len jobs }
        requires seats { AllByRecursion (λ job. IsPart pool job.seat) jobs.items }
        requires all { pool.seats ≡ vec_len jobs }
        ensures sources { result.sources.items ≡ map (λ job. job.lines.source) jobs.items }
        ensures reports { result.reports.items ≡ map reported jobs.items }
        ensures rest { KeepsRest pool.total (map (λ job. job.seat) jobs.items) result.rest }
    {
        let Room {
            mut sources,
            mut reports,
        } = self;
        let mut waiting = VecDeque::from_vec(jobs);
        let mut all = apart(&mut sources, &mut reports, waiting.pop_front().unwrap());
        while let Some(job) = waiting.pop_front() {
            let seat = apart(&mut sources, &mut reports, job);
            all = pool.join(all, seat);
        }
        PoolRun {
            sources,
            reports,
            rest: pool.close(all),
        }
    }
}

/// Takes a job apart: its source and its report go into the room that is there, and its seat
/// comes back.
fn apart<S: Source>(
    sources: &mut Vec<S>,
    reports: &mut Vec<PoolReport>,
    job: PoolJob<S>,
) -> PoolSeat
    requires sources { vec_len sources.old < vec_capacity sources.old }
    requires reports { vec_len reports.old < vec_capacity reports.old }
    ensures sources { sources.new.items ≡ sources.old.items ++ job.lines.source ∷ [] }
    ensures reports { reports.new.items ≡ reports.old.items ++ reported job ∷ [] }
    ensures room { (vec_capacity sources.new ≡ vec_capacity sources.old)
        × (vec_capacity reports.new ≡ vec_capacity reports.old) }
    ensures seat { result ≡ job.seat }
{
    let PoolJob {
        number: _,
        lines,
        room: _,
        seat,
        mut report,
    } = job;
    report.held = seat.held();
    sources.push_reserved(lines.give_back());
    reports.push_reserved(report);
    seat
}
