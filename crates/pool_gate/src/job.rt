ghost use Rattle.std.specs.Prelude.{◌≡◌, []};
ghost use Rattle.pool_gate.specs.Jobs.{no_report};

use csa_terms::simm_kinds::Listed;
use feed_runs::FeedEnd;
use mh_io::{Lines, Source};
use mh_units::{Bytes, Text};
use std::alloc::Global;
use threshold_pool::PoolSeat;

/// What became of a feed's messages.
#[derive(Drop)]
pub struct PoolReport {
    /// A line for each message, with its reply, in their order.
    pub text: Text,
    /// The numbers of the lines that are no message, in their order.
    pub refused: Listed<u32>,
    /// What the set of the feed holds at the end, in cents.
    pub held: u64,
    /// How the feed ended.
    pub end: FeedEnd,
}

impl PoolReport {
    /// Of no message. It takes no memory.
    pub(crate) fn new(alloc: Global) -> PoolReport
        ensures { result ≡ no_report }
    {
        PoolReport {
            text: Text::new(alloc),
            refused: Listed::new(alloc),
            held: 0,
            end: FeedEnd::End,
        }
    }
}

/// A feed that is to be run, or was.
#[derive(Drop)]
pub(crate) struct PoolJob<S: Source> {
    /// Its number, from 0, which is also the place of its set.
    pub number: u32,
    /// Its lines.
    pub lines: Lines<S>,
    /// What a line is read into, and its reply is made in.
    pub room: Bytes,
    /// The seat of its set.
    pub seat: PoolSeat,
    /// What became of its messages. Before it is run, of none.
    pub report: PoolReport,
}

impl<S: Source> PoolJob<S> {
    /// A feed that is to be run. It takes no memory.
    pub fn new(alloc: Global, number: u32, lines: Lines<S>, seat: PoolSeat) -> PoolJob<S>
        ensures number { result.number ≡ number }
        ensures lines { result.lines ≡ lines }
        ensures seat { result.seat ≡ seat }
        ensures report { result.report ≡ no_report }
    {
        PoolJob {
            number,
            lines,
            room: Bytes::new(alloc),
            seat,
            report: PoolReport::new(alloc),
        }
    }
}
