ghost use Rattle.std.specs.Prelude.{◌≡◌};
ghost use Rattle.feed_gate.specs.Run.{no_report};

use crate::FeedReport;
use feed_events::feed_reader::mh_io::{Lines, Source};
use feed_events::set_core::SetState;
use feed_events::set_core::held_cell::Seat;
use std::alloc::Global;

/// A feed that is to be run, or was.
#[derive(Drop)]
pub struct FeedJob<S: Source> {
    /// Its number, from 0.
    pub number: u32,
    /// Its lines.
    pub lines: Lines<S>,
    /// A seat for each set, in their order, by which it calls that set.
    pub seats: Vec<Seat<SetState>>,
    /// What became of its messages. Before it is run, of none.
    pub report: FeedReport,
}

impl<S: Source> FeedJob<S> {
    /// A feed that is to be run. It takes no memory.
    pub fn new(
        alloc: Global,
        number: u32,
        lines: Lines<S>,
        seats: Vec<Seat<SetState>>,
    ) -> FeedJob<S>
        ensures given { (result.number ≡ number) × (result.lines ≡ lines)
            × (result.seats.items ≡ seats.items) }
        ensures report { result.report ≡ no_report }
    {
        FeedJob {
            number,
            lines,
            seats,
            report: FeedReport::new(alloc),
        }
    }
}
