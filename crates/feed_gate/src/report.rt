ghost use Rattle.std.specs.Prelude.{◌≡◌};
ghost use Rattle.feed_gate.specs.Numbers.{refused_number};
ghost use Rattle.feed_gate.specs.Run.{no_report};

use feed_events::crif_reader::CrifFault;
use feed_events::crif_reader::simm_kinds::Listed;
use feed_events::set_core::params_file::ParamFault;
use feed_runs::FeedEnd;
use std::alloc::Global;

/// A message that made no call. `line` is the number of its first line, from 1.
#[derive(Drop)]
pub enum RefusedMessage {
    /// It is no message.
    BadLine {
        line: u32,
    },
    /// It names a set that isn't in the terms.
    UnknownSet {
        line: u32,
    },
    /// Its block of CRIF records is no batch: the first fault, its records counted from the
    /// block's header. It is never want of memory, which ends the feed.
    BadBatch {
        line: u32,
        fault: CrifFault,
    },
    /// The journal of its set, the `set`-th from 0, was full, with so many entries and rows.
    Full {
        line: u32,
        set: u32,
        entries: u32,
        rows: u32,
    },
    /// Its block of tables is no parameter file: the first fault. It is never want of memory,
    /// which ends the feed.
    BadTables {
        line: u32,
        fault: ParamFault,
    },
    /// Its block of tables has so many bytes, which is more than 1,048,576.
    LongTables {
        line: u32,
        bytes: u64,
    },
}

impl RefusedMessage {
    /// The number in printed text.
    pub fn number(&self) -> u8
        ensures { result ≡ refused_number self.now }
    {
        match self {
            RefusedMessage::BadLine { .. } => 1,
            RefusedMessage::UnknownSet { .. } => 2,
            RefusedMessage::BadBatch { .. } => 3,
            RefusedMessage::Full { .. } => 4,
            RefusedMessage::BadTables { .. } => 5,
            RefusedMessage::LongTables { .. } => 6,
        }
    }
}

/// What became of a feed's messages.
#[derive(Drop)]
pub struct FeedReport {
    /// How many of them stand in a journal.
    pub done: u32,
    /// The others, in the order of their lines.
    pub refused: Listed<RefusedMessage>,
    /// How it ended.
    pub end: FeedEnd,
}

impl FeedReport {
    /// Of no message. It takes no memory.
    pub fn new(alloc: Global) -> FeedReport
        ensures { result ≡ no_report }
    {
        FeedReport {
            done: 0,
            refused: Listed::new(alloc),
            end: FeedEnd::End,
        }
    }
}
