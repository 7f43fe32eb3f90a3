//! Feeds that run side by side: their messages are calls on the netting sets that they name, which
//! they share.
//!
//! A [`FeedJob`] is a feed with its seats, one for each set. [`run_feeds`] gives each job a thread
//! of its own where it can. What a feed did is told set by set and by its own entries, whatever
//! the other feeds did.
#![tactic(auto)]

mod close;
mod fate;
mod feed;
mod job;
mod jobs;
mod report;
mod set_call;
mod sets_run;
mod share;
mod start;

pub use job::FeedJob;
pub use jobs::run_feeds;
pub use report::{FeedReport, RefusedMessage};
pub use sets_run::{SetsRun, run_on_sets};
pub use start::make_sets;

// what the crates above reach through this one
pub use feed_events::{feed_reader, set_core};
