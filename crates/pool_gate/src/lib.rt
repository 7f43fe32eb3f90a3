//! Feeds that run side by side on one threshold: the desk of each netting set takes allotments of
//! it, gives them back, and asks what is called for at the one that it holds.
//!
//! [`run_on_pool`] gives each feed a thread of its own where it can. What a feed was replied is
//! told by its own lines and the total, whatever the other feeds did; that nobody was told of too
//! little where there was enough, by what all were told.
#![tactic(auto)]

mod answering;
mod feed;
mod job;
mod jobs;
mod lines;
mod pool_run;
mod reply;
mod seats;

pub use job::PoolReport;
pub use pool_run::{PoolRun, run_on_pool};
