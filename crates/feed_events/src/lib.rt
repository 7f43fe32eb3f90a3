//! The event of a message: a batch of its block of records, tables of its block of a parameter
//! file, or just what it says.
#![tactic(auto)]

mod block;
mod event;

pub use block::BlockFault;
pub use event::{event_of, set_of};

// what the crates above reach through this one
pub use crif_reader;
pub use feed_reader;
pub use set_core;
