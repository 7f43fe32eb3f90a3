//! What runs of feeds of any kind have in common: the lines of their sources, the gate beside each
//! call, and how a feed ends.
#![tactic(auto)]

mod feed_end;
mod gate;
mod source_lines;

pub use feed_end::FeedEnd;
pub use gate::{Gate, NoGate};
pub use source_lines::lines_of_all;
