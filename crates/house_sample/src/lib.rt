//! What a house needs to run by itself: parameters, the terms of two netting sets, and feeds of
//! drawn batches for them. No file is read.
#![tactic(auto)]

mod agreements;
mod classes;
mod draws;
mod feeds;
mod matrices;
mod parameters;
mod trades;

pub use agreements::sample_terms;
pub use feeds::sample_feed;
pub use parameters::sample_params;

// what the crates above reach through this one
pub use feed_reader::csa_terms;
pub use simm_params;
