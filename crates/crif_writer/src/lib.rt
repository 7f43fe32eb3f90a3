//! Writes CRIF files: the rows of a batch in tab-separated text with a header, which reads back as
//! just that batch.
#![tactic(auto)]

mod factor;
mod fields;
mod rate;
mod row;
mod write;

pub use write::write_batch;

// what the crates above reach through this one
pub use crif_reader;
pub use crif_reader::simm_kinds;
