//! How the margin of a batch comes about, bottom up: the nets of each bucket, in each measure its
//! factors with what they are weighed from and its value, the margins of measures, of risk classes
//! and of product classes, the additional margins one by one, and the whole. The order of the
//! lines hangs on the keys of the book alone, so that two parties find the first figure that
//! differs by a comparison of lines.
#![tactic(auto)]

mod add_on_lines;
mod class_lines;
mod explained;
mod factor_lines;
mod factors;
mod measure_fields;
mod names;
mod net_lines;
mod place_lines;
mod side_lines;
mod sides;

pub use explained::explained_lines;

// what the crates above reach through this one
pub use bucket_cache;
pub use measured_bucket::{mh_units, simm_kinds, simm_params};
