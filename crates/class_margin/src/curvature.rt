//! The curvature margin of a risk class over the values of its buckets.
//! (ISDA SIMM methodology, curvature margin: aggregation across buckets.)

mod across;
mod numbered_parts;
mod part;
mod whole_parts;

pub use across::combine;
