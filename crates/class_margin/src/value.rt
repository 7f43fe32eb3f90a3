//! What the factors of a place come to: the dispatch by what stands there, once for each measure.
//! Each class measures its own; here is added what the margin over the buckets takes of a value.

mod curvature;
mod delta;
mod laws;
mod place;
mod vega;

pub use laws::places_can_be_measured;
pub use place::place_value;
