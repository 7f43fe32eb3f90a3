//! Equity and commodities: the delta, vega and curvature of a bucket of names. Each is a measure
//! in a file of its own: how the names are weighed, and how they correlate. The volatilities of a
//! name at all tenors are one factor.
//! (ISDA SIMM methodology, equity and commodity risk.)
#![tactic(auto)]

mod curvature;
mod delta;
mod listed;
mod names;
mod priced;
mod vega;

pub use curvature::PricedCurvature;
pub use delta::PricedDelta;
pub use listed::ListedPriced;
pub use names::{NameNet, delta_names, volatile_names};
pub use priced::{priced_curvature, priced_delta, priced_vega};
pub use vega::PricedVega;
