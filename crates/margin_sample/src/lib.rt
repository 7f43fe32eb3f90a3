//! A run of the house by itself: feeds that it makes run at the same time on two netting sets,
//! each set is asked its margin once more, and the answers are printed.
#![tactic(auto)]

mod plan;
mod running;
mod sampling;
mod summary;

pub use plan::SamplePlan;
pub use sampling::sample;
