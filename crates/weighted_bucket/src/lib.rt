//! The value of a bucket, for every risk class and measure: the correlations of its factors are
//! made of a class's table and of how concentrated the factors are, and the weighted values of all
//! ordered pairs are summed. A class adds only what is its own: which factors there are, their
//! groups, weights, thresholds and correlations.
//! (ISDA SIMM methodology, weighted sensitivities and aggregation within a bucket.)
#![tactic(auto)]

mod changes;
mod correlated;
mod group;
mod margin;
mod pairs;
mod renewed;
mod rho;
mod scaling;
mod sums;
mod way;
mod weighed;

pub use group::{Grouped, group_cr, group_nets};
pub use margin::{bucket_margin, bucket_margin_after};
pub use rho::Rho;
pub use scaling::Scaling;
pub use weighed::{Weighed, weigh};

// what the crates above reach through this one
pub use concentration;
pub use pair_sum;
