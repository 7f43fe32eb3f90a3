//! Sums over all ordered pairs of weighted amounts, and the roots of such sums: the value of a
//! bucket, and the margin over buckets. Nothing here takes memory.
//! (ISDA SIMM methodology, aggregation within a bucket and across buckets.)
#![tactic(auto)]

mod beside;
mod correlation;
mod item;
mod marked;
mod marks;
mod pairs;
mod renewed;
mod roots;
mod row;
mod steps;

pub use correlation::Correlation;
pub use item::{Item, Weighted};
pub use marks::Marks;
pub use pairs::{pair_sum, pair_term};
pub use renewed::{put_in, renew_sum, take_out};
pub use roots::{bucket_root, outer_root};
pub use simm_rules::BucketMargin;
pub use steps::Steps;
