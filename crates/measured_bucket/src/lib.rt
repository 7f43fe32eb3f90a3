//! The value of one bucket, by whatever measures its factors: a measure says how the factors are
//! weighed and how they correlate, and what each is of; the value is that of the written rule for
//! the list that it weighs.
//! (ISDA SIMM methodology, weighted sensitivities and aggregation within a bucket.)
#![tactic(auto)]

mod alone;
mod column;
mod even;
mod explained;
mod measured;
mod risk;
mod runs;
mod tenor_scale;
mod vega;
mod weighing;

pub use alone::weigh_alone;
pub use column::Column;
pub use even::EvenRho;
pub use explained::{Explained, explain};
pub use measured::{Measured, measure};
pub use risk::curve;
pub use runs::{TenorNet, TenorSum, tenor_sums};
pub use tenor_scale::TenorScale;
pub use vega::{VegaTerms, vega_weighing, weigh_vega};
pub use weighing::{Group, Weighing};

// what the crates above reach through this one
pub use factor_book;
pub use simm_params;
pub use simm_params::{mh_units, simm_kinds, simm_rules};
pub use weighted_bucket;
pub use weighted_bucket::{concentration, pair_sum};
