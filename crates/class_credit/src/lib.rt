//! Credit that qualifies and that does not: the delta, vega and curvature of a bucket, and base
//! correlation. Each is a measure in a file of its own: which factors it weighs, how, and how
//! they correlate.
//! (ISDA SIMM methodology, credit spread risk; base correlation margin.)
#![tactic(auto)]

mod base;
mod credit;
mod curvature;
mod delta;
mod groups;
mod issuers;
mod listed;
mod points;
mod vega;

pub use base::{BaseCorrelation, IndexNet, base_correlation, indices_among};
pub use credit::{credit_curvature, credit_delta, credit_vega};
pub use curvature::CreditCurvature;
pub use delta::CreditDelta;
pub use issuers::IssuerRho;
pub use listed::ListedCredit;
pub use points::{Point, PointNet, points_among};
pub use vega::CreditVega;
