//! The written margin rule as definitions, after the ISDA SIMM methodology, and the plain values
//! that it gives. The definitions stand in `specs/`, one idea a file. Whoever trusts a margin
//! trusts these files and those that they cite: the rounding of `mh_units`, the kinds, keys and
//! rows of `simm_kinds` and their order, and the standard library's.
#![tactic(auto)]

mod classes;
mod tables;
mod values;

pub use classes::{CreditClass, PricedClass};
pub use tables::{ByClass, ByProduct};
pub use values::{Breakdown, BucketMargin, ProductMargin, RangeFault, RangeKind};

// what the crates above reach through this one
pub use simm_kinds;
pub use simm_kinds::mh_units;
