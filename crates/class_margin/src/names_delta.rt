//! The delta and vega margins over the buckets of the classes of which files list buckets: credit
//! that qualifies and that does not, equity and commodities.
//! (ISDA SIMM methodology, delta margin, vega margin: aggregation across buckets.)

mod across;
mod laws;

pub use across::combine;
pub use laws::products_are_netted;
