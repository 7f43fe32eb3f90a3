//! The factor book: the one place where rows net. It keeps, as rows come and go, the net
//! sensitivity to each risk factor of the rows that it holds, their gross size and their number,
//! and lends them place by place.
#![tactic(auto)]

mod address;
mod factors;
mod filing;
mod holding;
mod laws;
mod netted_rows;
mod place;
mod place_factors;
mod side_places;
mod slot;
mod value;
mod without;

pub use address::Address;
pub use factors::Factors;
pub use holding::Holding;
pub use laws::{factors_are_netted, order_is_free};
pub use netted_rows::NettedRows;
pub use place::{BookSide, Place, Stand};
pub use place_factors::PlaceFactors;
pub use slot::Slot;
pub use value::{PlaceValue, VolatilityMargins, measures_of};

// what the crates above reach through this one
pub use simm_rules;
pub use simm_rules::{mh_units, simm_kinds};
