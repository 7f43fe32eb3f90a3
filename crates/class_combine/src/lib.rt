//! From the margins of the risk classes to a whole margin: the product classes' margins, the
//! add-ons, and the total. Add-ons come from sums that are kept as rows come and go, and only a
//! new qualifier takes memory.
//! (ISDA SIMM methodology, structure: risk classes within a product class; additional margins.)
#![tactic(auto)]

mod additional;
mod laws;
mod multipliers;
mod notional;
mod notional_sum;
mod notionals;
mod product;
mod sums;
mod whole;

pub use additional::{AddOns, add_ons};
pub use laws::{parameters_stand_for_book, sizes_are_of_rows, sums_ignore_order};
pub use multipliers::multiplier_share;
pub use notional::{NotionalShare, notional_share};
pub use product::product_margin;
pub use sums::AddOnSums;
pub use whole::{breakdown, product_margins};

// what the crates above reach through this one
pub use simm_params;
