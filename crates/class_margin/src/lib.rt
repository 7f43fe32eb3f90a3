//! The margins of a risk class in a product class: the values of a place, by what stands there,
//! and the delta, vega and curvature margins over the values of all places that have a factor in a
//! book; and base correlation. (ISDA SIMM methodology, delta, vega and curvature margin; base
//! correlation margin.)
#![tactic(auto)]

mod across;
mod curvature;
mod listed;
mod margins;
mod names_delta;
mod negation;
mod parts;
mod rates_delta;
mod ratios;
mod table;
mod value;

pub use margins::{
    base_margin, curvature_margin, delta_margin, posted_curvature_margin, vega_margin,
};
pub use names_delta::products_are_netted;
pub use negation::delta_and_vega_are_even;
pub use value::{place_value, places_can_be_measured};

// what the crates above reach through this one
pub use book_range;
pub use class_rates::pair_sum;
pub use negated_book;
