//! What is kept of a book between one question and the next: the values of its places and the
//! margins of its risk classes. Rows that come or go touch the places that they lie in and the
//! classes of these; what is touched is forgotten.
//! (ISDA SIMM methodology, structure: a bucket's value and a class's margin are of its own
//! sensitivities alone.)
#![tactic(auto)]

mod both_margins;
mod kept;
mod laws;

pub use both_margins::BothMargins;
pub use kept::KeptBuckets;
pub use laws::{kept_values_save_steps, other_factors_stand, touches_add_up};

// what the crates above reach through this one
pub use factor_book;
pub use factor_book::{mh_units, simm_kinds, simm_rules};
