//! The margin of a whole book in range, by the factors that its rows net to: product class after
//! product class, risk class after risk class, then all together, with the additional margins.
//! What is kept of the book's places and classes is taken as it is, and what is not is worked out
//! and kept.
//! (ISDA SIMM methodology, structure of the methodology.)
#![tactic(auto)]

mod both_breakdowns;
mod class;
mod laws;
mod margin;
mod measured;
mod measures;
mod renewal;
mod value;
mod values;

pub use both_breakdowns::BothBreakdowns;
pub use laws::{
    class_margin_hangs_on_its_factors, kept_values_are_from_scratch, nothing_is_right,
    touched_stays_right,
};
pub use margin::{KeptMargin, margin_in_range, margin_over_kept};
pub use measured::measure_margins;
pub use measures::MeasureMargins;
pub use renewal::renew;

// what the crates above reach through this one
pub use class_combine;
pub use class_combine::simm_params;
pub use class_margin::{book_range, pair_sum};
pub use kept_buckets;
pub use kept_buckets::{factor_book, simm_kinds, simm_rules};
