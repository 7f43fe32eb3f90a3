//! The margin of a book with all of its sensitivities negated, by the book itself. Each bucket has
//! the same q, k, gross and cr, and the negated sums; so delta, vega, base correlation, the
//! add-ons and the range are the same, and curvature alone differs. The functions do nothing:
//! their contracts hand out the laws.
//! (ISDA SIMM methodology, structure: sensitivities are signed, and the two parties to a trade
//! have the negated ones.)
#![tactic(auto)]

mod base;
mod credit;
mod exchange;
mod priced;
mod rates;
mod whole;

pub use base::base_correlation_is_even;
pub use credit::credit_turns;
pub use exchange::exchange_turns;
pub use priced::names_turn;
pub use rates::rates_turn;
pub use whole::{add_ons_stay, factors_are_negated, nets_are_negated, range_stays};
