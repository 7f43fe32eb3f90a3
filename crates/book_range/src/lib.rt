//! The range of a book: the counts and weighted sizes up to which margins are calculated, by the
//! factors that it nets to, from scratch or after a batch.
#![tactic(auto)]

mod after;
mod faults;
mod gross;
mod laws;
mod range;
mod row_size;
mod sizes;
mod weighing;
mod weight;

pub use after::range_after;
pub use laws::{elsewhere_few, fewer_are_in_range, range_bounds, range_order_is_free};
pub use range::range_fault;
pub use sizes::GrossSizes;
