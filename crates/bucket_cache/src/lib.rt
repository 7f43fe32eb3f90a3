//! The live margin of a netting set: the current trades, changed a batch or a withdrawal at a
//! time, and their margin by tables that can be replaced.
#![tactic(auto)]

mod admitting;
mod batch;
mod booking;
mod changing;
mod copying;
mod exchanging;
mod fault;
mod figures;
mod held_rows;
mod laws;
mod leaving;
mod lending;
mod lent;
mod live;
mod margining;
mod moving;
mod place;
mod replacing;
mod sums;
mod touching;

pub use batch::batch_margin;
pub use fault::{BookFault, WithdrawFault};
pub use figures::{BatchFigures, batch_figures, batch_parameters};
pub use laws::touched_values_cost;
pub use live::LiveMargin;

// what the crates above reach through this one
pub use book_margin::{
    MeasureMargins, class_combine, factor_book, kept_buckets, measure_margins, pair_sum,
    simm_params, simm_rules,
};
