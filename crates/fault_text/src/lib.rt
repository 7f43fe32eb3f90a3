//! The fields and lines of printed text, and the line of the first fault of a file that its
//! grammar refuses.
#![tactic(auto)]

mod crif_fields;
mod fault_lines;
mod feed_fields;
mod pieces;

pub use crif_fields::push_crif_fields;
pub use fault_lines::{begun_line, crif_line, params_line, push_params_fields, terms_line};
pub use feed_fields::{push_end, push_refused_fields, push_refused_number};
pub use pieces::{
    push_amount, push_field, push_last, push_last_amount, push_last_number, push_number, push_sum,
};
