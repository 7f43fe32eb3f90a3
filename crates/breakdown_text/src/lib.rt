//! The printed lines of a margin with its parts, and the fields of a risk factor.
#![tactic(auto)]

mod breakdown_lines;
mod factor_fields;

pub use breakdown_lines::{
    margin_lines, push_add_ons, push_class_margin, push_margin_parts, push_product_margin,
    push_total,
};
pub use factor_fields::{push_factor, push_factor_parts};

// what the crates above reach through this one
pub use fault_text;
