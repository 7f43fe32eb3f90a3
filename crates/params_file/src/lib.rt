//! The parameter file of the margin rule: TOML, read exactly by its grammar; and its text beside
//! what it says.
#![tactic(auto)]

mod bucket_array;
mod bucket_class;
mod bucket_form;
mod bucket_table;
mod checks;
mod class_table;
mod class_thickness;
mod currencies;
mod fault;
mod fx_table;
mod fx_thickness;
mod group_array;
mod ir_rate;
mod ir_table;
mod ir_thickness;
mod key_rate;
mod matrix_array;
mod param_text;
mod place;
mod range;
mod rate_array;
mod reading;
mod root_table;
mod symmetry;
mod text_fault;
mod thickness;
mod threshold_table;

pub use fault::ParamFault;
pub use param_text::ParamText;
pub use reading::read_params;
pub use text_fault::ParamTextFault;

// what the crates above reach through this one
pub use simm_params;
pub use simm_params::simm_rules;
