//! The margin of one batch: both files are read, and the margin or one fault line is printed.
#![tactic(auto)]

mod calculation;
mod files;
mod margin_of;
mod printing;
mod refusal;
mod refused_batch;

pub use calculation::calc;
pub use files::{CalcInput, read_both};
pub use refusal::batch_fault;

// what the crates above reach through this one
pub use command_files;
