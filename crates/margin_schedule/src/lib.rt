//! The margin of a portfolio by the standard schedule: its records are read from a CRIF file, and
//! the margin or one fault line is printed.
#![tactic(auto)]

mod command;
mod fault_lines;
mod margin_lines;
mod margin_of;

pub use command::schedule;
pub use schedule_im::EndDate;
