//! Reads the rows of the standard schedule from a CRIF file: the records whose margin model
//! is `Schedule`.
#![tactic(auto)]

mod column;
mod columns;
mod fault;
mod fields;
mod read;
mod row;

pub use column::ScheduleColumn;
pub use fault::{ScheduleFault, ScheduleRowFault};
pub use read::read_schedule;

// what the crates above reach through this one
pub use crif_records::mh_units;
pub use schedule_im;
