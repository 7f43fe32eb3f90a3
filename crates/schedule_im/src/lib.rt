//! Margin by the standard schedule: a rate of the notional by product class and remaining term,
//! and of the gross so found the part that the ratio of net to gross replacement cost leaves.
#![tactic(auto)]

mod class;
mod end_date;
mod gross;
mod margin;
mod parts;
mod row;

pub use class::{ScheduleClass, ScheduleKind};
pub use end_date::EndDate;
pub use gross::ClassGross;
pub use margin::{ScheduleMargin, ScheduleRange, schedule_margin};
pub use row::ScheduleRow;

// what the crates above reach through this one
pub use simm_rules::{mh_units, simm_kinds};
