//! Dates and times of day in words, as files and feeds have them: exactly `YYYY-MM-DD` and
//! `HH:MM`, on the calendar that ISO 8601 extends to all years.
#![tactic(auto)]

mod date;

pub use date::{DateNumbers, date_in, day_of_date, minute_in, numbers_in};
