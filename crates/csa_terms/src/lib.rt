//! The terms of an agreement for collateral: a TOML file read exactly by its grammar, the look-ups
//! of a netting set, and the day on which a call is due.
#![tactic(auto)]

mod both_terms;
mod due;
mod fault;
mod flow;
mod haircut_entries;
mod haircut_table;
mod holiday_list;
mod holiday_places;
mod keyed;
mod lot_currency;
mod moment;
mod moment_words;
mod names;
mod range;
mod reading;
mod set_reader;
mod set_terms;
mod sets;
mod terms;
mod terms_path;
mod value;

pub use both_terms::BothTerms;
pub use due::{DayRange, due_day};
pub use fault::TermsFault;
pub use flow::Flow;
pub use haircut_table::HaircutTable;
pub use holiday_list::HolidayList;
pub use lot_currency::LotCurrency;
pub use moment::Moment;
pub use moment_words::{push_day, push_moment};
pub use reading::read_terms;
pub use set_terms::{Amounts, SetTerms};
pub use terms::Terms;

// what the crates above reach through this one
pub use toml_values::{mh_units, simm_kinds};
