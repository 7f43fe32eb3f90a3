//! Printed text: the lines of a set's journal, and of a feed's report.
#![tactic(auto)]

mod entry_lines;
mod event_fields;
mod feed_lines;
mod set_journal;
mod trade_lines;

pub use feed_lines::push_report;
pub use set_journal::{journal_text, push_journal};
