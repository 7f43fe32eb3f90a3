//! A run of feeds on the netting sets of a terms file: the files are read, the feeds run at the
//! same time, the journals and what became of the feeds are printed, or the audit texts of the
//! sets, and desks are told the calls of what was collected; or one fault line is printed.
#![tactic(auto)]

mod account;
mod feeds_run;
mod law;
mod run_ending;
mod run_files;
mod run_printing;
mod running;
mod telling;

pub use account::Account;
pub use margin_text::journal_text;
pub use run_files::RunFiles;
pub use running::run;
