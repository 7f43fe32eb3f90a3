//! The top call: words in; a margin, the journals of a run with notices of its calls to desks, or
//! one fault line out.
#![tactic(auto)]

mod house;
mod words;

pub use feed_runs::{Gate, NoGate};
pub use house::margin_house;
pub use margin_calc::calc;
pub use margin_calc::command_files::Status;
pub use margin_explain::explain;
pub use margin_pool::pool;
pub use margin_run::journal_text;
pub use margin_schedule::schedule;
pub use margin_verify::verify;
pub use margin_whatif::whatif;
