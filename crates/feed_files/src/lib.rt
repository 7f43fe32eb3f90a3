//! The feeds of a command as files of a folder: each is found before one is run, and each that was
//! found is handed back; and how their ends are a status of the command.
//!
//! Each command above runs them in its own way.
#![tactic(auto)]

mod ends;
mod sources;

pub use ends::status_of_end;
pub use sources::{find_feeds, take_all_back};

// what the crates above reach through this one
pub use command_files;
