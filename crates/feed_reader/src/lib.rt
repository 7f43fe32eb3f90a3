//! Reads the messages of a feed, one by one, from its lines.
#![tactic(auto)]

mod block;
mod fault;
mod fields;
mod line;
mod message;
mod messages;
mod read;
mod sides;
mod unread;
mod values;
mod words;

pub use block::skip_to_line;
pub use fault::FeedFault;
pub use line::read_line;
pub use message::{BlockKind, Fed, Meaning, Message};
pub use read::{block_message, next_message};
pub use values::{cents_in, number_in};
pub use words::{is_end, is_passed_over, is_word};

// what the crates above reach through this one
pub use mh_io;
pub use mh_io::mh_units;
pub use side_events;
pub use side_events::csa_terms;
