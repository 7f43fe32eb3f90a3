//! Writes the messages of a feed, each as the lines that its grammar reads back as just
//! that message.
#![tactic(auto)]

mod fields;
mod law;
mod lines;
mod messages;
mod sides;

pub use law::{batches_are_blocks, given_messages_can_be_written, messages_read_back};
pub use messages::{push_crif, push_submit, push_tables, push_withdrawal};
pub use sides::push_on_side;

// what the crates above reach through this one
pub use crif_writer;
pub use feed_reader;
