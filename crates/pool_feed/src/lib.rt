//! Reads what the desks of netting sets ask of a shared threshold, line by line.
//!
//! A line stands for itself: what it asks, by its fields, takes no memory to tell.
#![tactic(auto)]

mod next;
mod request;
mod values;

pub use next::{FedLine, next_fed_line};
pub use request::Request;
pub use values::amount_in;

// what the crates above reach through this one
pub use feed_reader;
