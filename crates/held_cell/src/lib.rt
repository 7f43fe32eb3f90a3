//! A lock round a machine, in which every answer comes with a journal that begins with all that
//! its caller had seen and ends with its call.
//!
//! A [`HeldCell`] holds a [`Machine`], and a [`Seat`] stands for some of its callers. Threads
//! share the cell and have a seat each. Seats are split and joined, and the seat that has all
//! callers takes the machine out again. The journal is the machine's own. What a seat has seen of
//! it, and the calls of its callers in it, are in contracts alone.
#![tactic(auto)]

mod calls;
mod cell;
mod entry;
mod machine;
mod ranges;
mod seat;
mod steps;
mod view;

pub use cell::HeldCell;
pub use entry::Entry;
pub use machine::{Halt, Machine, Outcome, TryOutcome};
pub use seat::Seat;
