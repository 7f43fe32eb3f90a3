//! What is asked of a netting set beside its trades. Messages of feeds and events of sets hold the
//! same type.
#![tactic(auto)]

mod side_event;

pub use side_event::SideEvent;

// what the crates above reach through this one
pub use csa_terms;
