//! Desks that are told of calls: each is a channel of delivery that only the caller knows.
#![tactic(auto)]

mod desk;
mod fault;
mod mem_desk;
mod notice;
mod publishing;
mod sink_desk;

pub use desk::Desk;
pub use fault::DeskFault;
pub use mem_desk::MemDesk;
pub use notice::{Notice, push_notice};
pub use publishing::{Published, publish};
pub use sink_desk::SinkDesk;
