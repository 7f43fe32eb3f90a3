//! A total that threads share, by one word, which is what is left of it.
//!
//! A [`Pool`] has the rest of a total, and a [`PoolSeat`] holds an allotment of it. Threads share
//! the pool and have a seat each. Between any two steps of any threads the rest and the allotments
//! of all seats add up to the total. Seats are split and joined, and the seat with all parts takes
//! the rest out. The moves of a seat, and what it was told, are in contracts alone. Amounts are
//! whole numbers, of cents in the house.
#![tactic(auto)]

mod calls;
mod parts;
mod pool;
mod seat;
mod steps;
mod view;

pub use calls::{Allot, TryAllot};
pub use pool::Pool;
pub use seat::PoolSeat;
