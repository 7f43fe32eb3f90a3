//! What-if margins: that of a book with a candidate batch and without some of its trades, beside
//! the book's own, and its total without each of some trades. The live margin that is asked is
//! only read.
#![tactic(auto)]

mod asking;
mod fault;
mod leaving;

pub use asking::{WhatIf, what_if};
pub use fault::WhatIfFault;
pub use leaving::leave_one;

// what the crates above reach through this one
pub use bucket_cache;
