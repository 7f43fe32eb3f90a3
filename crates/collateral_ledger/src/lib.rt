//! The collateral ledger of a netting set: lots with their haircuts, calls that are outstanding,
//! and what is booked.
//! (ISDA 2016 Credit Support Annex for Initial Margin.)
#![tactic(auto)]

mod calls;
mod fault;
mod ledger;
mod lots;
mod open_call;
mod rated_lot;
mod rates;

pub use fault::LedgerFault;
pub use ledger::Ledger;

// what the crates above reach through this one
pub use csa_terms;
pub use csa_terms::{mh_units, simm_kinds};
