//! Reads CRIF files: tables of sensitivities, a record each, in comma- or tab-separated text with
//! a header.
#![tactic(auto)]

mod column;
mod columns;
mod factor;
mod fault;
mod fields;
mod gather;
mod names;
mod params;
mod read;
mod row;
mod row_stop;

pub use column::Column;
pub use fault::{CrifFault, RowFault};
pub use read::{ReadBatch, read_batch};

// what the crates above reach through this one
pub use crif_records;
pub use crif_records::{mh_units, simm_kinds};
