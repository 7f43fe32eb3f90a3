//! The kinds of value in a TOML file, each with its one test, and where in the file a value stands.
#![tactic(auto)]

mod document;
mod fault;
mod kind;
mod number;
mod path;
mod range;
mod shape;

pub use document::read_document;
pub use fault::ValueFault;
pub use kind::{currency, flag, text};
pub use number::{money, rate, six, usd};
pub use path::{Part, path_text};
pub use range::Range;
pub use shape::{array, array_of_length, entry_count, member, place, place_count, table};

// what the crates above reach through this one
pub use simm_kinds;
pub use simm_kinds::mh_units;
