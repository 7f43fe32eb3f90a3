//! The records of CRIF files, under each grammar that reads them: comma- or tab-separated text
//! with a header, the columns by their names, and the fields that are read.
#![tactic(auto)]

mod columns;
mod fields;
mod plain;
mod records;

pub use columns::place_named;
pub use fields::{is_utf8, is_word, text_at, usd_text};
pub use plain::PlainRecords;
pub use records::{QuotedRecords, Records};

// what the crates above reach through this one
pub use simm_kinds;
pub use simm_kinds::mh_units;
