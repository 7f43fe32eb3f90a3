//! Units, rounding and numerals: the exact arithmetic that every margin and call amount rests on;
//! and bytes with their parts.
#![tactic(auto)]

mod bytes;
mod cut;
mod laws;
mod money;
mod numeral;
mod parts;
mod quantities;
mod rounding;
mod scan;
mod value;

pub use bytes::{Bytes, Text};
pub use cut::cut_at;
pub use laws::{numerals_are_scanned, readings_are_written};
pub use money::{push_cents, write_cents};
pub use numeral::{NumeralFault, read_cents, read_fixed, read_rate4};
pub use quantities::{Cents, Corr6, Rate4};
pub use rounding::{clamp_to, div_away, div_down, div_trunc, div_up, least_root, mul_corr};
