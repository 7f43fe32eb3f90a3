//! The verification of an audit file: parameters, terms and the file are read, each of its entries
//! is answered anew, and the verdict or one fault line is printed.
#![tactic(auto)]

mod command;
mod fault_lines;
mod judging;
mod verdict_lines;

pub use command::{VerifyFiles, verify};
