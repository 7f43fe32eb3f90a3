//! How the margin of one batch comes about: both files are read, and its figures are printed
//! bottom up, or one fault line.
#![tactic(auto)]

mod command;
mod text_of;

pub use command::explain;
