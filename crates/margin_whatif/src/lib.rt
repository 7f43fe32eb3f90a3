//! What a candidate would make of a margin: three files are read, and the margins before and
//! after are printed, and the total without each of some trades, or one fault line.
#![tactic(auto)]

mod asked;
mod command;
mod fault_line;
mod files;
mod lines;
mod live;
mod text_of;
mod words;

pub use command::whatif;
pub use files::WhatIfFiles;
pub use words::is_trade;
