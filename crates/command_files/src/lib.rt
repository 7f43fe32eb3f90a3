//! The files of a command, each read whole by its grammar, and how a command ends at a fault
//! before its work: one status and one printed line.
//!
//! Each command above has its own files and its own work; a fault of a file is the same in all.
#![tactic(auto)]

mod fault;
mod fault_line;
mod file;
mod inputs;
mod printing;
mod status;
mod texts;
mod value_files;

pub use fault::{Fault, FileFault, InputFile};
pub use fault_line::FaultLine;
pub use file::read_file;
pub use inputs::{Inputs, read_inputs};
pub use printing::{end_at_fault, print_line, print_text};
pub use status::Status;
pub use texts::{Printed, put_texts};
pub use value_files::{read_crif_file, read_param_file, read_terms_file};
