//! Sources, sinks and folders: every byte that comes in or goes out, with counts of the faults met.
#![tactic(auto)]

mod calls;
mod folder;
mod lines_answer;
mod lines_read;
mod lines_window;
mod mem_file;
mod mem_folder;
mod mem_sink;
mod mem_source;
mod reading;
mod real;
mod sink;
mod source;
mod writing;

pub use folder::{FindRefused, Folder};
pub use lines_answer::{LineFault, LineStep, MemoryBack};
pub use lines_read::{Lines, lines_of};
pub use lines_window::LINE_BYTES;
pub use mem_folder::MemFolder;
pub use mem_sink::MemSink;
pub use mem_source::MemSource;
pub use reading::{MOST_BYTES, ReadAllFault, read_all};
pub use real::{RealFolder, RealSink, RealSource};
pub use sink::Sink;
pub use source::{Failed, Source};
pub use writing::{PutFault, put_all};

// what the crates above reach through this one
pub use mh_units;
