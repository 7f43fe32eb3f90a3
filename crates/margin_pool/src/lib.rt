//! A threshold that the netting sets of a terms file share: the files are read, the feeds of the
//! sets run at the same time, and what each was replied, what each set holds and what is left are
//! printed; or one fault line is.
#![tactic(auto)]

mod pool_files;
mod pool_printing;
mod pooling;

pub use pool_feed::amount_in;
pub use pool_files::PoolFiles;
pub use pooling::pool;
