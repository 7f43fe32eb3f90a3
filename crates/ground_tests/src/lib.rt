//! Tests of the libraries that know nothing of parameters and terms, over calls that no command
//! reaches: the shared cell and its seats, the shared total, the writer of batches, files that are
//! written, a source that is handed back, an amount as a text of its own.
#![tactic(auto)]

#[cfg(test)]
mod crif_writer_calls;
#[cfg(test)]
mod held_cell_calls;
#[cfg(test)]
mod makers;
#[cfg(test)]
mod mh_io_files;
#[cfg(test)]
mod mh_io_lines;
#[cfg(test)]
mod mh_units_money;
#[cfg(test)]
mod multiplier;
#[cfg(test)]
mod portfolio;
#[cfg(test)]
mod threshold_pool_calls;
