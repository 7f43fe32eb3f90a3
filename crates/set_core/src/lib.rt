//! A netting set: trades are submitted, replaced and withdrawn, its tables are replaced, lots of
//! collateral are put, taken and marked, its margin is asked and collateral is called for, on each
//! of the two sides of the margin, and a journal holds each event with its answer. Each answer is
//! the written rule, from scratch, over the journal's earlier accepted entries.
#![tactic(auto)]

mod answering;
mod asking;
mod call_note;
mod calling;
mod collateral;
mod event;
mod ledgers;
mod machine;
mod put_by;
mod refusal;
mod reply;
mod reply_words;
mod set_state;
mod shared_margin;

pub use call_note::CallNote;
pub use event::Event;
pub use held_cell::Halt;
pub use refusal::Refusal;
pub use reply::{Entry, Reply};
pub use reply_words::{push_reply, reply_text};
pub use set_state::SetState;
pub use shared_margin::SharedMargin;

// what the crates above reach through this one
pub use bucket_cache;
pub use bucket_cache::{pair_sum, simm_params};
pub use collateral_ledger::csa_terms;
pub use held_cell;
pub use params_file;
pub use side_events;
