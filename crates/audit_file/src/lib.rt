//! Audit files: the journals of netting sets as text, from which another party works out each reply
//! anew.
#![tactic(auto)]

mod answer;
mod audit_text;
mod begun;
mod fields;
mod law;
mod place;
mod replay;
mod reply_line;
mod set_replay;
mod step;
mod verifying;

pub use answer::{AuditFault, Verdict};
pub use audit_text::push_audit;
pub use law::{events_can_be_told, legal_texts_are_answered_yes, yes_means_legal};
pub use replay::{Replay, Unruled};
pub use set_replay::SetReplay;
pub use verifying::{verify, verify_by};
