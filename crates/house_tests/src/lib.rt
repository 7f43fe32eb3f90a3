//! Tests of the libraries above a netting set, over their public calls: what no command reaches.
#![tactic(auto)]

#[cfg(test)]
mod call_desk_calls;
#[cfg(test)]
mod margin_text_calls;
#[cfg(test)]
mod outbox;
#[cfg(test)]
mod sample_calls;
