ghost use Rattle.std.specs.Prelude.{◌≡◌, ◌<◌, IfOk, IsOk, OnErr};
ghost use Rattle.bucket_cache.specs.SimmRules.declared.values.Breakdown.{Breakdown};
ghost use Rattle.set_core.specs.Reserved.{LeavesRoom};
ghost use Rattle.set_core.specs.declared.reply.Reply.TheVariants as replies;

use crate::put_by::PutBy;
use crate::{CallNote, Event, Refusal, SharedMargin};
use std::alloc::AllocError;

/// What an event was answered.
#[derive(Drop)]
pub enum Reply {
    /// The change was made.
    Accepted,
    /// The event was refused.
    Refused(Refusal),
    /// The margin of the current trades on the side that asked.
    Margin(SharedMargin),
    /// A call was made, and is outstanding.
    Called(CallNote),
    /// No call was made: the excess of the margin above the threshold over what is booked, the
    /// margin, and what is booked, in cents.
    NoCall {
        excess: i128,
        margin: i128,
        booked: i128,
    },
}

impl Reply {
    /// The same reply for one more holder, which shares the parts of a margin.
    ///
    /// # Errors
    ///
    /// For want of memory alone, at a margin, where no room was put by.
    pub(crate) fn share(&self, put_by: &mut PutBy) -> Result<Reply, AllocError>
        ensures value { IfOk result (λ reply. reply ≡ self.now) }
        ensures margin { OnErr result ((b : Breakdown) × (self.now ≡ replies.Margin b)) }
        ensures room { 0 < put_by.old → IsOk result }
        ensures left { LeavesRoom 1 put_by.old put_by.new result }
    {
        let shared = match self {
            Reply::Accepted => Reply::Accepted,
            Reply::Refused(refusal) => Reply::Refused(*refusal),
            Reply::Margin(margin) => Reply::Margin(margin.share(put_by)?),
            Reply::Called(note) => Reply::Called(*note),
            Reply::NoCall {
                excess,
                margin,
                booked,
            } => Reply::NoCall {
                excess: *excess,
                margin: *margin,
                booked: *booked,
            },
        };
        Ok(shared)
    }
}

/// One call in a set's journal: the number of its caller, the event, and the reply.
pub type Entry = held_cell::Entry<Event, Reply>;
