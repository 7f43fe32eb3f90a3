//! The line of a message with its reply.
ghost use Rattle.std.specs.Prelude.{◌≡◌, ◌++◌, codes, pos, OnOk};
ghost use Rattle.mh_units.specs.Money.{money_text};
ghost use Rattle.fault_text.specs.Fields.{field, last_field};
ghost use Rattle.pool_gate.specs.Lines.{call_fields, message_line, reply_fields, request_fields};

use crate::reply::Reply;
use csa_calls::CallAmount;
use fault_text::{push_amount, push_field, push_last_amount, push_number};
use mh_units::{Cents, Text, push_cents};
use pool_feed::Request;
use std::alloc::AllocError;

/// A message of a feed, where it stands.
#[derive(Clone, Copy)]
pub(crate) struct Message {
    /// The number of its feed, from 0.
    pub feed: u32,
    /// The number of its line, from 1.
    pub line: u32,
    /// What it asks.
    pub request: Request,
}

/// Adds the line of a message with its reply.
#[tactic(auto, unfolding(crate::specs::Lines::message_line))]
pub(crate) fn push_message(
    text: &mut Text,
    message: Message,
    reply: Reply,
) -> Result<(), AllocError>
    ensures { OnOk result
        (text.new ≡ text.old ++ message_line message.feed message.line message.request reply) }
{
    push_number(text, message.feed)?;
    push_number(text, message.line)?;
    push_request(text, message.request)?;
    push_field(text, b"=")?;
    push_reply(text, reply)
}

/// Adds a field of an amount of any size.
fn push_held(text: &mut Text, cents: u64) -> Result<(), AllocError>
    ensures { OnOk result (text.new ≡ text.old ++ field (money_text (pos cents))) }
{
    push_cents(text, Cents(i128::from(cents)))?;
    text.push(b'\t')
}

/// Adds what is asked, with another field behind it.
fn push_request(text: &mut Text, request: Request) -> Result<(), AllocError>
    ensures { OnOk result (text.new ≡ text.old ++ request_fields request) }
{
    push_field(text, request.word().as_bytes())?;
    match request {
        Request::Allot { amount } | Request::Give { amount } => push_held(text, amount),
        Request::Call { margin, booked } => {
            push_amount(text, margin)?;
            push_amount(text, booked)
        }
    }
}

/// Adds a word and an amount that end a line.
fn push_last_word(text: &mut Text, word: &[u8], cents: i128) -> Result<(), AllocError>
    ensures { OnOk result
        (text.new ≡ text.old ++ (field word.now ++ last_field (money_text cents))) }
{
    push_field(text, word)?;
    push_last_amount(text, cents)
}

/// Adds a reply, as the end of its line.
fn push_reply(text: &mut Text, reply: Reply) -> Result<(), AllocError>
    ensures { OnOk result (text.new ≡ text.old ++ reply_fields reply) }
{
    match reply {
        Reply::Got { held } => push_last_word(text, b"GOT", i128::from(held)),
        Reply::Short { rest } => push_last_word(text, b"SHORT", i128::from(rest)),
        Reply::Gave { held } => push_last_word(text, b"GAVE", i128::from(held)),
        Reply::Over { held } => push_last_word(text, b"OVER", i128::from(held)),
        Reply::Called(call) => push_call(text, call),
    }
}

/// Adds what is called for, as the end of its line.
fn push_call(text: &mut Text, call: CallAmount) -> Result<(), AllocError>
    ensures { OnOk result (text.new ≡ text.old ++ call_fields call) }
{
    match call {
        CallAmount::Delivery(amount) => push_last_word(text, b"DELIVERY", i128::from(amount)),
        CallAmount::Return(amount) => push_last_word(text, b"RETURN", i128::from(amount)),
        CallAmount::Nothing(excess) => push_last_word(text, b"NOCALL", excess),
    }
}
