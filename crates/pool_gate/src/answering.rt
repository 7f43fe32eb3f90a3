//! The reply to a message: its line is there before anything moves.
ghost use Rattle.std.specs.Prelude.{◌≡◌, ◌≤◌, ◌^◌, ◌++◌, OnOk, OnErr};
ghost use Rattle.csa_terms.specs.Terms.{Agreement};
ghost use Rattle.threshold_pool.specs.Seats.{IsSeatOf};
ghost use Rattle.pool_feed.specs.declared.request.Request.TheVariants as request;
ghost use Rattle.pool_feed.specs.Requests.{IsInRange};
ghost use Rattle.pool_gate.specs.Lines.{message_line};
ghost use Rattle.pool_gate.specs.Jobs.{AddsLine, Replies, RepliesNothing};

use crate::job::PoolJob;
use crate::lines::{Message, push_message};
use crate::reply::Reply;
use csa_calls::call_amount_at;
use csa_terms::SetTerms;
use mh_io::Source;
use mh_units::{Bytes, Cents, Text};
use pool_feed::Request;
use std::alloc::AllocError;
use std::sync::Wait;
use threshold_pool::{Allot, Pool};

/// Adds the line of a message with its reply, made in `room`, or nothing for want of memory.
fn add_message(
    text: &mut Text,
    room: &mut Bytes,
    message: Message,
    reply: Reply,
) -> Result<(), AllocError>
    ensures ok { OnOk result
        (text.new ≡ text.old ++ message_line message.feed message.line message.request reply) }
    ensures err { OnErr result (text.new ≡ text.old) }
{
    room.clear();
    push_message(room, message, reply)?;
    text.extend(room.as_slice())
}

impl<S: Source> PoolJob<S> {
    /// Adds the line of a message with its reply, or nothing for want of memory.
    fn add_line(&mut self, line: u32, request: Request, reply: Reply) -> Result<(), AllocError>
        ensures ok { OnOk result (AddsLine line request reply self.old self.new) }
        ensures err { OnErr result (RepliesNothing self.old self.new) }
    {
        let message = Message {
            feed: self.number,
            line,
            request,
        };
        add_message(&mut self.report.text, &mut self.room, message, reply)
    }
}

/// Replies to a message in the name of the feed's set, whose terms these are. For want of memory
/// nothing moved, and there is no line of it.
pub(crate) fn answer<R: Wait, S: Source>(
    rt: &R,
    pool: &Pool,
    terms: &SetTerms,
    job: &mut PoolJob<S>,
    line: u32,
    request: Request,
) -> Result<(), AllocError>
    requires seat { IsSeatOf pool.now job.old.seat }
    requires range { IsInRange request }
    ensures ok { OnOk result (Replies terms.now line request job.old job.new) }
    ensures err { OnErr result (RepliesNothing job.old job.new) }
{
    match request {
        Request::Allot { amount } => allot(rt, pool, job, line, amount),
        Request::Give { amount } => give(pool, job, line, amount),
        Request::Call { margin, booked } => call(terms, job, line, margin, booked),
    }
}

/// Takes an amount of the rest, or tells that it isn't there. The line is that of the amount got,
/// until it is known not to be; where it isn't there nothing moves.
fn allot<R: Wait, S: Source>(
    rt: &R,
    pool: &Pool,
    job: &mut PoolJob<S>,
    line: u32,
    amount: u64,
) -> Result<(), AllocError>
    requires seat { IsSeatOf pool.now job.old.seat }
    requires amount { (1 ≤ amount) × (amount ≤ 10 ^ 15) }
    ensures ok { (terms : Agreement)
        → OnOk result (Replies terms line (request.Allot amount) job.old job.new) }
    ensures err { OnErr result (RepliesNothing job.old job.new) }
{
    let request = Request::Allot { amount };
    let before = job.report.text.as_slice().len();
    let held = job.seat.held() + amount;
    job.add_line(line, request, Reply::Got { held })?;
    match pool.allot(rt, &mut job.seat, amount) {
        Allot::Got { .. } => Ok(()),
        Allot::Short { rest } => {
            job.report.text.truncate(before);
            job.add_line(line, request, Reply::Short { rest })
        }
    }
}

/// Gives an amount back, or tells that the set holds less.
fn give<S: Source>(
    pool: &Pool,
    job: &mut PoolJob<S>,
    line: u32,
    amount: u64,
) -> Result<(), AllocError>
    requires seat { IsSeatOf pool.now job.old.seat }
    requires amount { 1 ≤ amount }
    ensures ok { (terms : Agreement)
        → OnOk result (Replies terms line (request.Give amount) job.old job.new) }
    ensures err { OnErr result (RepliesNothing job.old job.new) }
{
    let request = Request::Give { amount };
    let held = job.seat.held();
    if amount > held {
        return job.add_line(line, request, Reply::Over { held });
    }
    job.add_line(
        line,
        request,
        Reply::Gave {
            held: held - amount,
        },
    )?;
    pool.give(&mut job.seat, amount);
    Ok(())
}

/// Tells what is called for at the threshold that the set holds. Nothing moves.
fn call<S: Source>(
    terms: &SetTerms,
    job: &mut PoolJob<S>,
    line: u32,
    margin: i64,
    booked: i64,
) -> Result<(), AllocError>
    requires { IsInRange (request.Call margin booked) }
    ensures ok { OnOk result (Replies terms.now line (request.Call margin booked) job.old job.new) }
    ensures err { OnErr result (RepliesNothing job.old job.new) }
{
    let held = Cents(i128::from(job.seat.held()));
    let call = call_amount_at(i128::from(margin), i128::from(booked), held, terms);
    job.add_line(line, Request::Call { margin, booked }, Reply::Called(call))
}
