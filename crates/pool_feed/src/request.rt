//! What a line asks, by its fields.
ghost use Rattle.std.specs.Prelude.{◌≡◌, [], ◌∷◌, IfSome};
ghost use Rattle.pool_feed.specs.Requests.{IsInRange, request_of, request_by, request_word};

use crate::values::{amount_in, margin_in};
use feed_reader::mh_units::cut_at;
use feed_reader::{cents_in, is_word};

/// What the desk of a netting set asks. Amounts are in cents.
#[derive(Clone, Copy)]
pub enum Request {
    /// `ALLOT` and an amount: as much more of the threshold. From 1 to 10^15.
    Allot { amount: u64 },
    /// `GIVE` and an amount of what it holds: as much less. From 1 to 10^15.
    Give { amount: u64 },
    /// `CALL`, a margin of 0 to 10^15, and what is booked, at most 10^15 in size: what is called
    /// for at the threshold that it holds.
    Call { margin: i64, booked: i64 },
}

const ALLOT: &str = "ALLOT";

const GIVE: &str = "GIVE";

const CALL: &str = "CALL";

impl Request {
    /// The word with which its line begins.
    pub fn word(self) -> &'static str
        ensures { result.now ≡ request_word self }
    {
        match self {
            Request::Allot { .. } => ALLOT,
            Request::Give { .. } => GIVE,
            Request::Call { .. } => CALL,
        }
    }
}

/// What separates the fields of a line.
const TAB: u8 = b'\t';

/// What a line asks, if it is a message.
pub(crate) fn read_request(line: &[u8]) -> Option<Request>
    ensures value { result ≡ request_of line.now }
    ensures range { IfSome result IsInRange }
{
    let (word, fields) = cut_at(line, TAB)?;
    match cut_at(fields, TAB) {
        None => read_move(word, fields),
        Some((margin, further)) => match cut_at(further, TAB) {
            None => read_call(word, margin, further),
            Some(_) => None,
        },
    }
}

/// What a line of two fields asks.
fn read_move(word: &[u8], amount: &[u8]) -> Option<Request>
    ensures value { result ≡ request_by (word.now ∷ amount.now ∷ []) }
    ensures range { IfSome result IsInRange }
{
    if is_word(word, ALLOT) {
        let amount = amount_in(amount)?;
        return Some(Request::Allot { amount });
    }
    if is_word(word, GIVE) {
        let amount = amount_in(amount)?;
        return Some(Request::Give { amount });
    }
    None
}

/// What a line of three fields asks.
fn read_call(word: &[u8], margin: &[u8], booked: &[u8]) -> Option<Request>
    ensures value { result ≡ request_by (word.now ∷ margin.now ∷ booked.now ∷ []) }
    ensures range { IfSome result IsInRange }
{
    if !is_word(word, CALL) {
        return None;
    }
    let margin = margin_in(margin)?;
    let booked = cents_in(booked)?;
    Some(Request::Call { margin, booked })
}
