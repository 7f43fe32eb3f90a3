//! What the reports of feeds of any kind print alike.
ghost use Rattle.std.specs.Prelude.{◌≡◌, ◌++◌, OnOk, decimal};
ghost use Rattle.fault_text.specs.Fields.{field, last_field};
ghost use Rattle.fault_text.specs.FeedFields.{refused_fields, end_field};

use crate::pieces::{push_field, push_last, push_last_number, push_number};
use feed_runs::FeedEnd;
use mh_units::Text;
use std::alloc::AllocError;

/// Adds the first fields of a refused message: its feed and its line. The only error is want
/// of memory.
pub fn push_refused_fields(text: &mut Text, feed: u32, line: u32) -> Result<(), AllocError>
    ensures { OnOk result (text.new ≡ text.old ++ refused_fields feed line) }
{
    push_field(text, b"REFUSED")?;
    push_number(text, feed)?;
    push_number(text, line)
}

/// Adds the line of a message that was refused with this number alone. The only error is want
/// of memory.
pub fn push_refused_number(
    text: &mut Text,
    feed: u32,
    line: u32,
    number: u8,
) -> Result<(), AllocError>
    ensures { OnOk result
        (text.new ≡ text.old ++ (refused_fields feed line ++ last_field (decimal number))) }
{
    push_refused_fields(text, feed, line)?;
    push_last_number(text, number)
}

/// Adds a word and a number that end a line.
fn push_end_at(text: &mut Text, word: &[u8], number: u64) -> Result<(), AllocError>
    ensures { OnOk result (text.new ≡ text.old ++ (field word.now ++ last_field (decimal number))) }
{
    push_field(text, word)?;
    push_last_number(text, number)
}

/// Adds how a feed ended, as the end of its line. The only error is want of memory.
pub fn push_end(text: &mut Text, end: FeedEnd) -> Result<(), AllocError>
    ensures { OnOk result (text.new ≡ text.old ++ end_field end) }
{
    match end {
        FeedEnd::End => push_last(text, b"END"),
        FeedEnd::Cut { line } => push_end_at(text, b"CUT", u64::from(line)),
        FeedEnd::LineLong { line } => push_end_at(text, b"LONG", u64::from(line)),
        FeedEnd::TooLong { taken } => push_end_at(text, b"TOOLONG", taken),
        FeedEnd::ReadFault => push_last(text, b"READ"),
        FeedEnd::Memory { line } => push_end_at(text, b"MEMORY", u64::from(line)),
    }
}
