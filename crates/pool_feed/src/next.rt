ghost use Rattle.std.specs.Prelude.{IfOk, IfSome};
ghost use Rattle.pool_feed.specs.Requests.{IsInRange};
ghost use Rattle.pool_feed.specs.Answers.{Answers};

use crate::request::{Request, read_request};
use feed_reader::mh_io::{LineFault, LineStep, Lines, Source};
use feed_reader::mh_units::Bytes;
use feed_reader::skip_to_line;

/// A line of a feed that isn't passed over.
#[derive(Clone, Copy)]
pub struct FedLine {
    /// Its number, from 1.
    pub line: u32,
    /// What it asks; of a line that is no message nothing.
    pub request: Option<Request>,
}

/// Gives the next line that isn't passed over, or `None` where the input ended. `room` is what a
/// line is read into; it takes memory for no more than the longest line.
///
/// An empty line and one that begins with `#` is passed over. Lines are counted from 1.
///
/// # Errors
///
/// Those of `mh_io::Lines`: `ReadFault` only where the source's count of faults rose since these
/// lines were made, `LineLong` and `TooLong` exactly by the bytes, each after every line before.
/// `Memory` for want of memory, at the line that was to be given next.
pub fn next_fed_line<S: Source>(
    lines: &mut Lines<S>,
    room: &mut Bytes,
) -> Result<Option<FedLine>, LineFault>
    ensures answers { Answers S.seen lines.old lines.new result }
    ensures range { IfOk result (λ fed. IfSome fed (λ item. IfSome item.request IsInRange)) }
{
    match skip_to_line(lines, room)? {
        LineStep::Line => Ok(Some(FedLine {
            line: lines.given(),
            request: read_request(room.as_slice()),
        })),
        LineStep::End => Ok(None),
    }
}
