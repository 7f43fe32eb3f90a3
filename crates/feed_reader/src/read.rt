ghost use Rattle.std.specs.Prelude.{◌≡◌, ℕ, ◌+◌, ◌≤◌, length, List, [], ◌∷◌, ◌++◌, false};
ghost use Rattle.mh_io.specs.Lines.{Stop};
ghost use Rattle.mh_io.specs.Limits.{most_bytes};
ghost use Rattle.mh_io.specs.Lined.{Lined, Gave, IsStopped};
ghost use Rattle.feed_reader.specs.Feed.{Item};
ghost use Rattle.feed_reader.specs.Line.{is_passed_over, meaning_of};
ghost use Rattle.feed_reader.specs.Messages.{block_message};
ghost use Rattle.feed_reader.specs.Answers.{TellsItems, Follows, Answers, StopsLines, IsPlaced};
ghost use Rattle.feed_reader.specs.Answers.{answer_at};
ghost use Rattle.feed_reader.specs.Steps.{Tells, feed_fault};

use crate::block::{read_block, skip_to_line};
use crate::line::read_line;
use crate::message::{BlockKind, Meaning};
use crate::{Fed, FeedFault, Message};
use mh_io::mh_units::Bytes;
use mh_io::{LineFault, LineStep, Lines, Source};
use side_events::csa_terms::simm_kinds::Name;
use std::alloc::Global;

/// A line's fault as one of the feed: a long line is the one numbered `next`, and memory was
/// wanted for the message that begins in the line `first`.
fn feed_fault(fault: LineFault, next: u32, first: u32) -> FeedFault
    ensures { result ≡ feed_fault fault next first }
{
    match fault {
        LineFault::ReadFault => FeedFault::ReadFault,
        LineFault::LineLong => FeedFault::LineLong { line: next },
        LineFault::TooLong { taken } => FeedFault::TooLong { taken },
        LineFault::Memory => FeedFault::Memory { line: first },
    }
}

/// The message that a block of a set is.
pub fn block_message(kind: BlockKind, set: Name, block: Bytes) -> Message
    ensures { result ≡ block_message kind set block }
{
    match kind {
        BlockKind::Crif => Message::Crif { set, block },
        BlockKind::Tables => Message::Tables { set, block },
    }
}

/// Reads the block of this kind and this set, which the line that was given last began.
fn read_whole_block<S: Source>(
    alloc: Global,
    lines: &mut Lines<S>,
    kind: BlockKind,
    set: Name,
) -> Result<Option<Fed>, FeedFault>
    ensures tells { (line : List ℕ) → is_passed_over line ≡ false
        → meaning_of line ≡ Meaning.Opens kind set → Tells S.seen lines.old lines.new line result }
    ensures bounded { lines.new.passed + length lines.new.pending ≤ most_bytes + 1 }
{
    let first = lines.given();
    let mut block = Bytes::new(alloc);
    match read_block(lines, &mut block) {
        Ok(LineStep::Line) => Ok(Some(Fed {
            line: first,
            message: block_message(kind, set, block),
        })),
        Ok(LineStep::End) => Err(FeedFault::Cut { line: first }),
        Err(fault) => Err(feed_fault(fault, lines.given() + 1, first)),
    }
}

/// Reads the message that begins in the line that was given last.
fn read_message<S: Source>(
    alloc: Global,
    lines: &mut Lines<S>,
    line: &[u8],
) -> Result<Option<Fed>, FeedFault>
    requires full { is_passed_over line.now ≡ false }
    requires bounded { lines.old.passed + length lines.old.pending ≤ most_bytes + 1 }
    ensures tells { Tells S.seen lines.old lines.new line.now result }
    ensures bounded { lines.new.passed + length lines.new.pending ≤ most_bytes + 1 }
{
    let first = lines.given();
    match read_line(alloc, line) {
        Ok(Meaning::Opens { kind, set }) => read_whole_block(alloc, lines, kind, set),
        Ok(Meaning::Tells { message }) => Ok(Some(Fed {
            line: first,
            message,
        })),
        Ok(Meaning::Bad) => Err(FeedFault::BadLine { line: first }),
        Err(_) => Err(FeedFault::Memory { line: first }),
    }
}

/// Gives the next message of a feed, or `None` where the input ended outside a block.
///
/// Outside a block an empty line and one that begins with `#` is passed over. Every other line
/// that is no message is `BadLine`. Lines are counted from 1.
///
/// # Errors
///
/// `BadLine` ends only that message: the next call reads on with the next line. `Cut` exactly
/// where the input ended inside a block; the next call answers `None`. `LineLong` and `TooLong`
/// exactly as `mh_io::Lines` has them, after every message before. `ReadFault` only where the
/// source's count of faults rose since these lines were made. After these three each further call
/// answers the same. `Memory` for want of memory, in the message that begins in its line, or at
/// its line, which would have been given next where no message had begun; the lines that this call
/// was given aren't given again.
pub fn next_message<S: Source>(
    alloc: Global,
    lines: &mut Lines<S>,
) -> Result<Option<Fed>, FeedFault>
    ensures answers { Answers S.seen lines.old lines.new result }
    // What this call and those before it told, from any of them on.
    ensures follows { (first : Lined S) (told : List Item) → TellsItems S.seen first lines.old told
        → Follows S.seen first lines.new told result }
    ensures stops { StopsLines result lines.new }
    ensures placed { IsPlaced result lines.old lines.new }
    // No more bytes were taken in all.
    ensures bounded { lines.new.passed + length lines.new.pending ≤ most_bytes + 1 }
    // Where the lines stopped before, the answer is the one of the way in which they stopped, and
    // nothing changes.
    ensures again { (stop : Stop) → IsStopped lines.old stop
        → (lines.new ≡ lines.old) × (result ≡ answer_at lines.old.given stop) }
{
    let mut line = Bytes::new(alloc);
    match skip_to_line(lines, &mut line) {
        Ok(LineStep::Line) => read_message(alloc, lines, line.as_slice()),
        Ok(LineStep::End) => Ok(None),
        Err(fault) => {
            let next = lines.given() + 1;
            Err(feed_fault(fault, next, next))
        }
    }
}
