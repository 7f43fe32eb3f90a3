ghost use Rattle.mh_io.specs.Limits.{most_bytes};
ghost use Rattle.std.specs.Prelude.{◌≡◌, ◌≤◌, ◌+◌, length, Ok, false};
ghost use Rattle.feed_reader.specs.Line.{is_passed_over};
ghost use Rattle.feed_reader.specs.Steps.{Skips, Encloses, StopsAt};
ghost use Rattle.mh_io.specs.Lines.{Stop};
ghost use Rattle.mh_io.specs.Lined.{IsStopped, ComesWhere};
ghost use Rattle.mh_io.specs.Lined as reader;

use crate::words::{is_end, is_passed_over};
use mh_io::mh_units::Bytes;
use mh_io::{LineFault, LineStep, Lines, Source};

/// Gives the next line that isn't empty and doesn't begin with `#`, into `line`.
///
/// # Errors
///
/// Those of `Lines::next_line`, each where it has it.
pub fn skip_to_line<S: Source>(
    lines: &mut Lines<S>,
    line: &mut Bytes,
) -> Result<LineStep, LineFault>
    ensures skips { Skips S.seen lines.old lines.new result line.new }
    ensures comes { ComesWhere result lines.new }
    ensures bounded { lines.new.passed + length lines.new.pending ≤ most_bytes + 1 }
    ensures full { result ≡ Ok LineStep.Line → is_passed_over line.new ≡ false }
    ensures again { (stop : Stop) → IsStopped lines.old stop
        → (lines.new ≡ lines.old) × (result ≡ reader.answer_at stop) }
{
    loop {
        let step = lines.next_line(line)?;
        if step == LineStep::End || !is_passed_over(line.as_slice()) {
            return Ok(step);
        }
    }
}

/// Adds the lines up to the one that ends the block, each with LF, to `block`. At every answer but
/// `Line` some of them may have been added.
pub(crate) fn read_block<S: Source>(
    lines: &mut Lines<S>,
    block: &mut Bytes,
) -> Result<LineStep, LineFault>
    ensures encloses { Encloses S.seen lines.old lines.new result block.old block.new }
    ensures stops { StopsAt result lines.new }
    ensures bounded { lines.new.passed + length lines.new.pending ≤ most_bytes + 1 }
    ensures few { result ≡ Ok LineStep.Line → lines.new.given ≤ most_bytes }
{
    loop {
        let before = block.as_slice().len();
        if lines.append_line(block)? == LineStep::End {
            return Ok(LineStep::End);
        }
        if is_end(&block.as_slice()[before..]) {
            block.truncate(before);
            return Ok(LineStep::Line);
        }
        block.push(b'\n')?;
    }
}
