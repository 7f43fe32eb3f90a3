//! Lines, each with LF.
ghost use Rattle.std.specs.Prelude.{◌≡◌, ◌++◌, OnOk};
ghost use Rattle.feed_writer.specs.Lines.{ends_in_cr, line_text, lines_text, lines_in, written};

use feed_reader::mh_units::{Text, cut_at};
use std::alloc::AllocError;

fn ends_in_cr(line: &[u8]) -> bool
    ensures { result ≡ ends_in_cr line.now }
{
    match line.last() {
        Some(byte) => *byte == b'\r',
        None => false,
    }
}

/// Adds a line with LF, and one that ends in CR with one CR more.
fn push_line(text: &mut Text, line: &[u8]) -> Result<(), AllocError>
    ensures { OnOk result (text.new ≡ text.old ++ line_text line.now) }
{
    text.extend(line)?;
    if ends_in_cr(line) {
        text.push(b'\r')?;
    }
    text.push(b'\n')
}

/// Adds the lines of a text. What stands behind its last LF is left out.
pub(crate) fn push_lines(text: &mut Text, lines: &[u8]) -> Result<(), AllocError>
    ensures { OnOk result (text.new ≡ text.old ++ lines_text (lines_in lines.now)) }
{
    let mut rest = lines;
    while let Some((line, further)) = cut_at(rest, b'\n') {
        push_line(text, line)?;
        rest = further;
    }
    Ok(())
}
