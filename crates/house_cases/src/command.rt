ghost use Rattle.std.specs.Prelude.{◌<◌, ◌^◌};
ghost use Rattle.std.specs.Vec.{vec_len};

use call_desk::{Desk, push_notice};
use itoa::Buffer;
use margin_top::{Gate, Status, margin_house};
use mh_io::{Folder, MemSink};
use mh_units::Text;
use std::alloc::{AllocError, Global};
use std::sync::Wait;
use std::thread::Threads;

/// The words of a command: a line's pieces between single spaces, so that two spaces have an empty
/// word between them. An empty line has none.
fn words_of(alloc: Global, line: &str) -> Result<Vec<String>, AllocError> {
    let mut words = Vec::new(alloc);
    if line.is_empty() {
        return Ok(words);
    }
    for word in line.split(' ') {
        words.push(String::from_str(alloc, word)?)?;
    }
    Ok(words)
}

/// Runs a command. The proofs of the tests have no use for what the house promises, so it
/// ends here.
fn run_words<R: Threads + Wait + Sync, F: Folder, G: Gate>(
    rt: &R,
    alloc: Global,
    words: &[String],
    folder: &mut F,
    out: &mut MemSink,
    desks: &mut Vec<Box<dyn Desk>>,
    retired: &mut Vec<Box<dyn Desk>>,
    gate: &G,
) -> Status
    requires { vec_len desks.old < 2 ^ 32 }
{
    margin_house(rt, alloc, words, folder, out, desks, retired, gate)
}

/// Runs the command of a line over a folder, into a sink, with desks and a gate. The only error is
/// want of memory.
pub fn run_line<R: Threads + Wait + Sync, F: Folder, G: Gate>(
    rt: &R,
    alloc: Global,
    line: &str,
    folder: &mut F,
    out: &mut MemSink,
    desks: &mut Vec<Box<dyn Desk>>,
    retired: &mut Vec<Box<dyn Desk>>,
    gate: &G,
) -> Result<Status, AllocError>
    requires { vec_len desks.old < 2 ^ 32 }
{
    let words = words_of(alloc, line)?;
    Ok(run_words(rt, alloc, &words, folder, out, desks, retired, gate))
}

/// Adds the lines of the notices that a desk was told; of one that doesn't lend them how many it
/// was told.
pub fn push_told(text: &mut Text, desk: &Box<dyn Desk>) -> Result<(), AllocError> {
    match desk.told_list() {
        Some(told) => {
            for notice in told {
                push_notice(text, notice)?;
            }
        }
        None => {
            text.extend(b"TOLD\t")?;
            text.extend(Buffer::new().format(desk.tellings()).as_bytes())?;
            text.push(b'\n')?;
        }
    }
    Ok(())
}
