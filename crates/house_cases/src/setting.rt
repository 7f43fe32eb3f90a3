//! What a command runs over and into, as its directives say.
use crate::cases::Case;
use crate::edited::edited;
use anyhow::{Context, Result};
use call_desk::MemDesk;
use mh_io::{MemFolder, MemSink};
use mh_units::Bytes;
use std::alloc::Global;
use std::fs;
use std::io::ErrorKind;

/// The bytes that a sink has room for, where no directive says how many.
const ROOM: usize = 1 << 20;

/// The bytes that a file gives at once, where no directive says how many.
const READ: usize = 1 << 16;

fn size(number: Option<u64>, otherwise: usize) -> Result<usize> {
    match number {
        Some(number) => Ok(usize::try_from(number)?),
        None => Ok(otherwise),
    }
}

/// Adds a file to a folder, with its lines changed.
fn add_file(
    alloc: Global,
    folder: &mut MemFolder,
    name: &str,
    bytes: Bytes,
    case: Case<'_>,
) -> Result<()> {
    let most = size(case.first_number(alloc, "bytes of a read: ")?, READ)?;
    let reads = format!(in alloc; "reads of {name} that fail: ")?;
    let failing = case.numbers(alloc, reads.as_str())?;
    let bytes = edited(alloc, case, name, bytes)?;
    folder.add(alloc, name, bytes, most.max(1), failing)?;
    Ok(())
}

/// The bytes of whole files, each so often, as words say: a number, a file, a number, a file.
fn bytes_of(rt: HostRuntime, words: &str) -> Result<Bytes> {
    let mut bytes = Bytes::new(rt.alloc());
    let mut count = 0u64;
    for (place, word) in words.split(' ').enumerate() {
        if place % 2 == 0 {
            count = word.parse::<u64>().context(format_args!("reading {word}"))?;
        } else {
            add_often(&mut bytes, fs::read(&rt, word)?.as_slice(), count)?;
        }
    }
    Ok(bytes)
}

fn add_often(bytes: &mut Bytes, more: &[u8], count: u64) -> Result<()> {
    for _ in 0..count {
        bytes.extend(more)?;
    }
    Ok(())
}

/// Adds the file that a directive makes, if it makes one.
fn add_made(
    rt: HostRuntime,
    folder: &mut MemFolder,
    directive: &str,
    case: Case<'_>,
) -> Result<()> {
    if let Some(rest) = directive.strip_prefix("file ") {
        let (name, words) = rest.split_once(": ").context("a file of what")?;
        let bytes = bytes_of(rt, words)?;
        add_file(rt.alloc(), folder, name, bytes, case)?;
    }
    Ok(())
}

/// A folder with the files that a command names, those that are there and those that
/// directives make.
pub fn folder(rt: HostRuntime, case: Case<'_>) -> Result<MemFolder> {
    let alloc = rt.alloc();
    let mut folder = MemFolder::new(case.numbers(alloc, "finds that fail: ")?);
    for word in case.command.split(' ') {
        match fs::read(&rt, word) {
            Ok(file) => {
                let bytes = Bytes::from_slice(alloc, file.as_slice())?;
                add_file(alloc, &mut folder, word, bytes, case)?;
            }
            // (a word that is no file's name, and a file that isn't there, are no file of
            // the folder)
            Err(error) if error.kind() != ErrorKind::OutOfMemory => {}
            Err(error) => return Err(error.into()),
        }
    }
    for directive in case.directives {
        add_made(rt, &mut folder, directive, case)?;
    }
    Ok(folder)
}

/// An empty sink.
pub fn sink(alloc: Global, case: Case<'_>) -> Result<MemSink> {
    let room = size(case.first_number(alloc, "bytes of the sink: ")?, ROOM)?;
    let most = size(case.first_number(alloc, "bytes of a put: ")?, room)?;
    let failing = case.numbers(alloc, "puts that fail: ")?;
    Ok(MemSink::new(alloc, room, most, failing)?)
}

/// The desk of a directive without the word `quiet`.
pub fn desk_of(alloc: Global, case: Case<'_>, directive: &str) -> Result<MemDesk> {
    let failing = case.numbers_of(alloc, directive, "desk, calls that fail: ")?;
    let wanting = case.numbers_of(alloc, directive, "desk, calls that find no memory: ")?;
    Ok(MemDesk::new(failing, wanting))
}
