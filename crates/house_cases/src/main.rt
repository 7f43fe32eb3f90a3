//! Cases that run the whole house: each line of the file `cases`, but for those that begin with
//! `#` or `!`, has the words of one command, which runs over the files beside it, with one desk.
//! Out go the words, the status, the text that the command printed, and the notices that the
//! desk was told. Lines that begin with `!` are directives of the command below them, as what
//! fails in it.
#![tactic(auto)]

mod cases;
mod command;
mod directed;
mod edited;
mod ordered;
mod quiet_desk;
mod setting;
mod sweep;

use anyhow::{Context, Result, ensure};
use call_desk::{Desk, MemDesk};
use cases::Case;
use command::{push_told, run_line};
use directed::run_directed;
use margin_top::{NoGate, Status};
use mh_io::{MemSink, RealFolder};
use mh_units::Text;
use std::alloc::{AllocError, Global};
use std::fs;
use std::io::{self, BufWriter, Write};
use std::sync::Wait;
use std::thread::Threads;

/// The bytes that a command may print, above what any of the cases prints.
const ROOM: usize = 1 << 20;

/// The lines of the notices that desks were told.
fn told_to(alloc: Global, desks: &[Box<dyn Desk>]) -> Result<Text, AllocError> {
    let mut notices = Text::new(alloc);
    for desk in desks {
        push_told(&mut notices, desk)?;
    }
    Ok(notices)
}

/// Writes what came of a command.
fn write_case<W: Write>(
    out: &mut W,
    line: &str,
    status: Status,
    text: &[u8],
    notices: &[u8],
) -> io::Result<()> {
    write!(out, "== {line}\nstatus {}\n", status.code())?;
    out.write_all(text)?;
    out.write_all(notices)
}

/// Runs the words over the file system, with one desk, and writes them with their status, their
/// text and their notices.
fn run_plain<R: Threads + Wait + Sync, W: Write>(
    threads: &R,
    rt: HostRuntime,
    line: &str,
    out: &mut W,
) -> Result<()> {
    let alloc = rt.alloc();
    let mut folder = RealFolder::new(rt);
    let mut text = MemSink::new(alloc, ROOM, ROOM, Vec::new(alloc))?;
    let desk = MemDesk::new(Vec::new(alloc), Vec::new(alloc));
    let mut desks: Vec<Box<dyn Desk>> = Vec::new(alloc);
    desks.push(Box::new(alloc, desk)?)?;
    let mut retired = Vec::new(alloc);
    let status = run_line(
        threads,
        alloc,
        line,
        &mut folder,
        &mut text,
        &mut desks,
        &mut retired,
        &NoGate,
    )?;
    let notices = told_to(alloc, &desks)?;
    write_case(out, line, status, text.bytes(), notices.as_slice())?;
    Ok(())
}

/// Runs the words of a line with their directives, and writes what came.
fn run_with<R: Threads + Wait + Sync, W: Write>(
    threads: &R,
    rt: HostRuntime,
    line: &str,
    said: &[&str],
    out: &mut W,
) -> Result<()> {
    if said.is_empty() {
        return run_plain(threads, rt, line, out);
    }
    run_directed(threads, rt, Case::new(line, said)?, out)
}

fn main(rt: HostRuntime) -> Result<()> {
    let cases = fs::read_to_string(&rt, "cases").context("reading cases")?;
    let mut out = BufWriter::new(rt.alloc(), io::writer(&rt))?;
    let mut said: Vec<&str> = Vec::new(rt.alloc());
    for line in cases.as_str().lines() {
        if let Some(directive) = line.strip_prefix("! ") {
            said.push(directive)?;
        } else if !line.starts_with('#') {
            run_with(&rt, rt, line, said.as_slice(), &mut out)?;
            said.clear();
        }
    }
    ensure!(said.is_empty(), "directives without a command");
    out.flush()?;
    Ok(())
}
