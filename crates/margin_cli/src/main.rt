//! The program: runs the words of the command line over the file system, prints to standard
//! output, and tells of calls by lines on standard error.
#![tactic(auto)]

use call_desk::{Desk, SinkDesk};
use margin_top::{NoGate, Status, margin_house};
use mh_io::{RealFolder, RealSink};
use std::alloc::AllocError;
use std::process::ExitCode;
use std::rt::Env;
use std::sync::Wait;
use std::thread::Threads;
use std::{env, io};

/// The words behind the program's own name.
fn words(rt: &(impl Env + AllocGlobal)) -> io::Result<Vec<String>> {
    let mut words = Vec::new(rt.alloc());
    for word in env::args(rt)?.skip(1) {
        words.push(word)?;
    }
    Ok(words)
}

/// Runs the words by these threads, with standard error as the one desk. The only error is want
/// of memory.
fn run<R: Threads + Wait + Sync>(
    threads: &R,
    rt: HostRuntime,
    words: &[String],
) -> Result<Status, AllocError> {
    let alloc = rt.alloc();
    let mut folder = RealFolder::new(rt);
    let mut out = RealSink::new(rt.stdout());
    let desk = SinkDesk::new(alloc, RealSink::new(rt.stderr()));
    let mut desks: Vec<Box<dyn Desk>> = Vec::new(alloc);
    desks.push(Box::new(alloc, desk)?)?;
    let mut retired = Vec::new(alloc);
    Ok(margin_house(
        threads,
        alloc,
        words,
        &mut folder,
        &mut out,
        &mut desks,
        &mut retired,
        &NoGate,
    ))
}

fn main(rt: HostRuntime) -> ExitCode {
    let outcome = match words(&rt) {
        Ok(words) => run(&rt, rt, words.as_slice()),
        Err(error) if error.kind() == io::ErrorKind::OutOfMemory => Err(AllocError),
        Err(_) => run(&rt, rt, &[]),
    };
    ExitCode::from(outcome.unwrap_or(Status::Memory).code())
}
