//! Commands with directives: each is run once, and again for each number that their N stands for,
//! over files in memory.
use crate::cases::Case;
use crate::command::{push_told, run_line};
use crate::ordered::InOrder;
use crate::quiet_desk::QuietDesk;
use crate::setting::{desk_of, folder, sink};
use crate::sweep::{Alike, Group, Seen};
use anyhow::{Context, Result, ensure};
use call_desk::Desk;
use margin_top::Status;
use mh_io::{MemFolder, MemSink};
use mh_units::Text;
use std::alloc::{AllocError, Global};
use std::io::{self, Write};
use std::str;
use std::sync::Wait;
use std::thread::Threads;

/// How a command ended, what it printed, and what desks it left and retired, with the notices that
/// each was told.
#[derive(Drop)]
pub struct Outcome {
    pub status: Status,
    pub text: Vec<u8>,
    pub told: Text,
}

impl Outcome {
    /// Whether the same came.
    pub fn is_like(&self, other: &Outcome) -> bool {
        self.status == other.status && Seen::of(self, other).is_same()
    }
}

/// Adds a line with a word for each desk, and the lines of its notices.
fn push_desks(text: &mut Text, word: &[u8], desks: &[Box<dyn Desk>]) -> Result<(), AllocError> {
    for desk in desks {
        text.extend(word)?;
        push_told(text, desk)?;
    }
    Ok(())
}

/// The last lines of a text, all of which end with LF.
fn last_lines(text: &[u8], count: u64) -> &[u8] {
    let mut front = text;
    for _ in 0..=count {
        match front.iter().rposition(|byte| *byte == b'\n') {
            Some(place) => front = &front[..place],
            None => return text,
        }
    }
    text.get(front.len().saturating_add(1)..).unwrap_or(text)
}

/// The desks that a command left, and those that it retired.
fn told_to(
    alloc: Global,
    desks: &[Box<dyn Desk>],
    retired: &[Box<dyn Desk>],
) -> Result<Text, AllocError> {
    let mut told = Text::new(alloc);
    push_desks(&mut told, b"STAYS\n", desks)?;
    push_desks(&mut told, b"RETIRED\n", retired)?;
    Ok(told)
}

/// Runs the command of a case with desks, and its calls in an order.
fn run_told<R: Threads + Wait + Sync>(
    threads: &R,
    alloc: Global,
    case: Case<'_>,
    order: Vec<u64>,
    folder: &mut MemFolder,
    out: &mut MemSink,
    desks: &mut Vec<Box<dyn Desk>>,
    retired: &mut Vec<Box<dyn Desk>>,
) -> Result<Status> {
    let gate = InOrder::new(order);
    ensure!(desks.len() < 100, "too many desks");
    let command = case.command;
    let status = run_line(threads, alloc, command, folder, out, desks, retired, &gate)?;
    ensure!(!gate.was_in_vain(), "a call waits in vain");
    ensure!(
        gate.was_kept(),
        "the calls answered are not those of the order"
    );
    Ok(status)
}

/// Runs the command of a case over a folder and into a sink, with a desk for each directive of
/// one, and its calls in an order.
fn run_over<R: Threads + Wait + Sync>(
    threads: &R,
    alloc: Global,
    case: Case<'_>,
    order: Vec<u64>,
    folder: &mut MemFolder,
    out: &mut MemSink,
) -> Result<(Status, Text)> {
    let mut desks: Vec<Box<dyn Desk>> = Vec::new(alloc);
    for directive in case.directives {
        if directive.starts_with("desk") {
            desks.push(Box::new(alloc, desk_of(alloc, case, directive)?)?)?;
        } else if let Some(rest) = directive.strip_prefix("quiet ") {
            let desk = QuietDesk::new(desk_of(alloc, case, rest)?);
            desks.push(Box::new(alloc, desk)?)?;
        }
    }
    let mut retired = Vec::new(alloc);
    let status = run_told(
        threads,
        alloc,
        case,
        order,
        folder,
        out,
        &mut desks,
        &mut retired,
    );
    let told = told_to(alloc, &desks, &retired);
    drop(desks);
    drop(retired);
    Ok((status?, told?))
}

/// The text that a case shows: all of it, or its last lines.
fn shown(alloc: Global, case: Case<'_>, text: &[u8]) -> Result<Vec<u8>> {
    let shown = match case.first_number(alloc, "last lines: ")? {
        Some(count) => last_lines(text, count),
        None => text,
    };
    Ok(shown.to_vec(alloc)?)
}

/// Runs the command of a case, with its calls in an order.
fn run_in<R: Threads + Wait + Sync>(
    threads: &R,
    rt: HostRuntime,
    case: Case<'_>,
    order: Vec<u64>,
) -> Result<Outcome> {
    let alloc = rt.alloc();
    let mut folder = folder(rt, case)?;
    let mut out = sink(alloc, case)?;
    let (status, told) = run_over(threads, alloc, case, order, &mut folder, &mut out)?;
    let text = shown(alloc, case, out.bytes())?;
    Ok(Outcome { status, text, told })
}

/// Runs the command of a case, with its calls in the order that its directives say.
fn run_once<R: Threads + Wait + Sync>(
    threads: &R,
    rt: HostRuntime,
    case: Case<'_>,
) -> Result<Outcome> {
    let order = case.numbers(rt.alloc(), "order: ")?;
    run_in(threads, rt, case, order)
}

/// Writes what came of a command.
pub fn write_outcome<W: Write>(out: &mut W, outcome: &Outcome) -> io::Result<()> {
    writeln!(out, "status {}", outcome.status.code())?;
    out.write_all(outcome.text.as_slice())?;
    out.write_all(outcome.told.as_slice())
}

/// Runs the command of a case for each number from the first to the last, and writes what came of
/// it beside the plain run.
fn run_range<R: Threads + Wait + Sync, W: Write>(
    threads: &R,
    rt: HostRuntime,
    case: Case<'_>,
    (first, last): (u64, u64),
    plain: &Outcome,
    out: &mut W,
) -> Result<()> {
    let mut group: Option<Group> = None;
    for number in first..=last {
        let outcome = run_once(threads, rt, case.at(number))?;
        let seen = Seen::of(&outcome, plain);
        group = Some(Group::after(group, number, seen, out)?);
    }
    if let Some(group) = group {
        group.write(out)?;
    }
    Ok(())
}

/// Runs the command of a case for each number from the first to the last, and writes what came of
/// it whole, once for those that follow one another where the same came.
fn run_range_in_full<R: Threads + Wait + Sync, W: Write>(
    threads: &R,
    rt: HostRuntime,
    case: Case<'_>,
    (first, last): (u64, u64),
    out: &mut W,
) -> Result<()> {
    let mut alike: Option<Alike> = None;
    for number in first..=last {
        let outcome = run_once(threads, rt, case.at(number))?;
        alike = Some(Alike::after(alike, number, outcome, out)?);
    }
    if let Some(alike) = alike {
        alike.write(out)?;
    }
    Ok(())
}

/// The feeds of a journal's entries, in the order of these.
fn callers(alloc: Global, text: &[u8]) -> Result<Vec<u64>> {
    let mut callers = Vec::new(alloc);
    for line in str::from_utf8(text)?.lines() {
        if let Some((number, rest)) = line.split_once('\t') {
            if number.parse::<u64>().is_ok() {
                let (caller, _) = rest.split_once('\t').context("no entry")?;
                callers.push(caller.parse::<u64>()?)?;
            }
        }
    }
    Ok(callers)
}

/// Runs the command of a case, whose calls come in any order, and again with its calls in that
/// order, and writes whether the same came.
fn run_freely<R: Threads + Wait + Sync, W: Write>(
    threads: &R,
    rt: HostRuntime,
    case: Case<'_>,
    out: &mut W,
) -> Result<()> {
    let free = run_in(threads, rt, case, Vec::new(rt.alloc()))?;
    let order = callers(rt.alloc(), free.text.as_slice())?;
    writeln!(out, "status {}", free.status.code())?;
    writeln!(out, "calls {}", order.len())?;
    let ordered = run_in(threads, rt, case, order)?;
    let seen = Seen::of(&free, &ordered);
    writeln!(out, "as in their order: {}", seen.is_same())?;
    Ok(())
}

/// Runs the command of a case with its directives, and writes them with what came.
pub fn run_directed<R: Threads + Wait + Sync, W: Write>(
    threads: &R,
    rt: HostRuntime,
    case: Case<'_>,
    out: &mut W,
) -> Result<()> {
    writeln!(out, "== {}", case.command)?;
    for directive in case.directives {
        writeln!(out, "! {directive}")?;
    }
    if case.says("any order") {
        return run_freely(threads, rt, case, out);
    }
    let plain = run_once(threads, rt, case)?;
    write_outcome(out, &plain)?;
    match case.range()? {
        Some(range) if case.says("in full") => run_range_in_full(threads, rt, case, range, out),
        Some(range) => run_range(threads, rt, case, range, &plain, out),
        None => Ok(()),
    }
}
