ghost use Rattle.std.specs.Prelude.{◌≡◌, ◌+◌, ◌<◌, ◌^◌, length, map, IfOk};
ghost use Rattle.audit_file.specs.Replays.{rule_of};
ghost use Rattle.audit_file.specs.Rules.{begun};
ghost use Rattle.audit_file.specs.Verdict.{Answers};
ghost use Rattle.audit_file.specs.Steps.{audit_fault};

use crate::answer::{AuditFault, Halt, Verdict};
use crate::place::At;
use crate::replay::Replay;
use crate::set_replay::SetReplay;
use crate::step::{at_end, step};
use feed_events::set_core::simm_params::Params;
use feed_reader::csa_terms::simm_kinds::Name;
use feed_reader::csa_terms::{BothTerms, Terms};
use mh_io::mh_units::{Bytes, Text};
use mh_io::{LineFault, LineStep, Lines, Source};
use std::alloc::{AllocError, Global};

fn line_fault(fault: LineFault, n: u32) -> AuditFault
    ensures { result ≡ audit_fault fault n }
{
    match fault {
        LineFault::ReadFault => AuditFault::ReadFault,
        LineFault::LineLong => AuditFault::Long { line: n },
        LineFault::TooLong { taken } => AuditFault::TooLong { taken },
        LineFault::Memory => AuditFault::Memory,
    }
}

/// Reads an audit file of these sets, in this order, and replays each entry.
pub fn verify_by<M: Replay, S: Source>(
    alloc: Global,
    machine: &mut M,
    names: &[Name],
    lines: &mut Lines<S>,
) -> Result<Verdict, AuditFault>
    requires few { length names.now < 2 ^ 32 }
    requires count { length names.now ≡ length (M.base machine.old).terms }
    requires begun { M.log machine.old ≡ begun (length names.now) }
    ensures { Answers S.seen (M.rule (M.base machine.old)) names.now lines.old lines.new result }
{
    let mut line = Bytes::new(alloc);
    let mut reply = Text::new(alloc);
    let mut at = At::start();
    loop {
        match lines.next_line(&mut line) {
            Ok(LineStep::Line) => {
                let n = lines.given();
                match step(alloc, machine, &mut reply, names, at, n, line.as_slice()) {
                    Ok(next) => at = next,
                    Err(Halt::Ends(answer)) => return answer,
                    Err(Halt::Memory) => return Err(AuditFault::Memory),
                }
            }
            Ok(LineStep::End) => return at_end(names, &at, lines.given() + 1),
            Err(fault) => return Err(line_fault(fault, lines.given() + 1)),
        }
    }
}

/// The names of sets, in their order. The only error is want of memory.
fn names_of(alloc: Global, sets: &[BothTerms]) -> Result<Vec<Name>, AllocError>
    ensures { IfOk result (λ names. names.items ≡ map (λ t. t.collect.name) sets.now) }
{
    let mut names = Vec::with_capacity(alloc, sets.len())?;
    for set in sets {
        names.push(set.name().copy(alloc)?)?;
    }
    Ok(names)
}

/// Reads an audit file and works out each reply anew, by the written rule over the entries before
/// it, one set after another in the order of the terms.
///
/// The first thing in the file that decides is the answer: an entry whose reply line isn't that of
/// the rule, with all lines before it in the format, is `No`; where none is, and the file is whole,
/// `Yes`.
///
/// # Errors
///
/// `NotAudit` exactly at the first line that isn't in the format, or with the number after the last
/// line where the file ends early. A block that its grammar refuses isn't, at its first line.
/// `Full` exactly at the entry at which the journal meets the limits of a set. `Long` and `TooLong`
/// exactly as `mh_io::Lines` has them. `ReadFault` only where the source's count of faults rose.
/// `Memory` for want of memory.
pub fn verify<S: Source>(
    alloc: Global,
    params: &Params,
    terms: &Terms,
    lines: &mut Lines<S>,
) -> Result<Verdict, AuditFault>
    ensures { Answers S.seen (rule_of (record { params = params.now; terms = terms.now }))
        (map (λ t. t.collect.name) terms.now) lines.old lines.new result }
{
    let Ok(names) = names_of(alloc, terms.sets()) else {
        return Err(AuditFault::Memory);
    };
    let mut machine = SetReplay::new(params, terms);
    verify_by(alloc, &mut machine, &names, lines)
}
