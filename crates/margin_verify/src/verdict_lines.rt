//! The line of a verdict.
ghost use Rattle.std.specs.Prelude.{◌≡◌, ◌≤◌, IfOk};
ghost use Rattle.margin_verify.specs.VerdictLines.{yes_line, no_line, name_at};
ghost use Rattle.margin_verify.specs.Verify.{VerdictPrints};

use audit_file::Verdict;
use csa_terms::Terms;
use csa_terms::mh_units::Text;
use fault_text::{push_field, push_last_number, push_number};
use feed_files::command_files::{FaultLine, Status, print_line, print_text};
use mh_io::Sink;
use std::alloc::{AllocError, Global};

/// Prints a verdict on the sets of these terms.
pub(crate) fn print_verdict<K: Sink>(
    alloc: Global,
    out: &mut K,
    terms: &Terms,
    verdict: Verdict,
) -> Status
    ensures count { (K.seen out.old).faults ≤ (K.seen out.new).faults }
    ensures printed { VerdictPrints terms.now verdict (K.seen out.old) (K.seen out.new) result }
{
    match verdict {
        Verdict::Yes { sets, entries } => match yes_line(alloc, sets, entries) {
            Ok(line) => print_text(out, line.as_slice()),
            Err(_) => Status::Memory,
        },
        Verdict::No { set, entry } => match no_line(alloc, name_at(terms, set), entry) {
            Ok(line) => {
                print_line(out, FaultLine::Whole(line.as_slice()));
                Status::Wrong
            }
            Err(_) => Status::Memory,
        },
    }
}

/// The line of a file in which every reply is right. The only error is want of memory.
fn yes_line(alloc: Global, sets: u32, entries: u32) -> Result<Text, AllocError>
    ensures { IfOk result (λ line. line ≡ yes_line sets entries) }
{
    let mut line = Text::new(alloc);
    push_field(&mut line, b"VERIFIED")?;
    push_number(&mut line, sets)?;
    push_last_number(&mut line, entries)?;
    Ok(line)
}

/// The line of the first entry, in the set of this name, whose reply is wrong. The only error is
/// want of memory.
fn no_line(alloc: Global, name: &[u8], entry: u32) -> Result<Text, AllocError>
    ensures { IfOk result (λ line. line ≡ no_line name.now entry) }
{
    let mut line = Text::new(alloc);
    push_field(&mut line, b"WRONG")?;
    push_field(&mut line, name)?;
    push_last_number(&mut line, entry)?;
    Ok(line)
}

/// The name of the set of this number, from 1.
fn name_at(terms: &Terms, set: u32) -> &[u8]
    ensures { result.now ≡ name_at terms.now set }
{
    match terms.sets().get((set as usize).saturating_sub(1)) {
        Some(agreement) => agreement.name().bytes(),
        None => b"",
    }
}
