ghost use Rattle.std.specs.Prelude.{◌≤◌};
ghost use Rattle.margin_calc.specs.Calc.{MarginPrints};

use breakdown_text::margin_lines;
use command_files::Status;
use mh_io::{Sink, put_all};
use simm_rules::Breakdown;
use std::alloc::Global;

/// Prints a margin with its parts.
pub(crate) fn print_margin<K: Sink>(alloc: Global, out: &mut K, margin: &Breakdown) -> Status
    ensures count { (K.seen out.old).faults ≤ (K.seen out.new).faults }
    ensures printed { MarginPrints margin.now (K.seen out.old) (K.seen out.new) result }
{
    let Ok(text) = margin_lines(alloc, margin) else {
        return Status::Memory;
    };
    match put_all(out, text.as_slice()) {
        Ok(()) => Status::Done,
        Err(_) => Status::Write,
    }
}
