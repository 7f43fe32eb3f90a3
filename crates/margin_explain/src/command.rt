ghost use Rattle.std.specs.Prelude.{◌≤◌};
ghost use Rattle.margin_calc.specs.CommandFiles.Complete.{EndsWell};
ghost use Rattle.margin_calc.specs.CommandFiles.Files.{KeepsCounts};
ghost use Rattle.margin_calc.specs.Complete.{IsWell};
ghost use Rattle.margin_explain.specs.Explain.{ExplainEnds};

use crate::text_of::text_of_files;
use margin_calc::command_files::{Status, end_at_fault, print_text};
use mh_io::{Folder, Sink};
use std::alloc::Global;

/// Prints how the margin of one batch comes about, bottom up: its nets, the values of its buckets
/// in each measure, the margins over them, its additional margins, and the whole. `params` and
/// `crif` name the parameter file and the CRIF file in the folder. It waits for nobody.
///
/// With status `Done` the sink got the lines that the written rule gives of the two files; with
/// `Write` a front of them, since the sink failed. Every other status comes as for `calc` on these
/// files, with its line.
pub fn explain<F: Folder, K: Sink>(
    alloc: Global,
    params: &str,
    crif: &str,
    folder: &mut F,
    out: &mut K,
) -> Status
    ensures counts { KeepsCounts (F.seen folder.old) (F.seen folder.new) }
    ensures count { (K.seen out.old).faults ≤ (K.seen out.new).faults }
    ensures ends { ExplainEnds params.now crif.now
        (F.seen folder.old) (F.seen folder.new) (K.seen out.old) (K.seen out.new) result }
    // Where all is well the lines are printed, or memory ran out.
    ensures complete { IsWell params.now crif.now (F.seen folder.old) (F.seen folder.new)
        (K.seen out.old) (K.seen out.new) → EndsWell result }
{
    match text_of_files(alloc, params, crif, folder) {
        Ok(text) => print_text(out, text.as_slice()),
        Err(fault) => end_at_fault(out, &fault),
    }
}
