ghost use Rattle.std.specs.Prelude.{◌≤◌};
ghost use Rattle.command_files.specs.Files.{KeepsCounts};
ghost use Rattle.margin_calc.specs.Calc.{CalcEnds};
ghost use Rattle.command_files.specs.Complete.{EndsWell};
ghost use Rattle.margin_calc.specs.Complete.{IsWell};

use crate::margin_of::margin_of_files;
use crate::printing::print_margin;
use command_files::{Status, end_at_fault};
use mh_io::{Folder, Sink};
use std::alloc::Global;

/// Prints the margin of one batch: the whole, and each part that isn't 0. `params` and `crif` name
/// the parameter file and the CRIF file in the folder. It waits for nobody.
///
/// With status `Done` the sink got the lines of the margin that the written rule gives of the two
/// files; with `Write` a front of them, since the sink failed. At every other status but `Memory`
/// the sink got one fault line, or a front of it where the sink failed, and nothing else: `Params`
/// and `Terms` exactly where a file that was read is too long or refused, `Terms` also where the
/// batch is, `Find` and `Read` only where the folder's count of such faults rose. `Memory` for
/// want of memory.
pub fn calc<F: Folder, K: Sink>(
    alloc: Global,
    params: &str,
    crif: &str,
    folder: &mut F,
    out: &mut K,
) -> Status
    ensures counts { KeepsCounts (F.seen folder.old) (F.seen folder.new) }
    ensures count { (K.seen out.old).faults ≤ (K.seen out.new).faults }
    ensures ends { CalcEnds params.now crif.now
        (F.seen folder.old) (F.seen folder.new) (K.seen out.old) (K.seen out.new) result }
    // Where all is well the margin is printed, or memory ran out.
    ensures complete { IsWell params.now crif.now (F.seen folder.old) (F.seen folder.new)
        (K.seen out.old) (K.seen out.new) → EndsWell result }
{
    match margin_of_files(alloc, params, crif, folder) {
        Ok(margin) => print_margin(alloc, out, &margin),
        Err(fault) => end_at_fault(out, &fault),
    }
}
