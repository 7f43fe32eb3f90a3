ghost use Rattle.std.specs.Prelude.{◌≤◌};
ghost use Rattle.command_files.specs.Complete.{EndsWell};
ghost use Rattle.command_files.specs.Files.{KeepsCounts};
ghost use Rattle.margin_schedule.specs.Complete.{IsWellSchedule};
ghost use Rattle.margin_schedule.specs.Schedule.{ScheduleEnds};

use crate::margin_lines::print_margin;
use crate::margin_of::margin_of_file;
use command_files::{Status, end_at_fault};
use mh_io::{Folder, Sink};
use schedule_im::EndDate;
use std::alloc::Global;

/// Prints the margin of a portfolio by the standard schedule on a day, from which the terms of its
/// trades are counted: the whole, the gross margin, the replacement cost net and gross, and the
/// gross margin of each class that isn't 0. It reads the records of the CRIF file of this name
/// whose margin model is `Schedule`, and waits for nobody.
///
/// With status `Done` the sink got the lines of the margin that the written rule gives of the
/// file; with `Write` a front of them, since the sink failed. At every other status but `Memory`
/// the sink got one fault line, or a front of it where the sink failed, and nothing else:
/// `Terms` exactly where the file that was read is too long or refused, or its amounts are too
/// large, `Find` and `Read` only where the folder's count of such faults rose. `Memory` for want
/// of memory.
pub fn schedule<F: Folder, K: Sink>(
    alloc: Global,
    day: EndDate,
    crif: &str,
    folder: &mut F,
    out: &mut K,
) -> Status
    ensures counts { KeepsCounts (F.seen folder.old) (F.seen folder.new) }
    ensures count { (K.seen out.old).faults ≤ (K.seen out.new).faults }
    ensures ends { ScheduleEnds day crif.now
        (F.seen folder.old) (F.seen folder.new) (K.seen out.old) (K.seen out.new) result }
    // Where all is well the margin is printed, or memory ran out.
    ensures complete { IsWellSchedule crif.now (F.seen folder.old) (F.seen folder.new)
        (K.seen out.old) (K.seen out.new) → EndsWell result }
{
    match margin_of_file(alloc, day, crif, folder) {
        Ok(margin) => print_margin(alloc, out, &margin),
        Err(fault) => end_at_fault(out, &fault),
    }
}
