ghost use Rattle.std.specs.Prelude.{◌≡◌, IfOk};
ghost use Rattle.command_files.specs.Files.{KeepsCounts, ValueEnds};
ghost use Rattle.schedule_im.specs.Margin.{AreScheduled};
ghost use Rattle.margin_schedule.specs.Schedule.{GivesRows, RefusesRows, RowsEnd, MarginEnds};

use crate::fault_lines::{range_line, schedule_line};
use command_files::{Fault, FileFault, InputFile, read_file};
use mh_io::Folder;
use schedule_im::{EndDate, ScheduleMargin, ScheduleRow, schedule_margin};
use schedule_reader::read_schedule;
use std::alloc::Global;

/// Reads the rows of the schedule from the CRIF file of this name, and hands it back to the folder.
fn read_rows_file<F: Folder>(
    alloc: Global,
    folder: &mut F,
    name: &str,
) -> Result<Vec<ScheduleRow>, FileFault>
    ensures counts { KeepsCounts (F.seen folder.old) (F.seen folder.new) }
    ensures ends { ValueEnds (λ bytes rows. GivesRows bytes rows.items) RefusesRows
        (F.seen folder.old) (F.seen folder.new) name.now result }
    ensures scheduled { IfOk result (λ rows. AreScheduled rows.items) }
{
    let bytes = read_file(alloc, folder, name)?;
    match read_schedule(alloc, bytes.as_slice()) {
        Ok(rows) => Ok(rows),
        Err(fault) => Err(FileFault::Refused(schedule_line(alloc, fault)?)),
    }
}

/// Works out the margin of the rows.
fn margin_of_rows<'a>(
    alloc: Global,
    rows: &[ScheduleRow],
    day: EndDate,
) -> Result<ScheduleMargin, Fault<'a>>
    requires { AreScheduled rows.now }
    ensures { RowsEnd day rows.now result }
{
    match schedule_margin(rows, day) {
        Ok(margin) => Ok(margin),
        Err(range) => match range_line(alloc, range) {
            Ok(line) => Err(Fault::Refused(line)),
            Err(_) => Err(Fault::Memory),
        },
    }
}

/// Reads the file, and works out the margin of its rows.
pub(crate) fn margin_of_file<'a, F: Folder>(
    alloc: Global,
    day: EndDate,
    crif: &'a str,
    folder: &mut F,
) -> Result<ScheduleMargin, Fault<'a>>
    ensures counts { KeepsCounts (F.seen folder.old) (F.seen folder.new) }
    ensures ends { MarginEnds day crif.now (F.seen folder.old) (F.seen folder.new) result }
{
    match read_rows_file(alloc, folder, crif) {
        Ok(rows) => margin_of_rows(alloc, &rows, day),
        Err(why) => Err(Fault::OfFile {
            file: InputFile::Crif,
            name: crif,
            why,
        }),
    }
}
