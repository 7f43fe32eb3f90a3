//! The line of a file that the schedule refuses.
ghost use Rattle.std.specs.Prelude.{◌≡◌, ◌≢◌, ◌++◌, IfOk, OnOk};
ghost use Rattle.schedule_reader.specs.declared.fault.ScheduleFault.TheVariants as schedule;
ghost use Rattle.margin_schedule.specs.FaultLines.{row_fields, schedule_fields};
ghost use Rattle.margin_schedule.specs.FaultLines.{schedule_fault, range_fields, range_fault};

use fault_text::{begun_line, push_last, push_last_number, push_number};
use mh_units::Text;
use schedule_im::ScheduleRange;
use schedule_reader::{ScheduleFault, ScheduleRowFault};
use std::alloc::{AllocError, Global};

/// The number of amounts that are too large, behind those of the file's faults.
const RANGE: u8 = 6;

/// The line of a fault of the file.
///
/// # Errors
///
/// For want of memory, of the file's reader too.
pub(crate) fn schedule_line(alloc: Global, fault: ScheduleFault) -> Result<Text, AllocError>
    ensures line { IfOk result (λ line. line ≡ schedule_fault fault) }
    ensures refused { OnOk result (fault ≢ schedule.Memory) }
{
    let Some(number) = fault.number() else {
        return Err(AllocError);
    };
    let mut line = begun_line(alloc, b"SCHEDULE")?;
    push_schedule_fields(&mut line, number, fault)?;
    Ok(line)
}

/// The line of amounts that are too large.
///
/// # Errors
///
/// For want of memory.
pub(crate) fn range_line(alloc: Global, range: ScheduleRange) -> Result<Text, AllocError>
    ensures { IfOk result (λ line. line ≡ range_fault range) }
{
    let mut line = begun_line(alloc, b"SCHEDULE")?;
    push_range_fields(&mut line, range.value)?;
    Ok(line)
}

/// Adds the number of amounts that are too large and what they come to, up to the end of the line.
fn push_range_fields(line: &mut Text, value: i128) -> Result<(), AllocError>
    ensures { OnOk result (line.new ≡ line.old ++ range_fields value) }
{
    push_number(line, RANGE)?;
    push_last_number(line, value)
}

/// Adds the number of a file's fault and what stands behind it, up to the end of the line.
fn push_schedule_fields(line: &mut Text, code: u8, fault: ScheduleFault) -> Result<(), AllocError>
    ensures { OnOk result (line.new ≡ line.old ++ schedule_fields code fault) }
{
    match fault {
        ScheduleFault::MissingColumn(column) => {
            push_number(line, code)?;
            push_last(line, column.name().as_bytes())
        }
        ScheduleFault::Row { number, fault } => {
            push_number(line, code)?;
            push_number(line, number)?;
            push_row_fields(line, fault.number(), fault)
        }
        ScheduleFault::NoHeader
        | ScheduleFault::TooManyRows
        | ScheduleFault::EmptyBatch
        | ScheduleFault::Memory => push_last_number(line, code),
    }
}

/// Adds the number of a record's fault and what stands behind it.
fn push_row_fields(line: &mut Text, code: u8, fault: ScheduleRowFault) -> Result<(), AllocError>
    ensures { OnOk result (line.new ≡ line.old ++ row_fields code fault) }
{
    match fault {
        ScheduleRowFault::Amount(numeral) => {
            push_number(line, code)?;
            push_last_number(line, numeral.number())
        }
        _ => push_last_number(line, code),
    }
}
