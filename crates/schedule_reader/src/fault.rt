ghost use Rattle.std.specs.Prelude.{◌≡◌};
ghost use Rattle.schedule_reader.specs.Faults.{schedule_fault_number, row_fault_number};

use crate::ScheduleColumn;
use crif_records::mh_units::NumeralFault;
use std::alloc::{AllocError, AllocFailed};

/// Why a record gives no row of the schedule, in the order of the tests.
#[derive(Clone, Copy, PartialEq, Eq)]
pub enum ScheduleRowFault {
    /// It has more fields than the header.
    FieldCount,
    /// A field of a column that is read is not UTF-8.
    NotUtf8,
    /// The risk type is neither `Notional` nor `PV`.
    RiskType,
    /// The trade's name is empty or no name.
    Trade,
    /// The product class is none of the schedule's six.
    Class,
    /// The amount is no numeral that can be taken.
    Amount(NumeralFault),
    /// The end is no day of the calendar, on a notional of rates or credit.
    EndDate,
}

impl ScheduleRowFault {
    /// The fault's own number among those of a record, 1 to 7.
    pub fn number(self) -> u8
        ensures { result ≡ row_fault_number self }
    {
        match self {
            ScheduleRowFault::FieldCount => 1,
            ScheduleRowFault::NotUtf8 => 2,
            ScheduleRowFault::RiskType => 3,
            ScheduleRowFault::Trade => 4,
            ScheduleRowFault::Class => 5,
            ScheduleRowFault::Amount(_) => 6,
            ScheduleRowFault::EndDate => 7,
        }
    }
}

/// Why the bytes of a CRIF file give no rows of the schedule: the first fault in reading order.
/// Records are counted from 1, and the header is the first.
#[derive(Clone, Copy, PartialEq, Eq)]
pub enum ScheduleFault {
    /// There is no record at all.
    NoHeader,
    /// The header lacks a column.
    MissingColumn(ScheduleColumn),
    /// A record gives no row.
    Row {
        number: u32,
        fault: ScheduleRowFault,
    },
    /// More than 100,000 records follow the header.
    TooManyRows,
    /// No record gave a row.
    EmptyBatch,
    /// There is no memory for the rows.
    Memory,
}

impl ScheduleFault {
    /// The fault's own number among those of a file, 1 to 5; want of memory has none.
    pub fn number(self) -> Option<u8>
        ensures { result ≡ schedule_fault_number self }
    {
        match self {
            ScheduleFault::NoHeader => Some(1),
            ScheduleFault::MissingColumn(_) => Some(2),
            ScheduleFault::Row { .. } => Some(3),
            ScheduleFault::TooManyRows => Some(4),
            ScheduleFault::EmptyBatch => Some(5),
            ScheduleFault::Memory => None,
        }
    }
}

impl From<AllocError> for ScheduleFault {
    ghost use Rattle.std.specs.Prelude.{◌≡◌};
    ghost use Rattle.schedule_reader.specs.declared.fault.ScheduleFault.TheVariants.{Memory};

    ghost from_gives = { λ _ e. e ≡ Memory };

    fn from(_error: AllocError) -> ScheduleFault {
        ScheduleFault::Memory
    }
}

impl<T: Drop> From<AllocFailed<T>> for ScheduleFault {
    ghost use Rattle.std.specs.Prelude.{◌≡◌};
    ghost use Rattle.schedule_reader.specs.declared.fault.ScheduleFault.TheVariants.{Memory};

    ghost from_gives = { λ _ e. e ≡ Memory };

    fn from(_error: AllocFailed<T>) -> ScheduleFault {
        ScheduleFault::Memory
    }
}
