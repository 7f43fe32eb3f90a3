ghost use Rattle.std.specs.Prelude.{◌≡◌};
ghost use Rattle.crif_reader.specs.Faults.{crif_fault_number, row_fault_number};

use crate::Column;
use crif_records::simm_kinds::mh_units::NumeralFault;
use std::alloc::{AllocError, AllocFailed};

/// Why a record gives no row, in the order of the tests.
#[derive(Clone, Copy, PartialEq, Eq)]
pub enum RowFault {
    /// It has more fields than the header.
    FieldCount,
    /// A field that is read, or may be, is not UTF-8.
    NotUtf8,
    /// The risk type is unknown.
    RiskType,
    /// The trade's name is empty or no name.
    Trade,
    /// The product class is unknown.
    ProductClass,
    /// The qualifier is not what the risk type has: a currency, a pair of currencies, a name, a
    /// product class.
    Qualifier,
    /// The bucket is not what the risk type has: a number from 1 to 64, or `Residual`.
    Bucket,
    /// The first label is not what the risk type has: a tenor.
    Label1,
    /// The second label is not what the risk type has: a sub-curve, or a name.
    Label2,
    /// The amount is no numeral that can be taken.
    Amount(NumeralFault),
    /// A parameter of an add-on is out of its range: its value in ten-thousandths, or in cents for
    /// a fixed amount.
    ParamRange(i128),
    /// A second multiplier of a product class, or a second factor of a qualifier.
    DuplicateParam,
}

impl RowFault {
    /// The fault's own number among those of a record, 1 to 12.
    pub fn number(self) -> u8
        ensures { result ≡ row_fault_number self }
    {
        match self {
            RowFault::FieldCount => 1,
            RowFault::NotUtf8 => 2,
            RowFault::RiskType => 3,
            RowFault::Trade => 4,
            RowFault::ProductClass => 5,
            RowFault::Qualifier => 6,
            RowFault::Bucket => 7,
            RowFault::Label1 => 8,
            RowFault::Label2 => 9,
            RowFault::Amount(_) => 10,
            RowFault::ParamRange(_) => 11,
            RowFault::DuplicateParam => 12,
        }
    }
}

/// Why the bytes of a CRIF file give no batch: the first fault in reading order. Records are
/// counted from 1, and the header is the first.
#[derive(Clone, Copy, PartialEq, Eq)]
pub enum CrifFault {
    /// There is no record at all.
    NoHeader,
    /// The header lacks a column.
    MissingColumn(Column),
    /// A record gives no row.
    Row { number: u32, fault: RowFault },
    /// More than 100,000 records follow the header.
    TooManyRows,
    /// No record gave a row.
    EmptyBatch,
    /// There is no memory for the batch.
    Memory,
}

impl CrifFault {
    /// The fault's own number among those of a file, 1 to 5; want of memory has none.
    pub fn number(self) -> Option<u8>
        ensures { result ≡ crif_fault_number self }
    {
        match self {
            CrifFault::NoHeader => Some(1),
            CrifFault::MissingColumn(_) => Some(2),
            CrifFault::Row { .. } => Some(3),
            CrifFault::TooManyRows => Some(4),
            CrifFault::EmptyBatch => Some(5),
            CrifFault::Memory => None,
        }
    }
}

impl From<AllocError> for CrifFault {
    ghost use Rattle.std.specs.Prelude.{◌≡◌};
    ghost use Rattle.crif_reader.specs.declared.fault.CrifFault.TheVariants.{Memory};

    ghost from_gives = { λ _ e. e ≡ Memory };

    fn from(_error: AllocError) -> CrifFault {
        CrifFault::Memory
    }
}

impl<T: Drop> From<AllocFailed<T>> for CrifFault {
    ghost use Rattle.std.specs.Prelude.{◌≡◌};
    ghost use Rattle.crif_reader.specs.declared.fault.CrifFault.TheVariants.{Memory};

    ghost from_gives = { λ _ e. e ≡ Memory };

    fn from(_error: AllocFailed<T>) -> CrifFault {
        CrifFault::Memory
    }
}
