//! The fields of a CRIF file's fault, up to the end of a line.
ghost use Rattle.std.specs.Prelude.{◌≡◌, ◌++◌, OnOk};
ghost use Rattle.fault_text.specs.CrifLine.{row_fields, crif_fields};

use crate::pieces::{push_field, push_last, push_last_number, push_number};
use crif_reader::{CrifFault, RowFault};
use mh_units::Text;
use std::alloc::AllocError;

/// Adds the number of a record's fault and what stands behind it.
fn push_row_fields(text: &mut Text, code: u8, fault: RowFault) -> Result<(), AllocError>
    ensures { OnOk result (text.new ≡ text.old ++ row_fields code fault) }
{
    match fault {
        RowFault::Amount(numeral) => {
            push_number(text, code)?;
            push_last_number(text, numeral.number())
        }
        RowFault::ParamRange(value) => {
            push_number(text, code)?;
            push_last_number(text, value)
        }
        _ => push_last_number(text, code),
    }
}

/// Adds the number of a file's fault and what stands behind it.
pub fn push_crif_fields(text: &mut Text, code: u8, fault: CrifFault) -> Result<(), AllocError>
    ensures { OnOk result (text.new ≡ text.old ++ crif_fields code fault) }
{
    match fault {
        CrifFault::MissingColumn(column) => {
            push_number(text, code)?;
            push_last(text, column.name().as_bytes())
        }
        CrifFault::Row { number, fault } => {
            push_number(text, code)?;
            push_number(text, number)?;
            push_row_fields(text, fault.number(), fault)
        }
        CrifFault::NoHeader | CrifFault::TooManyRows | CrifFault::EmptyBatch | CrifFault::Memory =>
            push_last_number(text, code),
    }
}
