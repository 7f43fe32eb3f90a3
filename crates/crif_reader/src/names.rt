//! Names in a record.
ghost use Rattle.std.specs.Prelude.{◌≡◌, IfOk};
ghost use Rattle.crif_records.specs.SimmKinds.NameText.{IsName};
ghost use Rattle.crif_reader.specs.Reads.{GivesRow};
ghost use Rattle.crif_reader.specs.Factor.{full_name_of, name_of};

use crate::RowFault;
use crate::row_stop::RowStop;
use crif_records::simm_kinds::{FullName, Name};
use std::alloc::Global;

/// A name that isn't empty.
pub fn read_full_name(alloc: Global, fault: RowFault, text: &[u8]) -> Result<FullName, RowStop>
    ensures { GivesRow (λ n. n) result (full_name_of fault text.now) }
{
    if Name::is_full_name(text) {
        Ok(FullName::of_bytes(alloc, text)?)
    } else {
        Err(RowStop::Fault(fault))
    }
}

/// A name, which may be empty.
pub fn read_name(alloc: Global, fault: RowFault, text: &[u8]) -> Result<Name, RowStop>
    ensures { GivesRow (λ n. n) result (name_of fault text.now) }
{
    if Name::fault(text).is_none() {
        Ok(Name::of_bytes(alloc, text)?)
    } else {
        Err(RowStop::Fault(fault))
    }
}
