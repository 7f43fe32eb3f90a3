ghost use Rattle.std.specs.Prelude.{◌≡◌};

use simm_kinds::mh_units::Text;
use std::alloc::{AllocError, AllocFailed};

/// Why a value of a file was not taken, with its path: the keys joined by points, places counted
/// from 1.
#[derive(Drop)]
pub enum ValueFault {
    /// The value is not there, or is of another type, or an array of another length.
    Missing(Text),
    /// The text is no such number, and no such currency.
    BadNumber(Text),
    /// The number is out of its range, in the units of its kind.
    OutOfRange(Text, i128),
    /// Memory ran out, which says nothing of the file.
    Memory,
}

impl From<AllocError> for ValueFault {
    ghost use Rattle.toml_values.specs.declared.fault.ValueFault.TheVariants.{Memory};

    ghost from_gives = { λ _ e. e ≡ Memory };

    fn from(_e: AllocError) -> ValueFault {
        ValueFault::Memory
    }
}

impl<T: Drop> From<AllocFailed<T>> for ValueFault {
    ghost use Rattle.toml_values.specs.declared.fault.ValueFault.TheVariants.{Memory};

    ghost from_gives = { λ _ e. e ≡ Memory };

    fn from(_e: AllocFailed<T>) -> ValueFault {
        ValueFault::Memory
    }
}
