ghost use Rattle.std.specs.Prelude.{◌≡◌};
ghost use Rattle.csa_terms.specs.Faults.{terms_fault_number};

use std::alloc::{AllocError, AllocFailed};
use toml_values::ValueFault;
use toml_values::mh_units::Text;
use toml_values::simm_kinds::Name;

/// Why a terms file was not taken: the first test that fails. A path is the keys joined by
/// points, sets and places counted from 1, as `set.2.rounding`, `set.2.haircuts.CASH-USD`
/// or `set.2.holidays.3`.
#[derive(Drop)]
pub enum TermsFault {
    /// The file is not UTF-8 text of a TOML document.
    Toml,
    /// The value at the path is not there, or is of another type.
    Missing(Text),
    /// The text at the path is no such number.
    BadNumber(Text),
    /// The number at the path is out of its range: cents, ten-thousandths, or a count.
    OutOfRange(Text, i128),
    /// A set has the name of one before it.
    DuplicateSet(Name),
    /// The text at the path is no date or time of day.
    BadDate(Text),
    /// There are more than 16 sets.
    TooManySets(usize),
    /// The text at the path is no name, or a set's is empty.
    BadName(Text),
    /// Memory ran out, which says nothing of the file.
    Memory,
}

impl TermsFault {
    /// The fault's number in print; want of memory has none.
    pub fn number(&self) -> Option<u8>
        ensures { result ≡ terms_fault_number self.now }
    {
        match self {
            TermsFault::Toml => Some(1),
            TermsFault::Missing(_) => Some(2),
            TermsFault::BadNumber(_) => Some(3),
            TermsFault::OutOfRange(_, _) => Some(4),
            TermsFault::DuplicateSet(_) => Some(5),
            TermsFault::BadDate(_) => Some(6),
            TermsFault::TooManySets(_) => Some(7),
            TermsFault::BadName(_) => Some(8),
            TermsFault::Memory => None,
        }
    }
}

impl From<ValueFault> for TermsFault {
    ghost use Rattle.csa_terms.specs.Faults.{fault_of_value};

    ghost from_gives = { λ value fault. fault ≡ fault_of_value value };

    fn from(value: ValueFault) -> TermsFault {
        match value {
            ValueFault::Missing(path) => TermsFault::Missing(path),
            ValueFault::BadNumber(path) => TermsFault::BadNumber(path),
            ValueFault::OutOfRange(path, number) => TermsFault::OutOfRange(path, number),
            ValueFault::Memory => TermsFault::Memory,
        }
    }
}

impl From<AllocError> for TermsFault {
    ghost use Rattle.csa_terms.specs.declared.fault.TermsFault.TheVariants.{Memory};

    ghost from_gives = { λ _ e. e ≡ Memory };

    fn from(_e: AllocError) -> TermsFault {
        TermsFault::Memory
    }
}

impl<T: Drop> From<AllocFailed<T>> for TermsFault {
    ghost use Rattle.csa_terms.specs.declared.fault.TermsFault.TheVariants.{Memory};

    ghost from_gives = { λ _ e. e ≡ Memory };

    fn from(_e: AllocFailed<T>) -> TermsFault {
        TermsFault::Memory
    }
}
