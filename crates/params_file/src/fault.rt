ghost use Rattle.std.specs.Prelude.{◌≡◌};
ghost use Rattle.params_file.specs.Faults.{param_fault_number};

use simm_params::mh_units::Text;
use simm_params::toml_values::ValueFault;
use std::alloc::{AllocError, AllocFailed};

/// Why a parameter file was not taken: the first test that fails. A path is the keys joined by
/// points, places counted from 1, as `fx.weight.2`.
#[derive(Drop)]
pub enum ParamFault {
    /// The file is not UTF-8 text of a TOML document.
    Toml,
    /// The value at the path is not there, is of another type, or is an array of another length.
    Missing(Text),
    /// The text at the path is no such number, or no such currency.
    BadNumber(Text),
    /// The number at the path is out of its range: ten-thousandths, or whole dollars.
    OutOfRange(Text, i128),
    /// The matrix at the path isn't symmetric, or it is one of correlations and its diagonal
    /// isn't 1.
    NotSymmetric(Text),
    /// The threshold at the path is too thin beside the weight: the weight in ten-thousandths, the
    /// threshold in cents.
    ThinThreshold(Text, i64, i64),
    /// Memory ran out, which says nothing of the file.
    Memory,
}

impl ParamFault {
    /// The fault's number in print; want of memory has none.
    pub fn number(&self) -> Option<u8>
        ensures { result ≡ param_fault_number self.now }
    {
        match self {
            ParamFault::Toml => Some(1),
            ParamFault::Missing(_) => Some(2),
            ParamFault::BadNumber(_) => Some(3),
            ParamFault::OutOfRange(_, _) => Some(4),
            ParamFault::NotSymmetric(_) => Some(5),
            ParamFault::ThinThreshold(_, _, _) => Some(6),
            ParamFault::Memory => None,
        }
    }
}

impl From<ValueFault> for ParamFault {
    ghost use Rattle.params_file.specs.Faults.{fault_of_value};

    ghost from_gives = { λ value fault. fault ≡ fault_of_value value };

    fn from(value: ValueFault) -> ParamFault {
        match value {
            ValueFault::Missing(path) => ParamFault::Missing(path),
            ValueFault::BadNumber(path) => ParamFault::BadNumber(path),
            ValueFault::OutOfRange(path, number) => ParamFault::OutOfRange(path, number),
            ValueFault::Memory => ParamFault::Memory,
        }
    }
}

impl From<AllocError> for ParamFault {
    ghost use Rattle.params_file.specs.declared.fault.ParamFault.TheVariants.{Memory};

    ghost from_gives = { λ _ e. e ≡ Memory };

    fn from(_e: AllocError) -> ParamFault {
        ParamFault::Memory
    }
}

impl<T: Drop> From<AllocFailed<T>> for ParamFault {
    ghost use Rattle.params_file.specs.declared.fault.ParamFault.TheVariants.{Memory};

    ghost from_gives = { λ _ e. e ≡ Memory };

    fn from(_e: AllocFailed<T>) -> ParamFault {
        ParamFault::Memory
    }
}
