ghost use Rattle.std.specs.Prelude.{◌≡◌};

use crate::fault::ParamFault;
use std::alloc::{AllocError, AllocFailed};

/// Why a text is not taken as parameters, in the order of the tests.
#[derive(Drop)]
pub enum ParamTextFault {
    /// It has more than 1,048,576 bytes.
    Long {
        /// How many it has.
        bytes: u64,
    },
    /// It has no more, and this is the first fault by the grammar of a parameter file, or want
    /// of memory.
    Param(ParamFault),
}

impl From<ParamFault> for ParamTextFault {
    ghost use Rattle.params_file.specs.declared.text_fault.ParamTextFault.TheVariants.{Param};

    ghost from_gives = { λ param fault. fault ≡ Param param };

    fn from(param: ParamFault) -> ParamTextFault {
        ParamTextFault::Param(param)
    }
}

impl From<AllocError> for ParamTextFault {
    ghost use Rattle.params_file.specs.declared.fault.ParamFault.TheVariants.{Memory};
    ghost use Rattle.params_file.specs.declared.text_fault.ParamTextFault.TheVariants.{Param};

    ghost from_gives = { λ _ e. e ≡ Param Memory };

    fn from(_e: AllocError) -> ParamTextFault {
        ParamTextFault::Param(ParamFault::Memory)
    }
}

impl<T: Drop> From<AllocFailed<T>> for ParamTextFault {
    ghost use Rattle.params_file.specs.declared.fault.ParamFault.TheVariants.{Memory};
    ghost use Rattle.params_file.specs.declared.text_fault.ParamTextFault.TheVariants.{Param};

    ghost from_gives = { λ _ e. e ≡ Param Memory };

    fn from(_e: AllocFailed<T>) -> ParamTextFault {
        ParamTextFault::Param(ParamFault::Memory)
    }
}
