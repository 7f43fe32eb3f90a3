use crate::RowFault;
use std::alloc::AllocError;

/// Why the reading of a record stops: its fault, or want of memory.
#[derive(Clone, Copy)]
pub enum RowStop {
    /// The record's fault.
    Fault(RowFault),
    /// There was no memory.
    Memory,
}

impl From<RowFault> for RowStop {
    ghost use Rattle.std.specs.Prelude.{◌≡◌};
    ghost use Rattle.crif_reader.specs.declared.row_stop.RowStop.TheVariants.{Fault};

    ghost from_gives = { λ fault stop. stop ≡ Fault fault };

    fn from(fault: RowFault) -> RowStop {
        RowStop::Fault(fault)
    }
}

impl From<AllocError> for RowStop {
    ghost use Rattle.std.specs.Prelude.{◌≡◌};
    ghost use Rattle.crif_reader.specs.declared.row_stop.RowStop.TheVariants.{Memory};

    ghost from_gives = { λ _ e. e ≡ Memory };

    fn from(_error: AllocError) -> RowStop {
        RowStop::Memory
    }
}
