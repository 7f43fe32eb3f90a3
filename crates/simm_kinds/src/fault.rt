ghost use Rattle.std.specs.Prelude.{◌≡◌};
ghost use Rattle.simm_kinds.specs.Fault.{name_fault_number, make_fault_number};

use std::alloc::AllocError;

/// Why a text is no name, in the order of the tests.
#[derive(Clone, Copy, Debug, PartialEq, Eq)]
pub enum NameFault {
    /// There are more than 64 bytes.
    Long,
    /// The text is not UTF-8, or has a control byte, or a space at an end.
    Byte,
    /// There is no memory for it.
    Memory,
}

impl NameFault {
    /// The fault's own number among the faults of a name; want of memory has none.
    pub fn number(self) -> Option<u8>
        ensures { result ≡ name_fault_number self }
    {
        match self {
            NameFault::Long => Some(1),
            NameFault::Byte => Some(2),
            NameFault::Memory => None,
        }
    }
}

impl From<AllocError> for NameFault {
    ghost use Rattle.std.specs.Prelude.{◌≡◌};
    ghost use Rattle.simm_kinds.specs.declared.fault.NameFault.TheVariants.{Memory};

    ghost from_gives = { λ _ e. e ≡ Memory };

    fn from(_error: AllocError) -> NameFault {
        NameFault::Memory
    }
}

/// Why trades are no batch, in the order of the tests.
#[derive(Clone, Copy, Debug, PartialEq, Eq)]
pub enum MakeFault {
    /// There is no trade.
    Empty,
    /// A trade's name, or a parameter that may stand once, stands twice.
    Same,
    /// There are more than 100,000 rows.
    TooManyRows,
    /// A parameter row has a trade, or another row has none.
    Place,
    /// A trade has no rows.
    EmptyTrade,
    /// An amount is out of its risk type's range.
    Amount,
    /// There is no memory for the tests.
    Memory,
}

impl MakeFault {
    /// The fault's own number among the faults of a batch; want of memory has none.
    pub fn number(self) -> Option<u8>
        ensures { result ≡ make_fault_number self }
    {
        match self {
            MakeFault::Empty => Some(1),
            MakeFault::Same => Some(2),
            MakeFault::TooManyRows => Some(3),
            MakeFault::Place => Some(4),
            MakeFault::EmptyTrade => Some(5),
            MakeFault::Amount => Some(6),
            MakeFault::Memory => None,
        }
    }
}

impl From<AllocError> for MakeFault {
    ghost use Rattle.std.specs.Prelude.{◌≡◌};
    ghost use Rattle.simm_kinds.specs.declared.fault.MakeFault.TheVariants.{Memory};

    ghost from_gives = { λ _ e. e ≡ Memory };

    fn from(_error: AllocError) -> MakeFault {
        MakeFault::Memory
    }
}
