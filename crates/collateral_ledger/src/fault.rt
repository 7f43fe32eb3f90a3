ghost use Rattle.std.specs.Prelude.{◌≡◌};
ghost use Rattle.collateral_ledger.specs.Refusals.{ledger_fault_number};

use std::alloc::AllocError;

/// Why the ledger isn't changed.
#[derive(Clone, Copy, PartialEq, Eq)]
pub enum LedgerFault {
    /// A lot of this name is there.
    LotKnown,
    /// No lot of this name is there.
    LotUnknown,
    /// The terms have no haircut for the class.
    ClassUnknown,
    /// No outstanding call has this number.
    CallUnknown,
    /// The value, in cents, is below 0 or above 10^15.
    LotRange(i64),
    /// There are as many lots as there may be, this many.
    LotsFull(u32),
    /// There is no memory for it.
    Memory,
}

impl LedgerFault {
    /// The fault's own number among the faults of a ledger; want of memory has none.
    pub fn number(self) -> Option<u8>
        ensures { result ≡ ledger_fault_number self }
    {
        match self {
            LedgerFault::LotKnown => Some(1),
            LedgerFault::LotUnknown => Some(2),
            LedgerFault::ClassUnknown => Some(3),
            LedgerFault::CallUnknown => Some(4),
            LedgerFault::LotRange(_) => Some(5),
            LedgerFault::LotsFull(_) => Some(6),
            LedgerFault::Memory => None,
        }
    }
}

impl From<AllocError> for LedgerFault {
    ghost use Rattle.std.specs.Prelude.{◌≡◌};
    ghost use Rattle.collateral_ledger.specs.declared.fault.LedgerFault.TheVariants.{Memory};

    ghost from_gives = { λ _ e. e ≡ Memory };

    fn from(_error: AllocError) -> LedgerFault {
        LedgerFault::Memory
    }
}
