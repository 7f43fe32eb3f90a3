ghost use Rattle.std.specs.Prelude.{◌≡◌};
ghost use Rattle.whatif.specs.declared.fault.WhatIfFault.TheVariants as what;
ghost use Rattle.whatif.specs.Faults.{of_withdrawal, of_book};

use bucket_cache::simm_rules::RangeFault;
use bucket_cache::{BookFault, WithdrawFault};
use std::alloc::AllocError;

/// Why a what-if has no margins.
#[derive(Clone, Copy)]
pub enum WhatIfFault {
    /// The name at this place, from 1, is the first that is not current.
    UnknownTrade {
        /// The place of the name.
        place: u64,
    },
    /// The tables don't list the bucket of this row, which is the first such row of the candidate.
    BucketUnknown {
        /// The place of the row's trade in the candidate, from 1.
        trade: u32,
        /// The place of the row in its trade, from 1.
        row: u32,
    },
    /// All rows of the candidate are admitted, and the book after would be out of range: the first
    /// quantity that is above its limit.
    Range(RangeFault),
    /// There is not enough memory.
    Memory,
}

impl From<AllocError> for WhatIfFault {
    ghost from_gives = { λ _ e. e ≡ what.Memory };

    fn from(_error: AllocError) -> WhatIfFault {
        WhatIfFault::Memory
    }
}

impl From<WithdrawFault> for WhatIfFault {
    ghost from_gives = { λ why e. e ≡ of_withdrawal why };

    fn from(why: WithdrawFault) -> WhatIfFault {
        match why {
            WithdrawFault::UnknownTrade { place } => WhatIfFault::UnknownTrade { place },
            WithdrawFault::Memory => WhatIfFault::Memory,
        }
    }
}

impl From<BookFault> for WhatIfFault {
    ghost from_gives = { λ why e. e ≡ of_book why };

    fn from(why: BookFault) -> WhatIfFault {
        match why {
            BookFault::BucketUnknown { trade, row } => WhatIfFault::BucketUnknown { trade, row },
            BookFault::Range(fault) => WhatIfFault::Range(fault),
            BookFault::Memory => WhatIfFault::Memory,
        }
    }
}
