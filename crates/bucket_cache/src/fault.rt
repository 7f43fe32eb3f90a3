ghost use Rattle.std.specs.Prelude.{◌≡◌};
ghost use Rattle.bucket_cache.specs.declared.fault.BookFault.TheVariants as book;
ghost use Rattle.bucket_cache.specs.declared.fault.WithdrawFault.TheVariants as withdraw;

use book_margin::simm_rules::RangeFault;
use std::alloc::AllocError;

/// Why a book is not taken: a batch would come to it, or it would stand under other tables.
#[derive(Clone, Copy)]
pub enum BookFault {
    /// The tables don't list the bucket of this row, which is the first such row of the batch, or
    /// under other tables of the book.
    BucketUnknown {
        /// The place of the row's trade in the batch or the book, from 1.
        trade: u32,
        /// The place of the row in its trade, from 1.
        row: u32,
    },
    /// All rows are admitted, and the book would be out of range: the first quantity that is above
    /// its limit.
    Range(RangeFault),
    /// There is not enough memory.
    Memory,
}

impl From<AllocError> for BookFault {
    ghost from_gives = { λ _ e. e ≡ book.Memory };

    fn from(_error: AllocError) -> BookFault {
        BookFault::Memory
    }
}

/// Why a withdrawal is not accepted.
#[derive(Clone, Copy, PartialEq, Eq)]
pub enum WithdrawFault {
    /// The name at this place, from 1, is the first that is not current.
    UnknownTrade {
        /// The place of the name.
        place: u64,
    },
    /// There is not enough memory.
    Memory,
}

impl From<AllocError> for WithdrawFault {
    ghost from_gives = { λ _ e. e ≡ withdraw.Memory };

    fn from(_error: AllocError) -> WithdrawFault {
        WithdrawFault::Memory
    }
}
