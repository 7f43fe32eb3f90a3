ghost use Rattle.std.specs.Prelude.{◌≡◌};

use std::alloc::{AllocError, AllocFailed};

/// Why the fields of a line gave nothing.
#[derive(Clone, Copy)]
pub(crate) enum Unread {
    /// They are those of no message.
    Bad,
    /// Memory ran out, which says nothing of them.
    Memory,
}

impl From<AllocError> for Unread {
    ghost use Rattle.feed_reader.specs.declared.unread.Unread.TheVariants.{Memory};

    ghost from_gives = { λ _ e. e ≡ Memory };

    fn from(_e: AllocError) -> Unread {
        Unread::Memory
    }
}

impl<T: Drop> From<AllocFailed<T>> for Unread {
    ghost use Rattle.feed_reader.specs.declared.unread.Unread.TheVariants.{Memory};

    ghost from_gives = { λ _ e. e ≡ Memory };

    fn from(_e: AllocFailed<T>) -> Unread {
        Unread::Memory
    }
}
