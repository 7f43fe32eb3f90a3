//! The current trades, held once more.
ghost use Rattle.std.specs.Prelude.{◌≡◌, IfOk};

use crate::held_rows::HeldRows;
use book_margin::simm_kinds::Name;
use indexmap::IndexMap;
use std::alloc::{AllocError, Global};

/// The same trades, in the same order. No row is copied, and memory is asked for once for all of
/// them, and for a name that takes some. The only error is want of memory.
pub fn copy_trades(
    alloc: Global,
    current: &IndexMap<Name, HeldRows>,
) -> Result<IndexMap<Name, HeldRows>, AllocError>
    ensures { IfOk result (λ trades. trades.entries ≡ current.now.entries) }
{
    let mut trades = IndexMap::with_capacity(alloc, current.len())?;
    for (name, rows) in current {
        trades.insert(name.copy(alloc)?, rows.share()?)?;
    }
    Ok(trades)
}
