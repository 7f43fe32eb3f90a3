//! The trades of a batch, whose rows stand once for all that hold it.
ghost use Rattle.std.specs.Prelude.{◌≡◌, IfOk};
ghost use Rattle.bucket_cache.specs.Entries.{held_trades};

use book_margin::simm_kinds::{Batch, CrifRow, Name};
use std::alloc::{AllocError, Global};
use std::marker::Model;

/// The rows of one trade of a batch, which others may hold as well. Contracts see the rows.
#[derive(Drop)]
pub struct HeldRows {
    batch: Batch,
    // the trade's place in the batch, from 0
    index: usize,
}

impl Model for HeldRows {
    ghost use Rattle.std.specs.Prelude.{◌<◌, List, length};
    ghost use Rattle.book_margin.specs.SimmKinds.declared.row.CrifRow.{CrifRow};
    ghost use Rattle.bucket_cache.specs.RowsAt.{rows_at};

    ghost Value = { List CrifRow };

    ghost view = { λ rows. rows_at rows.batch rows.index };

    ghost invariant = { λ rows. rows.index < length rows.batch };
}

impl HeldRows {
    /// The same rows for one more holder. It takes no memory. The only error comes at 2^63 holders.
    pub fn share(&self) -> Result<HeldRows, AllocError>
        ensures { IfOk result (λ rows. rows ≡ self.now) }
    {
        Ok(HeldRows {
            batch: self.batch.share()?,
            index: self.index,
        })
    }

    /// Lends the rows.
    pub fn as_slice(&self) -> &[CrifRow]
        ensures { result.now ≡ self.now }
    {
        self.batch.trades()[self.index].rows.as_slice()
    }
}

/// A trade of a batch: its name, and its rows.
#[derive(Drop)]
pub struct HeldTrade {
    /// Its name.
    pub trade: Name,
    /// Its rows.
    pub rows: HeldRows,
}

/// The trades of a batch. No row is copied; the only error is want of memory.
pub fn hold_trades(alloc: Global, batch: &Batch) -> Result<Vec<HeldTrade>, AllocError>
    ensures { IfOk result (λ held. held_trades held.items ≡ batch.now) }
{
    let trades = batch.trades();
    let mut held = Vec::with_capacity(alloc, trades.len())?;
    for (index, trade) in trades.iter().enumerate() {
        let batch = batch.share()?;
        let rows = HeldRows { batch, index };
        let trade = trade.trade.copy(alloc)?;
        held.push(HeldTrade { trade, rows })?;
    }
    Ok(held)
}
