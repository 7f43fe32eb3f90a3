//! The rows of trades, lent.
ghost use Rattle.std.specs.Prelude.{◌≡◌, map, IfOk};
ghost use Rattle.bucket_cache.specs.Live.{rows_in};
ghost use Rattle.bucket_cache.specs.Entries.{trades_of, lent_lists, row_lists};

use crate::held_rows::HeldRows;
use crate::lent::LentRows;
use book_margin::simm_kinds::{CrifRow, Name, TradeRows};
use indexmap::IndexMap;
use std::alloc::{AllocError, Global};

/// The rows of a batch.
pub fn lend_batch(alloc: Global, batch: &[TradeRows]) -> Result<Vec<LentRows<'_>>, AllocError>
    ensures { IfOk result (λ lent. lent_lists lent.items ≡ row_lists batch.now) }
{
    let mut lent = Vec::with_capacity(alloc, batch.len())?;
    for trade in batch {
        lent.push(LentRows {
            rows: trade.rows.as_slice(),
        })?;
    }
    Ok(lent)
}

/// The rows that the current trades have which a batch names, in the batch's order; of a trade
/// that is not current none.
pub fn lend_replaced<'a>(
    alloc: Global,
    current: &'a IndexMap<Name, HeldRows>,
    batch: &[TradeRows],
) -> Result<Vec<LentRows<'a>>, AllocError>
    ensures { IfOk result (λ lent. lent_lists lent.items
        ≡ map (λ t. rows_in (trades_of current.now.entries) t.trade) batch.now) }
{
    let mut lent = Vec::with_capacity(alloc, batch.len())?;
    for trade in batch {
        lent.push(LentRows {
            rows: rows_in(current, &trade.trade),
        })?;
    }
    Ok(lent)
}

/// The rows that the current trades of these names have, in the names' order; of a trade that is
/// not current none.
pub fn lend_named<'a>(
    alloc: Global,
    current: &'a IndexMap<Name, HeldRows>,
    names: &[&Name],
) -> Result<Vec<LentRows<'a>>, AllocError>
    ensures { IfOk result (λ lent. lent_lists lent.items
        ≡ map (λ name. rows_in (trades_of current.now.entries) name.now) names.now) }
{
    let mut lent = Vec::with_capacity(alloc, names.len())?;
    for name in names {
        lent.push(LentRows {
            rows: rows_in(current, name),
        })?;
    }
    Ok(lent)
}

/// The rows of a trade, none where it is not current.
pub fn rows_in<'a>(current: &'a IndexMap<Name, HeldRows>, name: &Name) -> &'a [CrifRow]
    ensures { result.now ≡ rows_in (trades_of current.now.entries) name.now }
{
    match current.get(name) {
        Some(rows) => rows.as_slice(),
        None => &[],
    }
}
