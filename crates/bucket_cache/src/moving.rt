//! What a batch and a withdrawal make of all that is kept of a book beside its trades.
ghost use Rattle.std.specs.Prelude.{◌≡◌, false, IfOk, OnOk, OnErr, OnSome, IfNone};
ghost use Rattle.book_margin.specs.SimmKinds.Batch.{IsBatch, rows_of};
ghost use Rattle.book_margin.specs.SimmKinds.Order.{same_name};
ghost use Rattle.book_margin.specs.SimmKinds.Repeats.{repeats};
ghost use Rattle.book_margin.specs.SimmRules.Range.{range};
ghost use Rattle.bucket_cache.specs.Live.{put_trades, without, named, rows_moved};
ghost use Rattle.bucket_cache.specs.Entries.{trades_of, lent_names};
ghost use Rattle.bucket_cache.specs.Held.{IsSummed, IsMoved};

use crate::exchanging::exchange;
use crate::held_rows::HeldRows;
use crate::lending::{lend_batch, lend_named, lend_replaced};
use crate::sums::Sums;
use crate::touching::touch_lent;
use book_margin::book_range::{elsewhere_few, range_order_is_free};
use book_margin::class_combine::sums_ignore_order;
use book_margin::factor_book::order_is_free;
use book_margin::kept_buckets::{KeptBuckets, other_factors_stand, touches_add_up};
use book_margin::simm_kinds::{Name, TradeRows};
use book_margin::simm_params::Params;
use book_margin::simm_rules::RangeFault;
use book_margin::touched_stays_right;
use indexmap::IndexMap;
use std::alloc::{AllocError, Global};

/// The rows of a batch come to a book, and those of the trades that it replaces go. Where the book
/// would be out of range then, the first quantity that is above its limit is answered, and nothing
/// changes. No other row is looked at.
///
/// # Errors
///
/// For want of memory alone. Nothing changes then.
pub fn take_in(
    alloc: Global,
    params: &Params,
    current: &IndexMap<Name, HeldRows>,
    sums: &mut Sums,
    kept: &mut KeptBuckets,
    batch: &[TradeRows],
) -> Result<Option<RangeFault>, AllocError>
    requires batch { IsBatch batch.now }
    requires book { IsSummed params.now (trades_of current.now.entries) sums.old kept.old }
    ensures range { IfOk result (λ fault. fault
        ≡ range params.now (rows_of (put_trades batch.now (trades_of current.now.entries)))) }
    ensures moved { let book = trades_of current.now.entries in IfOk result (λ fault.
        IfNone fault (IsMoved params.now (rows_of book) (rows_of (put_trades batch.now book))
        (rows_moved batch.now book) kept.old sums.new kept.new)) }
    ensures refused_sums { IfOk result (λ fault. OnSome fault (sums.new ≡ sums.old)) }
    ensures refused_kept { IfOk result (λ fault. OnSome fault (kept.new ≡ kept.old)) }
    ensures unchanged_sums { OnErr result (sums.new ≡ sums.old) }
    ensures unchanged_kept { OnErr result (kept.new ≡ kept.old) }
{
    order_is_free();
    range_order_is_free(params);
    elsewhere_few(params);
    other_factors_stand();
    touches_add_up();
    touched_stays_right();
    let came = lend_batch(alloc, batch)?;
    let gone = lend_replaced(alloc, current, batch)?;
    let came = came.as_slice();
    let gone = gone.as_slice();
    let refused = exchange(alloc, params, sums, batch, came, gone)?;
    if let Some(fault) = refused {
        return Ok(Some(fault));
    }
    touch_lent(kept, came);
    touch_lent(kept, gone);
    Ok(None)
}

/// The rows of the trades that these different names name go from a book. For want of memory, the
/// only error, nothing changes. No other row is looked at.
pub fn take_out(
    alloc: Global,
    params: &Params,
    current: &IndexMap<Name, HeldRows>,
    sums: &mut Sums,
    kept: &mut KeptBuckets,
    names: &[&Name],
) -> Result<(), AllocError>
    requires different { repeats same_name (lent_names names.now) ≡ false }
    requires book { IsSummed params.now (trades_of current.now.entries) sums.old kept.old }
    ensures moved { let book = trades_of current.now.entries in let its = lent_names names.now in
        OnOk result (IsMoved params.now (rows_of book) (rows_of (without its book))
        (rows_of (named its book)) kept.old sums.new kept.new) }
    ensures unchanged_sums { OnErr result (sums.new ≡ sums.old) }
    ensures unchanged_kept { OnErr result (kept.new ≡ kept.old) }
{
    order_is_free();
    sums_ignore_order();
    other_factors_stand();
    touched_stays_right();
    let gone = lend_named(alloc, current, names)?;
    let leaving = gone.as_slice();
    sums.take_lent(params, leaving);
    touch_lent(kept, leaving);
    Ok(())
}
