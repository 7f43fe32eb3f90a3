//! What a batch comes to that is a book of its own: its factors, the sums of its add-ons, the
//! values of its buckets, its margin.
ghost use Rattle.std.specs.Prelude.{◌≡◌, ℕ, [], None, Some, Err, IfOk, OnOk};
ghost use Rattle.book_margin.specs.SimmKinds.Batch.{IsBatch, rows_of};
ghost use Rattle.book_margin.specs.SimmRules.declared.values.RangeFault.{RangeFault as Fault};
ghost use Rattle.book_margin.specs.SimmRules.Range.{range};
ghost use Rattle.bucket_cache.specs.Figures.{AreFigures};
ghost use Rattle.bucket_cache.specs.Live.{first_unadmitted, rows_in};

use crate::admitting::first_unadmitted;
use crate::booking::{count_rows, net, sum_add_ons};
use crate::fault::BookFault;
use crate::lending::lend_batch;
use book_margin::book_range::{range_bounds, range_fault};
use book_margin::class_combine::AddOnSums;
use book_margin::factor_book::Factors;
use book_margin::kept_buckets::KeptBuckets;
use book_margin::margin_in_range;
use book_margin::simm_kinds::{CrifRow, TradeRows};
use book_margin::simm_params::Params;
use book_margin::simm_rules::Breakdown;
use std::alloc::Global;

/// What a batch comes to.
#[derive(Drop)]
pub struct BatchFigures {
    /// What its rows net to.
    pub factors: Factors,
    /// The sums of its add-ons.
    pub add_ons: AddOnSums,
    /// The value of each of its buckets that has a factor, and the margin of each risk class.
    pub kept: KeptBuckets,
    /// Its margin with all of its parts.
    pub margin: Breakdown,
}

/// What a batch alone comes to, with its margin: what a live margin without trades would answer
/// once it took the batch in. No row is copied, and the rows net once, for the range and for
/// the margin.
///
/// # Errors
///
/// `BucketUnknown` exactly where a row is not admitted, with the place of the first such row; then
/// `Range` exactly where the batch is out of range, with the first quantity that is above its
/// limit; and `Memory` for want of memory.
pub fn batch_figures(
    alloc: Global,
    params: &Params,
    trades: &[TradeRows],
) -> Result<BatchFigures, BookFault>
    requires { IsBatch trades.now }
    ensures admitted { OnOk result (first_unadmitted params.now trades.now ≡ None) }
    ensures in_range { OnOk result (range params.now (rows_of trades.now) ≡ None) }
    ensures figures { IfOk result (AreFigures params.now trades.now) }
    ensures unadmitted { (trade row : ℕ) → result ≡ Err (BookFault.BucketUnknown trade row) →
        first_unadmitted params.now trades.now ≡ Some (record { trade = trade; row = row }) }
    ensures range { (fault : Fault) → result ≡ Err (BookFault.Range fault) →
        range params.now (rows_of trades.now) ≡ Some fault }
    ensures range_of_admitted { (fault : Fault) → result ≡ Err (BookFault.Range fault) →
        first_unadmitted params.now trades.now ≡ None }
{
    if let Some(at) = first_unadmitted(params, trades) {
        return Err(BookFault::BucketUnknown {
            trade: at.trade,
            row: at.row,
        });
    }
    let lent = lend_batch(alloc, trades)?;
    let lent = lent.as_slice();
    let factors = net(alloc, lent)?;
    if let Some(fault) = range_fault(params, &factors, count_rows(lent)) {
        return Err(BookFault::Range(fault));
    }
    range_bounds(params);
    let add_ons = sum_add_ons(alloc, lent)?;
    let parameters = batch_parameters(trades);
    let whole = margin_in_range(alloc, params, &factors, &add_ons, parameters)?;
    Ok(BatchFigures {
        factors,
        add_ons,
        kept: whole.kept,
        margin: whole.margin,
    })
}

/// The parameters of a batch: the rows of the trade without a name, which has all of them; none
/// where there is no such trade. It takes no memory.
pub fn batch_parameters(trades: &[TradeRows]) -> &[CrifRow]
    ensures { result.now ≡ rows_in trades.now [] }
{
    for trade in trades {
        if trade.trade.bytes().is_empty() {
            return trade.rows.as_slice();
        }
    }
    &[]
}
