//! The margin of a batch that is a book of its own.
ghost use Rattle.std.specs.Prelude.{◌≡◌, ℕ, None, Some, Err, IfOk, OnOk};
ghost use Rattle.book_margin.specs.SimmKinds.Batch.{IsBatch, rows_of};
ghost use Rattle.book_margin.specs.SimmRules.declared.values.RangeFault.{RangeFault as Fault};
ghost use Rattle.book_margin.specs.SimmRules.Range.{range};
ghost use Rattle.book_margin.specs.SimmRules.Simm.{simm};
ghost use Rattle.bucket_cache.specs.Live.{first_unadmitted};

use crate::fault::BookFault;
use crate::figures::batch_figures;
use book_margin::simm_kinds::TradeRows;
use book_margin::simm_params::Params;
use book_margin::simm_rules::Breakdown;
use std::alloc::Global;

/// The margin of a batch alone, with all of its parts: what a live margin without trades would
/// answer once it took the batch in. No row is copied, and the rows net once, for the range and
/// for the margin.
///
/// # Errors
///
/// `BucketUnknown` exactly where a row is not admitted, with the place of the first such row; then
/// `Range` exactly where the batch is out of range, with the first quantity that is above its
/// limit; and `Memory` for want of memory.
pub fn batch_margin(
    alloc: Global,
    params: &Params,
    trades: &[TradeRows],
) -> Result<Breakdown, BookFault>
    requires { IsBatch trades.now }
    ensures admitted { OnOk result (first_unadmitted params.now trades.now ≡ None) }
    ensures in_range { OnOk result (range params.now (rows_of trades.now) ≡ None) }
    ensures value { IfOk result (λ b. b ≡ simm params.now (rows_of trades.now)) }
    ensures unadmitted { (trade row : ℕ) → result ≡ Err (BookFault.BucketUnknown trade row) →
        first_unadmitted params.now trades.now ≡ Some (record { trade = trade; row = row }) }
    ensures range { (fault : Fault) → result ≡ Err (BookFault.Range fault) →
        range params.now (rows_of trades.now) ≡ Some fault }
    ensures range_of_admitted { (fault : Fault) → result ≡ Err (BookFault.Range fault) →
        first_unadmitted params.now trades.now ≡ None }
{
    Ok(batch_figures(alloc, params, trades)?.margin)
}
