//! What a batch makes of the sums of a book: its rows come, those that it replaces go, and the
//! book is in range afterwards; or nothing changes. No other row is looked at.
ghost use Rattle.std.specs.Prelude.{◌≡◌, ◌++◌, List, None, IfOk, OnErr, OnSome, IfNone};
ghost use Rattle.book_margin.specs.SimmKinds.declared.row.CrifRow.{CrifRow as Row};
ghost use Rattle.book_margin.specs.SimmKinds.Batch.{rows_of};
ghost use Rattle.book_margin.specs.SimmRules.Range.{range};
ghost use Rattle.book_margin.specs.BookRange.Sizes.{sizes_in};
ghost use Rattle.book_margin.specs.FactorBook.Factors.{factors_of};
ghost use Rattle.bucket_cache.specs.Lent.{all_rows};
ghost use Rattle.bucket_cache.specs.Sums.{book_sums, IsExchange, IsNetted, AreWeighed};

use crate::booking::{count_rows, net};
use crate::lent::LentRows;
use crate::sums::Sums;
use book_margin::book_range::{GrossSizes, range_after};
use book_margin::class_combine::sums_ignore_order;
use book_margin::factor_book::{Factors, order_is_free};
use book_margin::simm_kinds::TradeRows;
use book_margin::simm_params::Params;
use book_margin::simm_rules::RangeFault;
use std::alloc::{AllocError, Global};

/// The rows of the batch come, and those of `gone` go. Where the book would be out of range then,
/// the first quantity that is above its limit is answered, and nothing changes.
///
/// # Errors
///
/// For want of memory alone. Nothing changes then.
pub fn exchange(
    alloc: Global,
    params: &Params,
    sums: &mut Sums,
    batch: &[TradeRows],
    came: &[LentRows],
    gone: &[LentRows],
) -> Result<Option<RangeFault>, AllocError>
    requires batch { all_rows came.now ≡ rows_of batch.now }
    requires book { (held : List Row)
        × IsExchange params.now sums.old (all_rows came.now) (all_rows gone.now) held }
    ensures range { (held : List Row)
        → IsExchange params.now sums.old (all_rows came.now) (all_rows gone.now) held
        → IfOk result (λ fault. fault ≡ range params.now held) }
    ensures sums { (held : List Row)
        → IsExchange params.now sums.old (all_rows came.now) (all_rows gone.now) held
        → IfOk result (λ fault. IfNone fault (sums.new ≡ book_sums params.now held)) }
    ensures refused { IfOk result (λ fault. OnSome fault (sums.new ≡ sums.old)) }
    ensures unchanged { OnErr result (sums.new ≡ sums.old) }
{
    order_is_free();
    sums_ignore_order();
    let leaving = net(alloc, gone)?;
    sums.add_lent(alloc, params, came)?;
    match fault_without(params, sums, &leaving, batch, gone) {
        Some(fault) => {
            sums.take_lent(params, came);
            Ok(Some(fault))
        }
        None => {
            sums.take_lent(params, gone);
            Ok(None)
        }
    }
}

// The first quantity that is above its limit once the rows of `gone` go, whose factors
// are `leaving`.
fn fault_without(
    params: &Params,
    sums: &Sums,
    leaving: &Factors,
    batch: &[TradeRows],
    gone: &[LentRows],
) -> Option<RangeFault>
    requires { (held : List Row)
        × IsNetted params.now sums.now leaving.now (rows_of batch.now) (all_rows gone.now) held }
    ensures { (held : List Row)
        → IsNetted params.now sums.now leaving.now (rows_of batch.now) (all_rows gone.now) held
        → result ≡ range params.now held }
{
    let rows = sums.rows - count_rows(gone);
    let sizes = sizes_without(params, sums.sizes, gone);
    range_after(params, &sums.factors, leaving, rows, &sizes, batch)
}

// The sizes once the rows of `gone` go.
fn sizes_without(params: &Params, sizes: GrossSizes, gone: &[LentRows]) -> GrossSizes
    requires { AreWeighed params.now sizes (all_rows gone.now) }
    ensures { (held : List Row)
        → sizes ≡ sizes_in params.now (factors_of (held ++ all_rows gone.now))
        → result ≡ sizes_in params.now (factors_of held) }
{
    let mut left = sizes;
    for trade in gone {
        left.take_rows(params, trade.rows);
    }
    left
}
