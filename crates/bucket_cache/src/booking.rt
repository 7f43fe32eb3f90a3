//! The factors, the add-ons and the number of rows that are lent.
ghost use Rattle.std.specs.Prelude.{◌≡◌, ◌^◌, ◌<◌, true, IfOk, length};
ghost use Rattle.std.specs.List.{list_all};
ghost use Rattle.book_margin.specs.SimmKinds.Batch.{is_in_range};
ghost use Rattle.book_margin.specs.FactorBook.Factors.{factors_of};
ghost use Rattle.book_margin.specs.ClassCombine.Sums.{sums_of};
ghost use Rattle.bucket_cache.specs.Lent.{all_rows};

use crate::lent::LentRows;
use book_margin::class_combine::AddOnSums;
use book_margin::factor_book::{Factors, NettedRows};
use std::alloc::{AllocError, Global};

/// How many rows are lent. It takes no memory.
pub fn count_rows(lent: &[LentRows]) -> usize
    requires { length (all_rows lent.now) < 2 ^ 63 }
    ensures { result ≡ length (all_rows lent.now) }
{
    let mut count = 0;
    for trade in lent {
        count += trade.rows.len();
    }
    count
}

/// The factors of all rows, which are netted by themselves first. Want of memory is the only error.
pub fn net(alloc: Global, lent: &[LentRows]) -> Result<Factors, AllocError>
    requires few { length (all_rows lent.now) < 2 ^ 32 }
    requires amounts { list_all is_in_range (all_rows lent.now) ≡ true }
    ensures { IfOk result (λ factors. factors ≡ factors_of (all_rows lent.now)) }
{
    let mut rows = NettedRows::new(alloc);
    for trade in lent {
        rows.add_rows(trade.rows)?;
    }
    Factors::of(alloc, &rows)
}

/// The sums of the add-ons of all rows. Want of memory is the only error.
pub fn sum_add_ons(alloc: Global, lent: &[LentRows]) -> Result<AddOnSums, AllocError>
    requires few { length (all_rows lent.now) < 2 ^ 32 }
    requires amounts { list_all is_in_range (all_rows lent.now) ≡ true }
    ensures { IfOk result (λ add_ons. add_ons ≡ sums_of (all_rows lent.now)) }
{
    let mut add_ons = AddOnSums::new(alloc);
    for trade in lent {
        add_ons.add_rows(alloc, trade.rows)?;
    }
    Ok(add_ons)
}
