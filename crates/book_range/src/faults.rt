//! The quantities of a book beside their limits.
ghost use Rattle.std.specs.Prelude.{◌≡◌};
ghost use Rattle.simm_params.specs.SimmRules.Range.{above as above_of};
ghost use Rattle.book_range.specs.Faults.{count_fault, bucket_fault, gross_kind, size_fault};
ghost use Rattle.book_range.specs.Faults.{product_fault, side_fault, gross_fault};

use crate::sizes::GrossSizes;
use factor_book::BookSide;
use simm_params::mh_units::div_up;
use simm_params::simm_kinds::{ProductClass, RiskClass};
use simm_params::simm_rules::{RangeFault, RangeKind};

/// The most rows of a book.
const MOST_ROWS: i128 = 200_000;

/// The most keys of a book.
const MOST_KEYS: i128 = 20_000;

/// The most keys of one bucket of a side.
const MOST_BUCKET_KEYS: i128 = 2_000;

/// The greatest gross size of a side of a class, in cents.
const GREATEST_GROSS: i128 = 10_000_000_000_000;

/// A book of so many rows that has so many keys.
pub fn count_fault(rows: usize, keys: usize) -> Option<RangeFault>
    ensures { result ≡ count_fault rows keys }
{
    let too_many_rows = above(RangeKind::RowCount, rows as i128, MOST_ROWS);
    if too_many_rows.is_some() {
        too_many_rows
    } else {
        above(RangeKind::KeyCount, keys as i128, MOST_KEYS)
    }
}

/// A bucket of so many keys.
pub fn bucket_fault(keys: usize) -> Option<RangeFault>
    ensures { result ≡ bucket_fault keys }
{
    above(RangeKind::BucketKeys, keys as i128, MOST_BUCKET_KEYS)
}

/// The first gross size that is too great: of delta in all classes, and then of volatilities.
pub fn gross_fault(sizes: &GrossSizes) -> Option<RangeFault>
    ensures { result ≡ gross_fault sizes.now }
{
    let fault = side_fault(sizes, BookSide::Delta);
    if fault.is_some() {
        fault
    } else {
        side_fault(sizes, BookSide::Volatility)
    }
}

fn side_fault(sizes: &GrossSizes, side: BookSide) -> Option<RangeFault>
    ensures { result ≡ side_fault sizes.now side }
{
    for product in ProductClass::ALL {
        let fault = product_fault(sizes, side, product);
        if fault.is_some() {
            return fault;
        }
    }
    None
}

fn product_fault(sizes: &GrossSizes, side: BookSide, product: ProductClass) -> Option<RangeFault>
    ensures { result ≡ product_fault sizes.now side product }
{
    for class in RiskClass::ALL {
        let fault = size_fault(sizes, product, class, side);
        if fault.is_some() {
            return fault;
        }
    }
    None
}

fn size_fault(
    sizes: &GrossSizes,
    product: ProductClass,
    class: RiskClass,
    side: BookSide,
) -> Option<RangeFault>
    ensures { result ≡ size_fault sizes.now product class side }
{
    let cents = div_up(sizes.size(product, class, side), 10_000);
    above(gross_kind(side), cents, GREATEST_GROSS)
}

fn gross_kind(side: BookSide) -> RangeKind
    ensures { result ≡ gross_kind side }
{
    match side {
        BookSide::Delta => RangeKind::DeltaGross,
        BookSide::Volatility => RangeKind::VegaGross,
    }
}

fn above(which: RangeKind, value: i128, limit: i128) -> Option<RangeFault>
    ensures { result ≡ above_of which value limit }
{
    if limit < value {
        Some(RangeFault {
            which,
            value,
            limit,
        })
    } else {
        None
    }
}
