//! The measures of the sides of a risk class.
ghost use Rattle.std.specs.Prelude.{◌≡◌};
ghost use Rattle.bucket_cache.specs.FactorBook.Places.{by_side};
ghost use Rattle.bucket_cache.specs.KeptBuckets.Kept.{cached_in};
ghost use Rattle.explain_text.specs.Sides.{first_measure, second_measure, has_measure};

use bucket_cache::factor_book::{BookSide, Factors};
use bucket_cache::kept_buckets::KeptBuckets;
use measured_bucket::simm_kinds::{Measure, ProductClass, RiskClass};

/// The first of the two measures of a side.
pub(crate) fn first_measure(side: BookSide) -> Measure
    ensures { result ≡ first_measure side }
{
    match side {
        BookSide::Delta => Measure::Delta,
        BookSide::Volatility => Measure::Vega,
    }
}

/// The other.
pub(crate) fn second_measure(side: BookSide) -> Measure
    ensures { result ≡ second_measure side }
{
    match side {
        BookSide::Delta => Measure::BaseCorr,
        BookSide::Volatility => Measure::Curvature,
    }
}

/// Whether a place of a side that has a factor has the measure.
pub(crate) fn has_measure(
    factors: &Factors,
    kept: &KeptBuckets,
    product: ProductClass,
    class: RiskClass,
    side: BookSide,
    measure: Measure,
) -> bool
    ensures { result
        ≡ has_measure (cached_in kept.now) measure (by_side product class side factors.now) }
{
    for (_, lent) in factors.side(product, class, side) {
        if kept.cached(&lent.place(), measure).is_some() {
            return true;
        }
    }
    false
}
