ghost use Rattle.std.specs.Prelude.{◌≡◌};
ghost use Rattle.factor_book.specs.Value.{measures_of, part_in};

use crate::place::Stand;
use crate::slot::Slot;
use simm_rules::BucketMargin;
use simm_rules::simm_kinds::Measure;

/// The values of a bucket on the side of volatility.
#[derive(Clone, Copy)]
pub struct VolatilityMargins {
    /// The vega value.
    pub vega: BucketMargin,
    /// The curvature value.
    pub curvature: BucketMargin,
}

/// What the factors of a place come to.
#[derive(Clone, Copy)]
pub enum PlaceValue {
    /// The delta value of a bucket.
    Delta(Slot, BucketMargin),
    /// That of base correlation.
    BaseCorrelation(BucketMargin),
    /// The vega value and the curvature value of a bucket, which are kept and forgotten together.
    Volatility(Slot, VolatilityMargins),
}

impl PlaceValue {
    /// The value in a measure; `None` in one that the place does not have.
    pub fn part(&self, measure: Measure) -> Option<BucketMargin>
        ensures { result ≡ part_in measure self.now }
    {
        match (self, measure) {
            (PlaceValue::Delta(_, value), Measure::Delta)
            | (PlaceValue::BaseCorrelation(value), Measure::BaseCorr) => Some(*value),
            (PlaceValue::Volatility(_, values), Measure::Vega) => Some(values.vega),
            (PlaceValue::Volatility(_, values), Measure::Curvature) => Some(values.curvature),
            _ => None,
        }
    }
}

/// How many values what stands there has: one of delta or of base correlation, or those of vega
/// and of curvature.
pub fn measures_of(stand: Stand) -> u32
    ensures { result ≡ measures_of stand }
{
    match stand {
        Stand::Delta(_) | Stand::BaseCorrelation => 1,
        Stand::Volatility(_) => 2,
    }
}
