//! The margins of the measures of one risk class in a product class, over the values of its places.
ghost use Rattle.std.specs.Prelude.{◌≡◌, ◌^◌, List, IfOk, pos, ◌≤ℤ◌};
ghost use Rattle.kept_buckets.specs.SimmKinds.declared.key.FactorKey.{FactorKey};
ghost use Rattle.kept_buckets.specs.FactorBook.declared.holding.Holding.{Holding};
ghost use Rattle.class_margin.specs.names_delta.Values.{nets_in};
ghost use Rattle.class_margin.specs.BookRange.Bounded.{IsMarginable};
ghost use Rattle.class_margin.specs.NegatedBook.Negated.{negated_factors};
ghost use Rattle.class_margin.specs.value.Values.{AreBookValues, AreClassValues};
ghost use Rattle.book_margin.specs.Classes.{base_of};
ghost use Rattle.book_margin.specs.Measures.{AreMeasures, AreWithin, measure_in, measures_sum};

use class_combine::simm_params::Params;
use class_margin::negated_book::base_correlation_is_even;
use class_margin::{
    base_margin, curvature_margin, delta_and_vega_are_even, delta_margin, posted_curvature_margin,
    vega_margin,
};
use kept_buckets::factor_book::PlaceValue;
use kept_buckets::mh_units::Cents;
use kept_buckets::simm_kinds::{Measure, ProductClass, RiskClass};
use std::alloc::{AllocError, Global};

/// The margins of the measures of a risk class in a product class, in cents: together they are the
/// margin of the class.
#[derive(Clone, Copy)]
pub struct MeasureMargins {
    /// That of delta.
    pub delta: Cents,
    /// That of vega.
    pub vega: Cents,
    /// That of curvature.
    pub curvature: Cents,
    /// That of base correlation, 0 but in credit that qualifies.
    pub base: Cents,
}

impl MeasureMargins {
    /// That of a measure.
    pub fn of(self, measure: Measure) -> Cents
        ensures { result ≡ measure_in self measure }
    {
        match measure {
            Measure::Delta => self.delta,
            Measure::Vega => self.vega,
            Measure::Curvature => self.curvature,
            Measure::BaseCorr => self.base,
        }
    }

    /// The margin of the class.
    pub fn sum(self) -> Cents
        requires { AreWithin self }
        ensures { result.0 ≡ measures_sum self }
    {
        Cents(self.delta.0 + self.vega.0 + self.curvature.0 + self.base.0)
    }
}

/// Those over the values of all places of a class that have a factor in a book in range, as the
/// margins of `class_margin` take them. Want of memory is the only error.
pub fn measures_from(
    alloc: Global,
    params: &Params,
    product: ProductClass,
    class: RiskClass,
    values: &[PlaceValue],
) -> Result<MeasureMargins, AllocError>
    requires { AreBookValues params.now product class values.now }
    ensures measures { (factors : List (FactorKey × Holding)) → IsMarginable params.now factors
        → AreClassValues params.now product class factors values.now
        → IfOk result (AreMeasures params.now factors product class) }
    ensures within { IfOk result AreWithin }
{
    let delta = delta_margin(alloc, params, product, class, values)?;
    let vega = vega_margin(alloc, params, product, class, values)?;
    let curvature = curvature_margin(alloc, params, product, class, values)?;
    let base = base_part(alloc, params, product, class, values)?;
    Ok(MeasureMargins {
        delta,
        vega,
        curvature,
        base,
    })
}

/// Those of the negated book, from those of the book: curvature alone differs, over the same
/// values of places. Want of memory is the only error.
pub fn posted(
    alloc: Global,
    params: &Params,
    product: ProductClass,
    class: RiskClass,
    measures: MeasureMargins,
    values: &[PlaceValue],
) -> Result<MeasureMargins, AllocError>
    requires values { AreBookValues params.now product class values.now }
    requires within { AreWithin measures }
    ensures measures { (factors : List (FactorKey × Holding)) → IsMarginable params.now factors
        → AreClassValues params.now product class factors values.now
        → AreMeasures params.now factors product class measures
        → IfOk result (AreMeasures params.now (negated_factors factors) product class) }
    ensures within { IfOk result AreWithin }
{
    delta_and_vega_are_even();
    base_correlation_is_even();
    let curvature = posted_curvature_margin(alloc, params, product, class, values)?;
    Ok(MeasureMargins {
        curvature,
        ..measures
    })
}

// The part of base correlation, which is margined in credit that qualifies alone.
fn base_part(
    alloc: Global,
    params: &Params,
    product: ProductClass,
    class: RiskClass,
    values: &[PlaceValue],
) -> Result<Cents, AllocError>
    requires { AreBookValues params.now product class values.now }
    ensures value { (factors : List (FactorKey × Holding)) → IsMarginable params.now factors
        → AreClassValues params.now product class factors values.now
        → IfOk result (λ m. m.0 ≡ base_of params.now (nets_in product factors) class) }
    ensures low { IfOk result (λ m. pos 0 ≤ℤ m.0) }
    ensures size { IfOk result (λ m. m.0 ≤ℤ pos (10 ^ 14)) }
{
    match class {
        RiskClass::CreditQ => base_margin(alloc, params, product, values),
        RiskClass::IR
        | RiskClass::CreditNonQ
        | RiskClass::Equity
        | RiskClass::Commodity
        | RiskClass::FX => Ok(Cents(0)),
    }
}
