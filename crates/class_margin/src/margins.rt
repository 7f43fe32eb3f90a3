//! The margins of a risk class in a product class over the values of its places, measure
//! by measure.
ghost use Rattle.std.specs.Prelude.{◌≡◌, ◌*◌, ◌^◌, List, IfOk, pos, ◌≤ℤ◌};
ghost use Rattle.class_rates.specs.SimmKinds.declared.key.FactorKey.{FactorKey};
ghost use Rattle.class_rates.specs.SimmKinds.declared.kinds.RiskClass.TheVariants as class;
ghost use Rattle.class_rates.specs.SimmRules.BaseCorrelation.{base_margin};
ghost use Rattle.class_rates.specs.FactorBook.declared.holding.Holding.{Holding};
ghost use Rattle.book_range.specs.Bounded.{IsMarginable};
ghost use Rattle.negated_book.specs.Negated.{negated_factors};
ghost use Rattle.class_margin.specs.Parts.{first_k};
ghost use Rattle.class_margin.specs.names_delta.Values.{nets_in};
ghost use Rattle.class_margin.specs.delta.Class.{class_delta_of};
ghost use Rattle.class_margin.specs.volatility.Vega.{class_vega_of};
ghost use Rattle.class_margin.specs.volatility.Curvature.{class_curvature_of};
ghost use Rattle.class_margin.specs.value.Values.{AreBookValues, AreClassValues};

use crate::across::combine;
use crate::listed::ClassBuckets;
use crate::parts::{base_values, curvature_parts, delta_parts, negated_parts, vega_parts};
use class_rates::factor_book::{PlaceValue, factors_are_netted};
use class_rates::mh_units::Cents;
use class_rates::simm_kinds::{ProductClass, RiskClass};
use class_rates::simm_params::Params;
use class_rates::simm_rules::BucketMargin;
use std::alloc::{AllocError, Global};

/// The delta margin, in cents, over the values of all places of the class that have a factor in a
/// book that can be margined: those of delta and of base correlation, and after them those of
/// volatilities; each in the order of buckets. Base correlation and volatilities stand among them
/// and add nothing here. Want of memory is the only error.
pub fn delta_margin(
    alloc: Global,
    params: &Params,
    product: ProductClass,
    class: RiskClass,
    values: &[PlaceValue],
) -> Result<Cents, AllocError>
    requires { AreBookValues params.now product class values.now }
    ensures value { (factors : List (FactorKey × Holding)) → IsMarginable params.now factors
        → AreClassValues params.now product class factors values.now
        → IfOk result (λ m. m.0 ≡ class_delta_of params.now (nets_in product factors) class) }
    ensures low { IfOk result (λ m. pos 0 ≤ℤ m.0) }
    ensures size { IfOk result (λ m. m.0 ≤ℤ pos (84 * 10 ^ 14)) }
{
    params.facts();
    params.rate_facts();
    factors_are_netted();
    let parts = delta_parts(alloc, values)?;
    combine(alloc, params, ClassBuckets::of(class), parts.as_slice())
}

/// The base correlation margin of credit that qualifies, in cents, over the values of its places,
/// as `delta_margin` takes them; 0 where no index has a factor. Want of memory is the only error.
pub fn base_margin(
    alloc: Global,
    params: &Params,
    product: ProductClass,
    values: &[PlaceValue],
) -> Result<Cents, AllocError>
    requires { AreBookValues params.now product class.CreditQ values.now }
    ensures value { (factors : List (FactorKey × Holding)) → IsMarginable params.now factors
        → AreClassValues params.now product class.CreditQ factors values.now
        → IfOk result (λ m. m.0 ≡ base_margin params.now (nets_in product factors)) }
    ensures low { IfOk result (λ m. pos 0 ≤ℤ m.0) }
    ensures size { IfOk result (λ m. m.0 ≤ℤ pos (10 ^ 14)) }
{
    params.facts();
    factors_are_netted();
    let bases = base_values(alloc, values)?;
    Ok(Cents(first_margin(bases.as_slice())))
}

/// The vega margin, in cents, over the values of the places of the class, as `delta_margin` takes
/// them. Want of memory is the only error.
pub fn vega_margin(
    alloc: Global,
    params: &Params,
    product: ProductClass,
    class: RiskClass,
    values: &[PlaceValue],
) -> Result<Cents, AllocError>
    requires { AreBookValues params.now product class values.now }
    ensures value { (factors : List (FactorKey × Holding)) → IsMarginable params.now factors
        → AreClassValues params.now product class factors values.now
        → IfOk result (λ m. m.0 ≡ class_vega_of params.now (nets_in product factors) class) }
    ensures low { IfOk result (λ m. pos 0 ≤ℤ m.0) }
    ensures size { IfOk result (λ m. m.0 ≤ℤ pos (84 * 10 ^ 14)) }
{
    params.facts();
    params.rate_facts();
    factors_are_netted();
    let parts = vega_parts(alloc, values)?;
    combine(alloc, params, ClassBuckets::of(class), parts.as_slice())
}

/// The curvature margin, in cents, over the values of the places of the class, as `delta_margin`
/// takes them. Want of memory is the only error.
pub fn curvature_margin(
    alloc: Global,
    params: &Params,
    product: ProductClass,
    class: RiskClass,
    values: &[PlaceValue],
) -> Result<Cents, AllocError>
    requires { AreBookValues params.now product class values.now }
    ensures value { (factors : List (FactorKey × Holding)) → IsMarginable params.now factors
        → AreClassValues params.now product class factors values.now
        → IfOk result (λ m. m.0 ≡ class_curvature_of params.now (nets_in product factors) class) }
    ensures low { IfOk result (λ m. pos 0 ≤ℤ m.0) }
    ensures size { IfOk result (λ m. m.0 ≤ℤ pos (14 * 10 ^ 14)) }
{
    params.facts();
    factors_are_netted();
    let parts = curvature_parts(alloc, values)?;
    crate::curvature::combine(alloc, params, ClassBuckets::of(class), parts.as_slice())
}

/// The curvature margin of the negated book, in cents, over the values of the places of the book
/// itself, as `delta_margin` takes them. Want of memory is the only error.
pub fn posted_curvature_margin(
    alloc: Global,
    params: &Params,
    product: ProductClass,
    class: RiskClass,
    values: &[PlaceValue],
) -> Result<Cents, AllocError>
    requires { AreBookValues params.now product class values.now }
    ensures value { (factors : List (FactorKey × Holding)) → IsMarginable params.now factors
        → AreClassValues params.now product class factors values.now → IfOk result (λ m.
        m.0 ≡ class_curvature_of params.now (nets_in product (negated_factors factors)) class) }
    ensures low { IfOk result (λ m. pos 0 ≤ℤ m.0) }
    ensures size { IfOk result (λ m. m.0 ≤ℤ pos (14 * 10 ^ 14)) }
{
    params.facts();
    factors_are_netted();
    let parts = curvature_parts(alloc, values)?;
    let negated = negated_parts(alloc, parts.as_slice())?;
    crate::curvature::combine(alloc, params, ClassBuckets::of(class), negated.as_slice())
}

// The margin of the first value, in cents; 0 without one.
fn first_margin(values: &[BucketMargin]) -> i128
    ensures { result ≡ first_k values.now }
{
    values.first().map_or(0, |value| value.k)
}
