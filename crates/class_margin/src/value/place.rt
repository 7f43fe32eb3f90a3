//! What the factors of a place come to, by what stands there.
ghost use Rattle.std.specs.Prelude.{◌≡◌, ◌+◌, ◌*◌, ◌≤◌, length, Some, IfOk};
ghost use Rattle.class_rates.specs.FactorBook.declared.place.Stand.TheVariants as stand;
ghost use Rattle.class_rates.specs.FactorBook.Value.{measures_of};
ghost use Rattle.class_credit.specs.Base.{index_nets, AreIndices};
ghost use Rattle.class_margin.specs.value.Delta.{delta_count, IsDeltaReady};
ghost use Rattle.class_margin.specs.value.Place.{count_of, place_value, stand_count, value_of};
ghost use Rattle.class_margin.specs.value.Place.{AreSizes, IsMeasurable, IsPlaceSized, IsReady};
ghost use Rattle.class_margin.specs.value.Volatile.{volatile_count, IsVolatileReady};

use crate::value::curvature::curvature_of;
use crate::value::delta::delta_of;
use crate::value::vega::vega_of;
use class_credit::base_correlation;
use class_rates::factor_book::{PlaceFactors, PlaceValue, Slot, Stand, VolatilityMargins};
use class_rates::pair_sum::Steps;
use class_rates::simm_params::Params;
use std::alloc::{AllocError, Global};
use std::sync::ledger::Ledger;

/// What the factors of a place come to: a delta value, the value of base correlation, or a vega
/// value and a curvature value. The factors are in range, and a bucket of credit, equity or
/// commodities is one that the file lists. A place of `n` of the rule's factors, among which the
/// calculation currency is none, and of which all volatilities of a name or of a pair are one,
/// takes at most `n * n` steps for each value. Want of memory is the only error.
pub fn place_value<L: Ledger>(
    alloc: Global,
    params: &Params,
    lent: &PlaceFactors,
    steps: &mut Steps<L>,
) -> Result<PlaceValue, AllocError>
    requires { IsMeasurable params.now lent.now }
    ensures value { IfOk result (λ v. Some v ≡ place_value params.now lent.now) }
    ensures sized { IfOk result (IsPlaceSized params.now lent.now) }
    ensures steps { let n = count_of params.now lent.now in
        steps.new ≤ steps.old + measures_of lent.now.place.stand * (n * n) }
{
    stand_value(alloc, params, &lent.place().stand, lent, steps)
}

// The same, of what stands there.
fn stand_value<L: Ledger>(
    alloc: Global,
    params: &Params,
    stand: &Stand,
    lent: &PlaceFactors,
    steps: &mut Steps<L>,
) -> Result<PlaceValue, AllocError>
    requires { IsReady params.now stand.now lent.now.factors }
    ensures value { IfOk result (λ v. Some v ≡ value_of params.now stand.now lent.now.factors) }
    ensures sized { IfOk result (AreSizes params.now lent.now.factors) }
    ensures steps { let n = stand_count params.now stand.now lent.now.factors in
        steps.new ≤ steps.old + measures_of stand.now * (n * n) }
{
    match stand {
        Stand::Delta(slot) => delta(alloc, params, slot, lent, steps),
        Stand::BaseCorrelation => base(alloc, params, lent, steps),
        Stand::Volatility(slot) => volatility(alloc, params, slot, lent, steps),
    }
}

// The value of base correlation.
fn base<L: Ledger>(
    alloc: Global,
    params: &Params,
    lent: &PlaceFactors,
    steps: &mut Steps<L>,
) -> Result<PlaceValue, AllocError>
    requires { AreIndices params.now (index_nets lent.now.factors) }
    ensures value { IfOk result (λ v.
        Some v ≡ value_of params.now stand.BaseCorrelation lent.now.factors) }
    ensures sized { IfOk result (AreSizes params.now lent.now.factors) }
    ensures steps { let n = length (index_nets lent.now.factors) in steps.new ≤ steps.old + n * n }
{
    let value = base_correlation(alloc, params, lent, steps)?;
    Ok(PlaceValue::BaseCorrelation(value))
}

// The delta value of a bucket.
fn delta<L: Ledger>(
    alloc: Global,
    params: &Params,
    slot: &Slot,
    lent: &PlaceFactors,
    steps: &mut Steps<L>,
) -> Result<PlaceValue, AllocError>
    requires { IsDeltaReady params.now slot.now lent.now.factors }
    ensures value { IfOk result (λ v.
        Some v ≡ value_of params.now (stand.Delta slot.now) lent.now.factors) }
    ensures sized { IfOk result (AreSizes params.now lent.now.factors) }
    ensures steps { let n = delta_count params.now slot.now lent.now.factors in
        steps.new ≤ steps.old + n * n }
{
    let value = delta_of(alloc, params, *slot, lent, steps)?;
    Ok(PlaceValue::Delta(*slot, value))
}

// The values of a bucket on the side of volatility.
fn volatility<L: Ledger>(
    alloc: Global,
    params: &Params,
    slot: &Slot,
    lent: &PlaceFactors,
    steps: &mut Steps<L>,
) -> Result<PlaceValue, AllocError>
    requires { IsVolatileReady params.now slot.now lent.now.factors }
    ensures value { IfOk result (λ v.
        Some v ≡ value_of params.now (stand.Volatility slot.now) lent.now.factors) }
    ensures sized { IfOk result (AreSizes params.now lent.now.factors) }
    ensures steps { let n = volatile_count slot.now lent.now.factors in
        steps.new ≤ steps.old + 2 * (n * n) }
{
    let vega = vega_of(alloc, params, *slot, lent, steps)?;
    let curvature = curvature_of(alloc, params, *slot, lent, steps)?;
    Ok(PlaceValue::Volatility(*slot, VolatilityMargins { vega, curvature }))
}
